// The words of a table. A line's form is its word with 0 for each number, ' for each text and = before an answer: a line
// "lookup 0 'probe' = 41" has the form "lookup0'=".

// By what they do: words that make an image or a sheet, hold a state or set a reader; those that look at the image, change it by
// a call, read it, write its NChilada files, and read it by the reader; and those of RawArray files.
#[derive(Clone, Copy, Debug, PartialEq, Eq)]
pub enum Word {
    Make(Make),
    Look(Look),
    Call(Call),
    Ask(Ask),
    Nchilada,
    AskBy(AskBy),
    Raw(Raw),
}

#[derive(Clone, Copy, Debug, PartialEq, Eq)]
pub enum Make {
    Image,
    Use,
    Bytes,
    Word,
    Byte,
    Keep,
    Back,
    Sheet,
    More,
    Patch,
    Cut,
    Hold,
    Held,
    Reader,
    Note,
    Noted,
}

#[derive(Clone, Copy, Debug, PartialEq, Eq)]
pub enum Look {
    End,
    Word,
    Has,
    Same,
}

#[derive(Clone, Copy, Debug, PartialEq, Eq)]
pub enum Call {
    Create,
    Append,
    Begin,
    Turn,
}

#[derive(Clone, Copy, Debug, PartialEq, Eq)]
pub enum Ask {
    Name,
    Chunk,
    Element,
    Open,
    Entry,
    Lookup,
    Probes,
}

#[derive(Clone, Copy, Debug, PartialEq, Eq)]
pub enum AskBy {
    Open,
    Name,
    Chunk,
    Element,
    Entry,
    Lookup,
    Id,
    Find,
    Newest,
}

#[derive(Clone, Copy, Debug, PartialEq, Eq)]
pub enum Raw {
    Write,
    Read,
}

// Forms with spaces behind them.
pub const FORM_SIZE: usize = 16;

const FORMS: [([u8; FORM_SIZE], Word); 43] = [
    (*b"image0          ", Word::Make(Make::Image)),
    (*b"use0            ", Word::Make(Make::Use)),
    (*b"bytes0'         ", Word::Make(Make::Bytes)),
    (*b"word00          ", Word::Make(Make::Word)),
    (*b"byte00          ", Word::Make(Make::Byte)),
    (*b"keep            ", Word::Make(Make::Keep)),
    (*b"back            ", Word::Make(Make::Back)),
    (*b"sheet'          ", Word::Make(Make::Sheet)),
    (*b"more'           ", Word::Make(Make::More)),
    (*b"patch00         ", Word::Make(Make::Patch)),
    (*b"cut0            ", Word::Make(Make::Cut)),
    (*b"hold            ", Word::Make(Make::Hold)),
    (*b"held            ", Word::Make(Make::Held)),
    (*b"reader00        ", Word::Make(Make::Reader)),
    (*b"note            ", Word::Make(Make::Note)),
    (*b"noted           ", Word::Make(Make::Noted)),
    (*b"end=            ", Word::Look(Look::End)),
    (*b"word0=          ", Word::Look(Look::Word)),
    (*b"has0'=          ", Word::Look(Look::Has)),
    (*b"same=           ", Word::Look(Look::Same)),
    (*b"create000''=    ", Word::Call(Call::Create)),
    (*b"append0=        ", Word::Call(Call::Append)),
    (*b"begin=          ", Word::Call(Call::Begin)),
    (*b"turn0=          ", Word::Call(Call::Turn)),
    (*b"name0=          ", Word::Ask(Ask::Name)),
    (*b"chunk0'=        ", Word::Ask(Ask::Chunk)),
    (*b"element0'0=     ", Word::Ask(Ask::Element)),
    (*b"open=           ", Word::Ask(Ask::Open)),
    (*b"entry0=         ", Word::Ask(Ask::Entry)),
    (*b"lookup0'=       ", Word::Ask(Ask::Lookup)),
    (*b"probes0'=       ", Word::Ask(Ask::Probes)),
    (*b"nchilada0'00=   ", Word::Nchilada),
    (*b"reader=         ", Word::AskBy(AskBy::Open)),
    (*b"byname0=        ", Word::AskBy(AskBy::Name)),
    (*b"bychunk0'=      ", Word::AskBy(AskBy::Chunk)),
    (*b"byelement0'0=   ", Word::AskBy(AskBy::Element)),
    (*b"byentry0=       ", Word::AskBy(AskBy::Entry)),
    (*b"bylookup0'=     ", Word::AskBy(AskBy::Lookup)),
    (*b"byid'=          ", Word::AskBy(AskBy::Id)),
    (*b"byfind00=       ", Word::AskBy(AskBy::Find)),
    (*b"bynewest00=     ", Word::AskBy(AskBy::Newest)),
    (*b"rawwrite0'0=    ", Word::Raw(Raw::Write)),
    (*b"rawread'0=      ", Word::Raw(Raw::Read)),
];

// The word of a form.
pub fn known(form: &[u8; FORM_SIZE]) -> Option<Word> {
    for (listed, word) in &FORMS {
        if listed == form {
            return Some(*word);
        }
    }
    None
}
