// A table run line by line; what a line asks is answered by a look at the image or by a call.
ghost use Rattle.std.specs.Prelude.{◌≤◌, length};

use crate::ask::ask;
use crate::call::call;
use crate::nchilada::write_nchilada;
use crate::rawarray::ask_raw;
use crate::readers::ask_by;
use gsd_lines::words::{Make, Word};
use gsd_lines::{Line, line_end, read_line};
use gsd_states::STATE_WORDS;
use gsd_tables::bench::Bench;
use gsd_tables::look::look;
use gsd_tables::tally::Tally;
use gsd_tables::text::Text;
use std::io;

// What a table works on: an image and a sheet, the state of an append and the copy of it that is held, one reader and the copy
// of it that is noted.
#[derive(Clone, Copy)]
pub struct Desk {
    pub bench: Bench,
    pub state: [u64; STATE_WORDS],
    pub held: [u64; STATE_WORDS],
    pub reader: [u64; 8],
    pub noted: [u64; 8],
}

impl Desk {
    fn new() -> Desk {
        Desk {
            bench: Bench::new(),
            state: [0; STATE_WORDS],
            held: [0; STATE_WORDS],
            reader: [0; 8],
            noted: [0; 8],
        }
    }

    // The word of a line that makes something, done; none where it cannot be put. The bench says which words of a reader there are.
    fn make(&mut self, word: Make, line: Line, table: &[u8]) -> Option<()> {
        self.bench.make(word, line, table)?;
        let [_, at, n] = line.numbers;
        match word {
            Make::Hold => self.held = self.state,
            Make::Held => self.state = self.held,
            Make::Note => self.noted = self.reader,
            Make::Noted => self.reader = self.noted,
            Make::Reader => *self.reader.get_mut(at as usize)? = n,
            _ => {}
        }
        Some(())
    }

    // What a line asks for, answered as text.
    fn answer(&mut self, line: Line, table: &[u8], text: &mut Text) {
        match line.word {
            Word::Make(_) => {}
            Word::Look(word) => text.say_all(look(word, line, table, &self.bench), &[]),
            Word::Call(word) => call(word, line, table, self, text),
            Word::Ask(word) => ask(word, line, table, self.bench.lent(), text),
            Word::Nchilada => write_nchilada(line, table, self.bench.lent(), text),
            Word::AskBy(word) => {
                ask_by(word, line, table, self.bench.lent(), &mut self.reader, text)
            }
            Word::Raw(word) => ask_raw(word, line, table, &mut self.bench, text),
        }
    }
}

// One line, which is neither empty nor a title nor a comment. The runtime goes on to the tally, which prints by it.
fn run_words(
    rt: &impl Print,
    words: &mut [u8],
    desk: &mut Desk,
    tally: &mut Tally,
) -> io::Result<()> {
    let to = words.len();
    let Some(line) = read_line(words, 0, to) else {
        return tally.differs(rt, b" not understood");
    };
    if let Word::Make(word) = line.word {
        return match desk.make(word, line, words) {
            Some(()) => Ok(()),
            None => tally.differs(rt, b" cannot be put"),
        };
    }
    let mut text = Text::new();
    desk.answer(line, words, &mut text);
    tally.compare(rt, text.bytes(), line.answer.of(words))
}

fn run_line(
    rt: &impl Print,
    line: &mut [u8],
    desk: &mut Desk,
    tally: &mut Tally,
) -> io::Result<()> {
    tally.next_line();
    match line.first() {
        None | Some(b'-') => Ok(()),
        Some(b'#') => tally.begin(rt),
        Some(_) => run_words(rt, line, desk, tally),
    }
}

// The first n bytes of a table. Each line is lent where it stands, since reading changes its letters.
pub fn run<'a>(rt: &impl Print, table: &mut [u8], n: usize, path: &'a str) -> io::Result<Tally<'a>>
    requires inside { n ≤ length table.old }
{
    let mut desk = Desk::new();
    let mut tally = Tally::new(path);
    for line in table[..n].split_inclusive_mut(|c| *c == b'\n') {
        let to = line_end(line, 0, line.len());
        run_line(rt, &mut line[..to], &mut desk, &mut tally)?;
    }
    tally.end(rt)?;
    Ok(tally)
}
