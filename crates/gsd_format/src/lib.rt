// The answers of the library's calls. What each call answers is defined in specs/, in the order of GSD's own
// description: bytes, header, names, entries, opening, lookup, elements, readers, fresh images, the listing.
#![tactic(auto)]

mod element;
mod refusal;

pub use element::{Element, Number};
pub use refusal::Refusal;

// An index entry: all 32 bytes of it. The format's N and M are n and m, its type is kind. The location is an i64 in
// the file; in a listed entry of an image that opens it is never negative.
#[derive(Clone, Copy)]
pub struct Entry {
    pub frame: u64,
    pub n: u64,
    pub location: u64,
    pub m: u32,
    pub id: u16,
    pub kind: u8,
    pub flags: u8,
}

// Where an image's lists are, and in which version: the slice's length, then what the header says.
#[derive(Clone, Copy)]
pub struct Layout {
    pub len: usize,
    pub version: u64,
    pub index: u64,
    pub slots: u64,
    pub namelist: u64,
    pub segments: u64,
}

// A part of the image: size bytes from start.
#[derive(Clone, Copy)]
pub struct Part {
    pub start: usize,
    pub size: usize,
}

// What an image holds.
#[derive(Clone, Copy)]
pub struct Counts {
    pub frames: u64,
    pub names: u64,
    pub entries: u64,
}

// What the search answers: the lookup's answer, and how many entries it probed.
#[derive(Clone, Copy)]
pub struct Searched {
    pub answer: Result<Entry, Refusal>,
    pub probes: u64,
}

// What an opened image is read by without its tests: its counts, where its entries and its names begin, how many bytes the
// list of names takes, and its version. Any numbers may stand here.
#[derive(Clone, Copy)]
pub struct Reader {
    pub frames: u64,
    pub names: u64,
    pub entries: u64,
    pub index: u64,
    pub namelist: u64,
    pub size: u64,
    pub version: u64,
}
