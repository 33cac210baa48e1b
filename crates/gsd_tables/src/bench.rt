// What a table makes: an image, a copy of it that is kept, and an append sheet, of 32,768 bytes each. What has no room there
// is not put.
ghost use Rattle.std.specs.Prelude.{◌≤◌};

use gsd_lines::words::Make;
use gsd_lines::{Line, Span};

pub const ROOM: usize = 32768;

// With how many bytes of the image are lent, and where the sheet ends: there is no heap, so each has its room and a length beside it.
#[derive(Clone, Copy)]
pub struct Bench {
    pub image: [u8; ROOM],
    pub len: usize,
    pub kept: [u8; ROOM],
    pub sheet: [u8; ROOM],
    pub end: usize,
}

// What would lie behind the end is not put, and none is answered.
fn put_text(bytes: &mut [u8; ROOM], at: usize, text: &[u8]) -> Option<()> {
    let room = bytes.get_mut(at..)?;
    if room.len() < text.len() {
        return None;
    }
    room[..text.len()].copy_from_slice(text);
    Some(())
}

// A byte; of a number above 255 its lowest byte is put, and none is answered.
fn put_byte(bytes: &mut [u8; ROOM], at: usize, b: u64) -> Option<()> {
    *bytes.get_mut(at)? = (b % 256) as u8;
    (b < 256).then_some(())
}

// No more of the image than there is.
fn length(n: u64) -> Option<usize> {
    (n <= ROOM as u64).then_some(n as usize)
}

impl Bench {
    pub fn new() -> Bench {
        Bench {
            image: [0; ROOM],
            len: 0,
            kept: [0; ROOM],
            sheet: [0; ROOM],
            end: 0,
        }
    }

    // How many bytes of the image are lent.
    pub fn size(&self) -> usize
        ensures { result ≤ 32768 }
    {
        self.len.min(ROOM)
    }

    pub fn lent(&self) -> &[u8] {
        &self.image[..self.size()]
    }

    pub fn lent_mut(&mut self) -> &mut [u8] {
        let len = self.size();
        let image = &mut self.image[..];
        &mut image[..len]
    }

    // The sheet up to its end. An end is a number of 16 bits; what one that a line sets has above them cuts off the front.
    pub fn sheet_span(&self) -> Span {
        Span {
            start: self.end / 65536,
            end: self.end % 65536,
        }
    }

    pub fn sheet(&self) -> &[u8] {
        self.sheet_span().of(&self.sheet)
    }

    // The word of a line that makes something, done; none where it cannot be put. A reader has eight words.
    pub fn make(&mut self, word: Make, line: Line, table: &[u8]) -> Option<()> {
        let [_, place, n] = line.numbers;
        let at = place as usize;
        let text = line.texts[1].of(table);
        match word {
            Make::Image => {
                self.image = [0; ROOM];
                self.len = length(n)?;
            }
            Make::Use => self.len = length(n)?,
            Make::Bytes => put_text(&mut self.image, n as usize, text)?,
            Make::Word => put_text(&mut self.image, at, &n.to_le_bytes())?,
            Make::Byte => put_byte(&mut self.image, at, n)?,
            Make::Keep => self.kept = self.image,
            Make::Back => self.image = self.kept,
            Make::Sheet => {
                put_text(&mut self.sheet, 0, text)?;
                self.end = text.len();
            }
            Make::More => {
                put_text(&mut self.sheet, self.end, text)?;
                self.end = self.end.wrapping_add(text.len());
            }
            Make::Patch => put_byte(&mut self.sheet, at, n)?,
            Make::Cut => self.end = n as usize,
            Make::Reader => (at < 8).then_some(())?,
            Make::Hold | Make::Held | Make::Note | Make::Noted => {}
        }
        Some(())
    }
}
