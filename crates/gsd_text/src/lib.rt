// The lines of a listing. Each comes with the text that the format's definitions give it, as the first `size` of 128 bytes;
// the bytes behind the text are free, and nobody reads them.
#![tactic(auto)]

ghost use Rattle.std.specs.Prelude.{◌≡◌, ◌+◌, ◌≤◌, [], ◌∷◌, ◌++◌, length, take};
ghost use Rattle.gsd_format.specs.Ascii.{ascii};
ghost use Rattle.gsd_format.specs.Listing.{decimal, fields, entry_line, counts_line};

use gsd_bytes::put_text;
use gsd_format::Entry;
use itoa::Buffer;

// A line: the first size bytes, its newline among them. What the bytes behind them are is free. There is no heap, so its room is fixed.
#[derive(Clone, Copy)]
pub struct Line {
    pub bytes: [u8; 128],
    pub size: usize,
    pub ghost within: { size ≤ 128 },
}

impl Line {
    fn new() -> Line
        ensures { result.size ≡ 0 }
    {
        Line {
            bytes: [0; 128],
            size: 0,
        }
    }

    pub fn text(&self) -> &[u8]
        ensures { result.now ≡ take self.now.size self.now.bytes }
    {
        &self.bytes[..self.size]
    }

    // What is put stands behind what the line has.
    fn put(&mut self, text: &[u8])
        requires { self.old.size + length text.now ≤ 128 }
        ensures text { take self.new.size self.new.bytes ≡ take self.old.size self.old.bytes ++ text.now }
        ensures size { self.new.size ≡ self.old.size + length text.now }
    {
        put_text(&mut self.bytes, self.size, text);
        self.size += text.len();
    }

    // By itoa: std's `write!` promises its text where it answers Ok, and nowhere that it does so where there is room.
    fn put_decimal(&mut self, n: u64)
        requires { self.old.size + 20 ≤ 128 }
        ensures text { take self.new.size self.new.bytes ≡ take self.old.size self.old.bytes ++ decimal n }
        ensures size { self.new.size ≤ self.old.size + 20 }
    {
        self.put(Buffer::new().format(n).as_bytes());
    }

    fn put_field(&mut self, n: u64)
        requires { self.old.size + 21 ≤ 128 }
        ensures text { take self.new.size self.new.bytes ≡ take self.old.size self.old.bytes ++ ascii " " ++ decimal n }
        ensures size { self.new.size ≤ self.old.size + 21 }
    {
        self.put(b" ");
        self.put_decimal(n);
    }

    fn ended(mut self) -> Line
        requires { self.size + 1 ≤ 128 }
        ensures { take result.size result.bytes ≡ take self.size self.bytes ++ ascii "\n" }
    {
        self.put(b"\n");
        self
    }
}

// The line of an entry.
pub fn entry_line(e: Entry) -> Line
    ensures { take result.size result.bytes ≡ entry_line e }
{
    let mut line = Line::new();
    line.put_decimal(e.frame);
    line.put_field(e.id as u64);
    line.put_field(e.kind as u64);
    line.put_field(e.n);
    line.put_field(e.m as u64);
    line.put_field(e.location);
    line.ended()
}

// The line of an image that opens.
pub fn counts_line(frames: u64, names: u64, entries: u64) -> Line
    ensures { take result.size result.bytes ≡ counts_line frames names entries }
{
    let mut line = Line::new();
    line.put(b"frames ");
    line.put_decimal(frames);
    line.put(b" names ");
    line.put_decimal(names);
    line.put(b" entries ");
    line.put_decimal(entries);
    line.ended()
}

// The line of one that is refused.
pub fn refused_line(number: u64) -> Line
    ensures { take result.size result.bytes ≡ ascii "refused" ++ fields (number ∷ []) }
{
    let mut line = Line::new();
    line.put(b"refused");
    line.put_field(number);
    line.ended()
}
