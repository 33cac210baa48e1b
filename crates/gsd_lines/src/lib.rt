// A line of a table of cases, read byte by byte: its word, its numbers and its texts. Numbers are decimal and below 2^64. In a text
// a capital letter stands for the byte that is its place in the alphabet, and @ for a zero, so that every line is plain to read.
#![tactic(auto)]

pub mod words;

ghost use Rattle.std.specs.Prelude.{◌≤◌, length};

use words::{FORM_SIZE, Word, known};

// Where a text starts and ends.
#[derive(Clone, Copy, Debug, PartialEq, Eq)]
pub struct Span {
    pub start: usize,
    pub end: usize,
}

impl Span {
    // What of the text lies in the bytes.
    pub fn of(self, bytes: &[u8]) -> &[u8] {
        let to = self.end.min(bytes.len());
        let from = self.start.min(to);
        &bytes[from..to]
    }
}

// What the next byte belongs to: a number and its value so far, a text or an answer and where it starts, or none of them.
#[derive(Clone, Copy, Debug, PartialEq, Eq)]
enum Mode {
    Plain,
    Number(u64),
    Text(usize),
    Answer(usize),
}

// What a byte ends, a number or a text, or what it is by itself.
#[derive(Clone, Copy, Debug, PartialEq, Eq)]
enum Sign {
    Number(u64),
    Text(Span),
    Byte(u8),
}

impl Sign {
    // What it adds to the form.
    fn byte(self) -> u8 {
        match self {
            Sign::Number(_) => b'0',
            Sign::Text(_) => b'\'',
            Sign::Byte(c) => c,
        }
    }
}

// For what cannot be read.
const UNREADABLE: Sign = Sign::Byte(b'!');

// A text or an answer starts behind its sign. A byte 255 says no more than a space.
fn plain(c: u8, behind: usize) -> (Mode, Option<Sign>) {
    match c {
        b' ' | 255 => (Mode::Plain, None),
        b'\'' => (Mode::Text(behind), None),
        b'=' => (Mode::Answer(behind), Some(Sign::Byte(c))),
        b'0'..=b'9' => (Mode::Number((c - b'0') as u64), None),
        _ => (Mode::Plain, Some(Sign::Byte(c))),
    }
}

// Not by `parse`: a line is read byte by byte, and where a number starts is not kept.
fn with_digit(value: u64, digit: u8) -> Option<u64> {
    value.checked_mul(10)?.checked_add(digit as u64)
}

fn number(value: u64, c: u8) -> (Mode, Option<Sign>) {
    match c {
        b'0'..=b'9' => match with_digit(value, c - b'0') {
            Some(value) => (Mode::Number(value), None),
            None => (Mode::Plain, Some(UNREADABLE)),
        },
        b' ' => (Mode::Plain, Some(Sign::Number(value))),
        _ => (Mode::Plain, Some(UNREADABLE)),
    }
}

fn text(start: usize, c: u8, at: usize) -> (Mode, Option<Sign>) {
    match c {
        b'\'' => (Mode::Plain, Some(Sign::Text(Span { start, end: at }))),
        _ => (Mode::Text(start), None),
    }
}

// With the byte c, which stands at this place.
fn step(mode: Mode, c: u8, at: usize) -> (Mode, Option<Sign>) {
    match mode {
        Mode::Plain => plain(c, at.wrapping_add(1)),
        Mode::Number(value) => number(value, c),
        Mode::Text(start) => text(start, c, at),
        Mode::Answer(_) => (mode, None),
    }
}

// A line's last three numbers and last two texts, and the text of its answer, which the sign = tells.
#[derive(Clone, Copy, Debug, PartialEq, Eq)]
pub struct Line {
    pub word: Word,
    pub numbers: [u64; 3],
    pub texts: [Span; 2],
    pub answer: Span,
}

// What was read of a line so far; spaces follow its form.
#[derive(Clone, Copy)]
struct Reading {
    mode: Mode,
    form: [u8; FORM_SIZE],
    numbers: [u64; 3],
    texts: [Span; 2],
}

impl Reading {
    fn new() -> Reading {
        Reading {
            mode: Mode::Plain,
            form: [b' '; FORM_SIZE],
            numbers: [0; 3],
            texts: [Span { start: 0, end: 0 }; 2],
        }
    }

    fn sign(&mut self, sign: Sign) {
        if let Some(end) = self.form.iter().position(|c| *c == b' ') {
            self.form[end] = sign.byte();
        }
        match sign {
            Sign::Number(n) => self.numbers = [self.numbers[1], self.numbers[2], n],
            Sign::Text(text) => self.texts = [self.texts[1], text],
            Sign::Byte(_) => {}
        }
    }

    // With the byte c, which stands at this place.
    fn read(&mut self, c: u8, at: usize) {
        let (mode, sign) = step(self.mode, c, at);
        self.mode = mode;
        if let Some(sign) = sign {
            self.sign(sign);
        }
    }

    // The line that ends here, if its form is known. A line without an answer makes something, and nobody reads its span.
    fn line(self, end: usize) -> Option<Line> {
        let start = match self.mode {
            Mode::Answer(start) => start,
            _ => 0,
        };
        Some(Line {
            word: known(&self.form)?,
            numbers: self.numbers,
            texts: self.texts,
            answer: Span { start, end },
        })
    }
}

fn byte_of(c: u8) -> u8 {
    match c {
        b'@'..=b'Z' => c - b'@',
        _ => c,
    }
}

// The line from a place up to its newline, if its form is known; its letters become the bytes that they stand for.
pub fn read_line(table: &mut [u8], from: usize, to: usize) -> Option<Line>
    requires { to ≤ length table.old }
{
    let mut reading = Reading::new();
    for i in from..to {
        let c = table[i];
        table[i] = byte_of(c);
        reading.read(c, i);
    }
    reading.read(b' ', to);
    reading.line(to)
}

// Where the line from a place ends.
pub fn line_end(table: &[u8], from: usize, n: usize) -> usize
    requires ordered { from ≤ n }
    requires inside { n ≤ length table.now }
    ensures behind { from ≤ result }
    ensures bound { result ≤ n }
{
    match table[from..n].iter().position(|c| *c == b'\n') {
        Some(length) => from + length,
        None => n,
    }
}
