// A line's answer as text in fixed memory: a space before each number.
ghost use Rattle.std.specs.Prelude.{◌≤◌};

use std::fmt;
use std::fmt::Write;

// The first bytes, of so many; what has no room is left out.
#[derive(Clone, Copy)]
pub struct Text {
    bytes: [u8; 32768],
    size: usize,
    ghost within: { size ≤ 32768 },
}

impl Write for Text {
    fn write_str(&mut self, s: &str) -> fmt::Result {
        let room = &mut self.bytes[self.size..];
        if room.len() < s.len() {
            return Err(fmt::Error);
        }
        room[..s.len()].copy_from_slice(s.as_bytes());
        self.size += s.len();
        Ok(())
    }
}

impl Text {
    pub fn new() -> Text {
        Text {
            bytes: [0; 32768],
            size: 0,
        }
    }

    pub fn bytes(&self) -> &[u8] {
        &self.bytes[..self.size]
    }

    fn say(&mut self, number: u64) {
        let _ = write!(self, " {number}");
    }

    // A call's number, and values that are told whatever it is.
    pub fn say_all(&mut self, number: u64, values: &[u64]) {
        self.say(number);
        for value in values {
            self.say(*value);
        }
    }

    // A call's number, and values that are told where it is 0.
    pub fn say_good(&mut self, number: u64, values: &[u64]) {
        let told = if number == 0 { values } else { &[] };
        self.say_all(number, told);
    }

    // A call's number, and the words that a slice holds, each with its highest byte first.
    pub fn say_words(&mut self, number: u64, bytes: &[u8]) {
        self.say(number);
        for word in bytes.as_chunks::<4>().0 {
            self.say(u32::from_be_bytes(*word) as u64);
        }
    }
}
