// Leaf code of the C interface: an answer's values go to a caller's out array, and nothing of a refusal. The number is
// answered.
#![tactic(auto)]

ghost use Rattle.std.specs.Prelude.{◌≡◌, ℕ, List, [], ◌∷◌};
ghost use Rattle.gsd_format.specs.Answers.{number_of, numbered, refused, counts_values, entry_values, part_values, number_values, reader_words};
ghost use Rattle.gsd_out.specs.Out.{answer_out};

use gsd_format::{Counts, Entry, Number, Part, Reader, Refusal};

// What a call of the C interface hands out as N words.
pub trait Words<const N: usize>: Drop {
    ghost values: { Self → List ℕ };

    fn words(self) -> [u64; N]
        ensures { result ≡ values self };
}

// Frames, names, entries.
impl Words<3> for Counts {
    ghost values = { counts_values };

    fn words(self) -> [u64; 3] {
        [self.frames, self.names, self.entries]
    }
}

// The seven numbers of an entry.
impl Words<7> for Entry {
    ghost values = { entry_values };

    fn words(self) -> [u64; 7] {
        [
            self.frame,
            self.n,
            self.location,
            self.m as u64,
            self.id as u64,
            self.kind as u64,
            self.flags as u64,
        ]
    }
}

// Start and length.
impl Words<2> for Part {
    ghost values = { part_values };

    fn words(self) -> [u64; 2] {
        [self.start as u64, self.size as u64]
    }
}

// The kind and the bits.
impl Words<2> for Number {
    ghost values = { number_values };

    fn words(self) -> [u64; 2] {
        match self {
            Number::Unsigned(number) => [1, number],
            Number::Signed(number) => [2, number.cast_unsigned()],
            Number::Single { value: _, bits } => [3, bits as u64],
            Number::Double { value: _, bits } => [4, bits],
        }
    }
}

// The words of a reader, the last one spare.
impl Words<8> for Reader {
    ghost values = { reader_words };

    fn words(self) -> [u64; 8] {
        [
            self.frames,
            self.names,
            self.entries,
            self.index,
            self.namelist,
            self.size,
            self.version,
            0,
        ]
    }
}

// A name's id.
impl Words<1> for u64 {
    ghost values = { λ id. id ∷ [] };

    fn words(self) -> [u64; 1] {
        [self]
    }
}

// The number alone.
pub fn number_of<T: Drop>(answer: Result<T, Refusal>) -> u64
    ensures { result ≡ refused answer }
{
    match answer {
        Ok(_) => 0,
        Err(refusal) => refusal.number(),
    }
}

// The number, and where it is 0 the values.
pub fn put<T: Words<N>, const N: usize>(answer: Result<T, Refusal>, out: &mut [u64; N]) -> u64
    ensures number { result ≡ number_of (numbered answer) }
    ensures out { out.new ≡ answer_out T.values (numbered answer) out.old }
{
    match answer {
        Ok(value) => {
            *out = value.words();
            0
        }
        Err(why) => why.number(),
    }
}
