// Elements by their type: the number of a pattern of bits, and the bits of an element in the image. It is leaf code: its
// functions have a `requires`.
#![tactic(auto)]

ghost use Rattle.std.specs.Prelude.{◌≡◌, ◌+◌, ◌^◌, ◌≤◌, ◌<◌, length};
ghost use Rattle.gsd_format.specs.Bytes.{le};
ghost use Rattle.gsd_format.specs.Types.{size_of};
ghost use Rattle.gsd_format.specs.Elements.{element_of, element_in};
ghost use Rattle.gsd_format.specs.Answers.{numbered};
ghost use Rattle.gsd_elements.specs.Held.{Held};

use gsd_bytes::{DOUBLE, FLOAT, INT8, INT16, INT32, INT64, size_of, u16_at, u32_at, u64_at};
use gsd_format::{Entry, Number, Refusal};
use std::num::{f32_from_bits_with_nan, f64_from_bits_with_nan};

// The element of a type with these bits.
fn element_of(kind: u8, bits: u64) -> Number
    requires low { 0 < kind }
    requires high { kind ≤ 11 }
    requires bits { bits < 256 ^ size_of kind }
    ensures answer { result ≡ element_of kind bits }
{
    match kind {
        INT8 => Number::Signed(i64::from((bits as u8).cast_signed())),
        INT16 => Number::Signed(i64::from((bits as u16).cast_signed())),
        INT32 => Number::Signed(i64::from((bits as u32).cast_signed())),
        INT64 => Number::Signed(bits.cast_signed()),
        FLOAT => {
            let pattern = bits as u32;
            let value = f32_from_bits_with_nan(pattern);
            Number::Single {
                value,
                bits: pattern,
            }
        }
        DOUBLE => {
            let value = f64_from_bits_with_nan(bits);
            Number::Double { value, bits }
        }
        // the unsigned types and a character
        _ => Number::Unsigned(bits),
    }
}

// As many bytes as the type has.
fn bits_at(image: &[u8], at: usize, kind: u8) -> u64
    requires sized { 0 < size_of kind }
    requires inside { at + size_of kind ≤ length image.now }
    ensures answer { result ≡ le (size_of kind) image.now at }
    ensures bound { result < 256 ^ size_of kind }
{
    match size_of(kind) {
        1 => u64::from(image[at]),
        2 => u16_at(image, at),
        4 => u32_at(image, at),
        _ => u64_at(image, at),
    }
}

// A chunk that lies in an image, by its entry.
#[derive(Clone, Copy)]
pub struct Chunk<'a> {
    pub image: &'a [u8],
    pub entry: Entry,
    pub ghost held: { Held image.now entry },
}

impl Chunk<'_> {
    // The k-th element, from 0, with its exact bits, or 43 where there is none.
    pub fn element(&self, k: u64) -> Result<Number, Refusal>
        ensures answer { numbered result ≡ element_in self.now.image.now self.now.entry k }
    {
        let e = self.entry;
        if e.n * e.m as u64 <= k {
            return Err(Refusal::NoElement);
        }
        let at = e.location + k * size_of(e.kind);
        Ok(element_of(e.kind, bits_at(self.image, at as usize, e.kind)))
    }
}
