// Floats and doubles that are not numbers, by their patterns: of any bits, and among the elements of a stretch.
ghost use Rattle.std.specs.Prelude.{◌≡◌, ℕ, false, ◌||◌, ◌+◌, ◌*◌, ◌<◌, ◌≤◌, length, nat_lt};
ghost use Rattle.gsd_format.specs.Bytes.{le};
ghost use Rattle.gsd_format.specs.Types.{size_of};
ghost use Rattle.gsd_format.specs.Elements.{nan_element, any_nan};
ghost use Rattle.gsd_bytes.specs.Patterns.{single_size, double_size, single_some, double_some};

use crate::{u32_at, u64_at};
use std::num::{wrapping_add_u32, wrapping_add_u64};

// The pattern of a float or of a double: its bits.
pub trait Pattern: Copy {
    // The type that holds them, and its size.
    ghost kind: { ℕ };

    ghost SIZE: { ℕ };

    const SIZE: usize;

    ghost bits: { Self → ℕ };

    // The greatest pattern without a sign.
    ghost unsigned: { ℕ };

    // The pattern at a place.
    fn at(s: &[u8], at: usize) -> Self
        requires { at + SIZE ≤ length s.now }
        ensures { bits result ≡ le SIZE s.now at };

    // Is it a NaN's? But for the sign it is then above infinity's.
    fn is_nan(self) -> bool
        ensures { result ≡ nan_element kind (bits self) };

    // No bit is set.
    fn zero() -> Self
        ensures { nat_lt unsigned (bits result) ≡ false };

    // The sign is set of the answer where it is of self, or where next is a NaN's: from there it is so little to the next sign that a sum
    // has another.
    fn or_nan(self, next: Self) -> Self
        ensures { nat_lt unsigned (bits result) ≡ (nat_lt unsigned (bits self) || nan_element kind (bits next)) };

    fn is_signed(self) -> bool
        ensures { result ≡ nat_lt unsigned (bits self) };

    ghost sized: { size_of kind ≡ SIZE };

    ghost some: { 0 < SIZE };
}

// The two differ in constants alone, and have a text each: no trait of std has the sums and the bits of both types.
impl Pattern for u32 {
    ghost kind = { 9 };

    ghost SIZE = { 4 };

    const SIZE: usize = 4;

    ghost bits = { λ p. p };

    ghost unsigned = { 0x7fffffff };

    ghost sized = { single_size };

    ghost some = { single_some };

    fn at(s: &[u8], at: usize) -> u32 {
        u32_at(s, at) as u32
    }

    fn is_nan(self) -> bool {
        0x7f80_0000 < self % 0x8000_0000
    }

    fn zero() -> u32 {
        0
    }

    fn or_nan(self, next: u32) -> u32 {
        self | (wrapping_add_u32(next, 0x7f_ffff) ^ next)
    }

    fn is_signed(self) -> bool {
        0x7fff_ffff < self
    }
}

impl Pattern for u64 {
    ghost kind = { 10 };

    ghost SIZE = { 8 };

    const SIZE: usize = 8;

    ghost bits = { λ p. p };

    ghost unsigned = { 0x7fffffffffffffff };

    ghost sized = { double_size };

    ghost some = { double_some };

    fn at(s: &[u8], at: usize) -> u64 {
        u64_at(s, at)
    }

    fn is_nan(self) -> bool {
        0x7ff0_0000_0000_0000 < self % 0x8000_0000_0000_0000
    }

    fn zero() -> u64 {
        0
    }

    fn or_nan(self, next: u64) -> u64 {
        self | (wrapping_add_u64(next, 0xf_ffff_ffff_ffff) ^ next)
    }

    fn is_signed(self) -> bool {
        0x7fff_ffff_ffff_ffff < self
    }
}

// Is one of the n floats or doubles from `at` on a NaN? All are looked at, also behind a NaN, and the sign is asked for once, at the end:
// so the compiler takes four at once, by a sum and three operations on bits.
pub fn any_nan<P: Pattern>(s: &[u8], at: usize, n: usize) -> bool
    requires { at + n * P.SIZE ≤ length s.now }
    ensures { result ≡ any_nan P.kind s.now at n }
{
    let mut met = P::zero();
    for i in 0..n {
        met = met.or_nan(P::at(s, at + i * P::SIZE));
    }
    met.is_signed()
}
