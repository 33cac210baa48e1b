// The types that hold floats: of 32 bits and of 64. What is said of one in proofs is said of its value.
ghost use Rattle.std.specs.Prelude.{◌≡◌, ℕ, Float, false, not, T};
ghost use Rattle.std.specs.Float.Ieee.{of_bits, to_bits, is_nan};
ghost use Rattle.gsd_format.specs.Elements.{nan_element};
ghost use Rattle.gsd_columns.specs.Columns.{format_of, less};
ghost use Rattle.gsd_columns.specs.Types.{Said, single_said, double_said};

use gsd_bytes::Pattern;

pub trait Real: Copy {
    type Bits: Pattern;

    ghost value: { Self → Float };

    // Of a type whose rows are three values, are four rows joined before they meet the extremes so far?
    const ROWS_IN_FOURS: bool;

    // A NaN's bits cannot be asked for.
    fn of_pattern(bits: Self::Bits) -> Self
        requires { nan_element Self.Bits.kind (Self.Bits.bits bits) ≡ false }
        ensures { value result ≡ of_bits (format_of Self.Bits.kind) (Self.Bits.bits bits) };

    fn pattern(self) -> Self::Bits
        requires { T (not (is_nan (value self))) }
        ensures { Self.Bits.bits result ≡ to_bits (format_of Self.Bits.kind) (value self) };

    // Not by PartialOrd: that its order is `less`, by which the extremes are defined, each type would have to say all the same.
    fn is_less(self, other: Self) -> bool
        ensures { result ≡ less (value self) (value other) };

    ghost said: { Said Self.Bits.kind };
}

// The two differ in the type and in ROWS_IN_FOURS, and have a text each: no trait of std has `from_bits` and `to_bits` of both.
impl Real for f32 {
    type Bits = u32;

    ghost value = { λ x. x };

    const ROWS_IN_FOURS: bool = true;

    fn of_pattern(bits: u32) -> f32 {
        f32::from_bits(bits)
    }

    fn pattern(self) -> u32 {
        f32::to_bits(self)
    }

    fn is_less(self, other: f32) -> bool {
        self < other
    }

    ghost said = { single_said };
}

// Of three columns of doubles two are one comparison, row by row, and fours would break it up.
impl Real for f64 {
    type Bits = u64;

    ghost value = { λ x. x };

    const ROWS_IN_FOURS: bool = false;

    fn of_pattern(bits: u64) -> f64 {
        f64::from_bits(bits)
    }

    fn pattern(self) -> u64 {
        f64::to_bits(self)
    }

    fn is_less(self, other: f64) -> bool {
        self < other
    }

    ghost said = { double_said };
}
