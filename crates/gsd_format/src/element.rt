// An element of a chunk: what the calls that ask for one answer, and the number that it is.
ghost use Rattle.std.specs.Prelude.{◌≡◌};

use crate::Refusal;

// The number that an element is. A float comes with its bits: a NaN's own bits cannot be had from a float.
#[derive(Clone, Copy)]
pub enum Number {
    Unsigned(u64),
    Signed(i64),
    Single { value: f32, bits: u32 },
    Double { value: f64, bits: u64 },
}

// The element answer: a number or a refusal. Five cases and no `Result`: so `gsd_read::element` and `element_by` answer, and
// docs/DECISIONS.md has it ("Forms").
#[derive(Clone, Copy)]
pub enum Element {
    Unsigned(u64),
    Signed(i64),
    Single { value: f32, bits: u32 },
    Double { value: f64, bits: u64 },
    Refused(Refusal),
}

impl Element {
    ghost use Rattle.gsd_format.specs.Answers.{answer_of};

    // The same as a `Result`, which `?` takes.
    pub fn answer(self) -> Result<Number, Refusal>
        ensures { result ≡ answer_of self }
    {
        match self {
            Element::Unsigned(number) => Ok(Number::Unsigned(number)),
            Element::Signed(number) => Ok(Number::Signed(number)),
            Element::Single { value, bits } => Ok(Number::Single { value, bits }),
            Element::Double { value, bits } => Ok(Number::Double { value, bits }),
            Element::Refused(why) => Err(why),
        }
    }
}

impl From<Result<Number, Refusal>> for Element {
    ghost use Rattle.gsd_format.specs.Answers.{answer_of};

    ghost from_gives = { λ answer element. answer_of element ≡ answer };

    fn from(answer: Result<Number, Refusal>) -> Element {
        match answer {
            Ok(Number::Unsigned(number)) => Element::Unsigned(number),
            Ok(Number::Signed(number)) => Element::Signed(number),
            Ok(Number::Single { value, bits }) => Element::Single { value, bits },
            Ok(Number::Double { value, bits }) => Element::Double { value, bits },
            Err(why) => Element::Refused(why),
        }
    }
}
