// RawArray's types of elements, and ours by them.
ghost use Rattle.std.specs.Prelude.{◌≡◌, ◌<◌, MatchOption};
ghost use Rattle.gsd_rawarray.specs.File.{raw_type};
ghost use Rattle.gsd_rawarray.specs.Said.{kind_of};

use gsd_bytes::{
    CHARACTER, DOUBLE, FLOAT, INT8, INT16, INT32, INT64, UINT8, UINT16, UINT32, UINT64, size_of,
};

// Characters are unsigned numbers to RawArray.
#[derive(Clone, Copy, Debug, PartialEq, Eq)]
pub enum RawType {
    Signed = 1,
    Unsigned = 2,
    Float = 3,
}

// The number of RawArray's type of ours, 0 where it has none: so the definition of this name has it.
pub fn raw_type(kind: u8) -> u64
    ensures { result ≡ raw_type kind }
{
    match kind {
        UINT8 | UINT16 | UINT32 | UINT64 | CHARACTER => RawType::Unsigned as u64,
        INT8 | INT16 | INT32 | INT64 => RawType::Signed as u64,
        FLOAT | DOUBLE => RawType::Float as u64,
        _ => 0,
    }
}

// Our type by RawArray's type and width; none of them is a character.
pub fn kind_of(raw: u64, width: u64) -> Option<u8>
    ensures { MatchOption result (kind_of raw width ≡ 0) (λ k. (k ≡ kind_of raw width) × (0 < k)) }
{
    for kind in UINT8..CHARACTER {
        if raw_type(kind) == raw && size_of(kind) == width {
            return Some(kind);
        }
    }
    None
}
