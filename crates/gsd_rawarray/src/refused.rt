// What a file is refused for, 70 to 76, and what a request to read one is refused for, 78 and 79 behind them.
ghost use Rattle.std.specs.Prelude.{◌≡◌, IfOk};
ghost use Rattle.gsd_format.specs.Answers.{refused};
ghost use Rattle.gsd_rawarray.specs.Requests.{raw_test, bad_name, read_test};
ghost use Rattle.gsd_rawarray.specs.Heads.{Said};

use crate::kinds::kind_of;
use crate::product::is_product;
use crate::words::{RAW, dimensions_in};
use gsd_bytes::{TWO_TO_32, has_zero, same_part, u64_at};
use gsd_format::Refusal;

const SHORTEST_FILE: usize = 48;

const LONGEST_NAME: usize = 255;

// Count and row of a sheet's table.
const TABLE_SIZE: usize = 20;

// What a file that can be read says: our type of its elements, N, M, where its data begin and how many bytes they are.
#[derive(Clone, Copy, Debug, PartialEq, Eq)]
pub struct Head {
    pub kind: u8,
    pub rows: u64,
    pub columns: u64,
    pub start: usize,
    pub size: usize,
}

// Its head, or why a file cannot be read.
fn head_of(file: &[u8]) -> Result<Head, Refusal>
    ensures number { refused result ≡ raw_test file.now }
    ensures head { IfOk result (Said file.now) }
{
    if file.len() < SHORTEST_FILE {
        return Err(Refusal::RawArrayShort);
    }
    let begins = same_part(file, 0, &RAW, 0, 8);
    let plain = u64_at(file, 8) == 0;
    let width = u64_at(file, 24);
    let size = u64_at(file, 32);
    if !begins {
        return Err(Refusal::RawArrayMagic);
    }
    if !plain {
        return Err(Refusal::RawArrayFlags);
    }
    let Some(kind) = kind_of(u64_at(file, 16), width) else {
        return Err(Refusal::RawArrayType);
    };
    let Some(d) = dimensions_in(file) else {
        return Err(Refusal::RawArrayDimensions);
    };
    let behind = (file.len() - d.start) as u64;
    let filled = is_product(size, d.rows, d.columns, width) & (size <= behind);
    if !filled {
        return Err(Refusal::RawArrayData);
    }
    if TWO_TO_32 <= d.columns {
        return Err(Refusal::RawArrayColumns);
    }
    Ok(Head {
        kind,
        rows: d.rows,
        columns: d.columns,
        start: d.start,
        size: size as usize,
    })
}

// A name that no sheet may have.
fn is_bad_name(name: &[u8]) -> bool
    ensures { result ≡ bad_name name.now }
{
    name.is_empty() || LONGEST_NAME < name.len() || has_zero(name, 0, name.len())
}

// The head of a file that can be read under a name into so many bytes, or why it cannot.
pub fn check_reading(file: &[u8], name: &[u8], room: usize) -> Result<Head, Refusal>
    ensures number { refused result ≡ read_test file.now name.now room }
    ensures head { IfOk result (Said file.now) }
{
    let head = head_of(file)?;
    if is_bad_name(name) {
        return Err(Refusal::RawArrayName);
    }
    let front = TABLE_SIZE + name.len();
    if room < front || room - front != head.size {
        return Err(Refusal::RawArraySheet);
    }
    Ok(head)
}
