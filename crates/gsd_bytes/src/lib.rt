// Bytes of a slice: little-endian numbers read and stored, parts compared, zeros found and written, NaNs found, the magic, the types.
#![tactic(auto)]

ghost use Rattle.std.specs.Prelude.{◌≡◌, ◌+◌, ◌-◌, ◌*◌, ◌<◌, ◌≤◌, length, take};
ghost use Rattle.gsd_format.specs.Bytes.{le, le_bytes, part, same, zeros, stored};
ghost use Rattle.gsd_format.specs.Header.{magic, v10, aligned};
ghost use Rattle.gsd_format.specs.Types.{size_of, last_type, known};

mod floats;
mod scan;

pub use floats::{Pattern, any_nan};
pub use scan::{first_zero, has_zero};

// Numbers. What is read compiles to one load, and what is stored to one store.

pub const TWO_TO_32: u64 = 4294967296;

// The N bytes from `at` on.
fn array_at<const N: usize>(s: &[u8], at: usize) -> [u8; N]
    requires { at + N ≤ length s.now }
    ensures { result ≡ part s.now at N }
{
    <[u8; N]>::try_from(&s[at..at + N]).unwrap()
}

// The number of the two bytes from `at` on. Here and below a name for each width: std has no trait of `from_le_bytes`, and
// `number_at::<8>(s, at)` would say no more than `u64_at(s, at)`.
pub fn u16_at(s: &[u8], at: usize) -> u64
    requires { at + 2 ≤ length s.now }
    ensures answer { result ≡ le 2 s.now at }
    ensures bound { result < 65536 }
{
    u64::from(u16::from_le_bytes(array_at(s, at)))
}

// The number of the four bytes from `at` on.
pub fn u32_at(s: &[u8], at: usize) -> u64
    requires { at + 4 ≤ length s.now }
    ensures answer { result ≡ le 4 s.now at }
    ensures bound { result < 4294967296 }
{
    u64::from(u32::from_le_bytes(array_at(s, at)))
}

// The number of the eight bytes from `at` on.
pub fn u64_at(s: &[u8], at: usize) -> u64
    requires { at + 8 ≤ length s.now }
    ensures { result ≡ le 8 s.now at }
{
    u64::from_le_bytes(array_at(s, at))
}

// The four low bytes of w go into s from `at` on. As for reading, a name for each width.
pub fn put_half(s: &mut [u8], at: usize, w: u64)
    requires { at + 4 ≤ length s.old }
    ensures { s.new ≡ stored s.old at (le_bytes 4 w) }
{
    put_text(s, at, &w.to_le_bytes()[0..4]);
}

// The eight bytes of w go into s from `at` on.
pub fn put_word(s: &mut [u8], at: usize, w: u64)
    requires { at + 8 ≤ length s.old }
    ensures { s.new ≡ stored s.old at (le_bytes 8 w) }
{
    put_text(s, at, &w.to_le_bytes());
}

// Parts.

// Are the n bytes of a from ai those of b from bi?
pub fn same_part(a: &[u8], ai: usize, b: &[u8], bi: usize, n: usize) -> bool
    requires first { ai + n ≤ length a.now }
    requires second { bi + n ≤ length b.now }
    ensures { result ≡ same (part a.now ai n) (part b.now bi n) }
{
    &a[ai..ai + n] == &b[bi..bi + n]
}

// Zeros from `from` up to `to`.
pub fn fill_zero(s: &mut [u8], from: usize, to: usize)
    requires ordered { from ≤ to }
    requires inside { to ≤ length s.old }
    ensures { s.new ≡ stored s.old from (zeros (to - from)) }
{
    s[from..to].fill(0);
}

// The bytes of t go into s from `at` on. By hand: with `copy_from_slice` the archive asks for `memmove`, and the C interface says that
// it takes memcpy and memset alone (tests/archive).
pub fn put_text(s: &mut [u8], at: usize, t: &[u8])
    requires { at + length t.now ≤ length s.old }
    ensures { s.new ≡ stored s.old at t.now }
{
    for i in 0..t.len() {
        s[at + i] = t[i];
    }
}

// The n bytes of t from `from` on go into s from `at` on.
pub fn copy_part(s: &mut [u8], at: usize, t: &[u8], from: usize, n: usize)
    requires there { from + n ≤ length t.now }
    requires inside { at + n ≤ length s.old }
    ensures { s.new ≡ stored s.old at (part t.now from n) }
{
    put_text(s, at, &t[from..from + n]);
}

// The format's numbers: the bytes of the header, of a slot of the index and of a segment of the name list; the most names, the
// greatest number of a frame, and the bytes of the longest image; GSD 1.0, 2.0 and 2.1. Versions are no enum: an image's is any number,
// to the definition layout_of, and so is a reader's, whose words C lends.
pub const HEADER_SIZE: u64 = 256;

pub const SLOT_SIZE: u64 = 32;

pub const SEGMENT_SIZE: u64 = 64;

pub const MOST_NAMES: usize = 1024;

pub const GREATEST_FRAME: u64 = 4294967294;

pub const GREATEST_LENGTH: usize = 1073741824;

pub const VERSION_1_0: u64 = 0x00010000;

pub const VERSION_2_0: u64 = 0x00020000;

pub const VERSION_2_1: u64 = 0x00020001;

// Chunks and blocks that create or an append lays out start at multiples of this.
const ALIGNMENT: u64 = 64;

// The first place from n on at which one may start.
pub fn rounded(n: u64) -> u64
    requires { n < 18446744073709551552 }
    ensures { result ≡ aligned n }
{
    n.div_ceil(ALIGNMENT) * ALIGNMENT
}

// Is it 1.0, where a name has a segment of its own and entries stand in the order of writing?
pub fn is_10(version: u64) -> bool
    ensures { result ≡ v10 version }
{
    version == VERSION_1_0
}

// Places in the header, as specs/Header.antt of gsd_format has them, and the bytes of application and of schema.
pub const INDEX_PLACE: usize = 8;

pub const SLOTS_PLACE: usize = 16;

pub const NAMELIST_PLACE: usize = 24;

pub const SEGMENTS_PLACE: usize = 32;

pub const SCHEMA_VERSION_PLACE: usize = 40;

pub const VERSION_PLACE: usize = 44;

pub const APPLICATION_PLACE: usize = 48;

pub const SCHEMA_PLACE: usize = 112;

pub const RESERVED_PLACE: usize = 176;

pub const TEXT_SIZE: usize = 64;

pub const MAGIC: [u8; MAGIC_SIZE] = *b"\xdf\x65\xdf\x65\xdf\x65\xdf\x65";

const MAGIC_SIZE: usize = 8;

// Does s start with the magic?
pub fn has_magic(s: &[u8]) -> bool
    requires { 8 ≤ length s.now }
    ensures { result ≡ same (take 8 s.now) magic }
{
    array_at(s, 0) == MAGIC
}

// The magic goes into the first eight bytes of s.
pub fn put_magic(s: &mut [u8])
    requires { 8 ≤ length s.old }
    ensures { s.new ≡ stored s.old 0 magic }
{
    put_text(s, 0, &MAGIC);
}

// The types of elements, as gsd.h numbers them. They are no enum: an entry's kind is any byte, to C and to the definitions.
pub const UINT8: u8 = 1;

pub const UINT16: u8 = 2;

pub const UINT32: u8 = 3;

pub const UINT64: u8 = 4;

pub const INT8: u8 = 5;

pub const INT16: u8 = 6;

pub const INT32: u8 = 7;

pub const INT64: u8 = 8;

pub const FLOAT: u8 = 9;

pub const DOUBLE: u8 = 10;

pub const CHARACTER: u8 = 11;

// The bytes of one element of a type, 0 where no version has it: so the definition size_of has it, and so chunk_size of any entry.
pub fn size_of(kind: u8) -> u64
    ensures answer { result ≡ size_of kind }
    ensures bound { result ≤ 8 }
{
    match kind {
        UINT8 | INT8 | CHARACTER => 1,
        UINT16 | INT16 => 2,
        UINT32 | INT32 | FLOAT => 4,
        UINT64 | INT64 | DOUBLE => 8,
        _ => 0,
    }
}

// The last type of a version.
fn last_type(version: u64) -> u8
    ensures { result ≡ last_type version }
{
    if version == VERSION_2_1 {
        return CHARACTER;
    }
    DOUBLE
}

// Has the version this type?
pub fn known(version: u64, kind: u8) -> bool
    ensures { result ≡ known version kind }
{
    0 < kind && kind <= last_type(version)
}
