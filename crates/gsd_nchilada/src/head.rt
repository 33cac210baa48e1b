// The head of a file, its first 28 bytes, and the time that stands in it.
ghost use Rattle.std.specs.Prelude.{◌≡◌, not, ◌++◌, ◌≤◌, ◌<◌, length, T};
ghost use Rattle.std.specs.Float.Ieee.{is_nan};
ghost use Rattle.gsd_format.specs.Bytes.{stored};
ghost use Rattle.gsd_xdr.specs.Xdr.{be_bytes};
ghost use Rattle.gsd_nchilada.specs.File.{time_of, head_of};
ghost use Rattle.gsd_nchilada.specs.Request.{finite};

use gsd_format::Entry;
use gsd_xdr::Number;

const MAGIC: u32 = 1062053;

// The time of a frame, whose number is a double as it is.
pub fn time_of(frame: u64, step: f64) -> f64
    requires { frame < 4294967296 }
    ensures { result ≡ time_of frame step }
{
    frame as f64 * step
}

// Neither infinite nor a NaN.
pub fn is_finite(x: f64) -> bool
    ensures { result ≡ finite x }
{
    x.is_finite()
}

// N, M and the type. The high and the low word of N are its eight bytes.
fn put_shape(file: &mut [u8], e: Entry)
    requires { 28 ≤ length file.old }
    ensures { file.new ≡ stored file.old 12 (be_bytes 8 e.n ++ be_bytes 4 e.m ++ be_bytes 4 e.kind) }
{
    e.n.put_be(file, 12);
    e.m.put_be(file, 20);
    (e.kind as u32).put_be(file, 24);
}

// The 28 bytes; a time that is a NaN has no bits.
pub fn put_head(file: &mut [u8], e: Entry, time: f64)
    requires inside { 28 ≤ length file.old }
    requires number { T (not (is_nan time)) }
    ensures { file.new ≡ stored file.old 0 (head_of e time) }
{
    MAGIC.put_be(file, 0);
    f64::to_bits(time).put_be(file, 4);
    put_shape(file, e);
}
