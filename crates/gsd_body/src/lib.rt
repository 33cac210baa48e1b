// What stands behind the head of an NChilada file, of floats or doubles: the extremes, all smallest before all largest, and the data.
// It is leaf code: its functions have a `requires`.
#![tactic(auto)]

ghost use Rattle.std.specs.Prelude.{◌≡◌, true, false, not, ◌++◌, ◌+◌, ◌*◌, ◌≤◌, ◌<◌, length, T};
ghost use Rattle.std.specs.Float.Ieee.{to_bits, is_nan};
ghost use Rattle.gsd_format.specs.Bytes.{stored};
ghost use Rattle.gsd_format.specs.Elements.{any_nan};
ghost use Rattle.gsd_columns.specs.Columns.{format_of};
ghost use Rattle.gsd_xdr.specs.Xdr.{be_bytes};
ghost use Rattle.gsd_body.specs.Body.{one_or_three, body_of};

use gsd_bytes::Pattern;
use gsd_columns::{Real, Three, Values};
use gsd_xdr::{Number, put_all};
use std::marker::PhantomData;

const HEAD_SIZE: usize = 28;

fn put_value<F: Real>(file: &mut [u8], at: usize, x: F)
where
    F::Bits: Number,
    requires inside { at + F.Bits.SIZE ≤ length file.old }
    requires number { T (not (is_nan (F.value x))) }
    ensures { file.new ≡ stored file.old at (be_bytes F.Bits.SIZE (to_bits (format_of F.Bits.kind) (F.value x))) }
{
    x.pattern().put_be(file, at);
}

// Three in a row. By name they have a clause each; of an array the clauses would speak of places.
fn put_three<F: Real>(file: &mut [u8], at: usize, x: F, y: F, z: F)
where
    F::Bits: Number,
    requires inside { at + 3 * F.Bits.SIZE ≤ length file.old }
    requires x { T (not (is_nan (F.value x))) }
    requires y { T (not (is_nan (F.value y))) }
    requires z { T (not (is_nan (F.value z))) }
    ensures { file.new ≡ stored file.old at
        (be_bytes F.Bits.SIZE (to_bits (format_of F.Bits.kind) (F.value x))
        ++ be_bytes F.Bits.SIZE (to_bits (format_of F.Bits.kind) (F.value y))
        ++ be_bytes F.Bits.SIZE (to_bits (format_of F.Bits.kind) (F.value z))) }
{
    let size = F::Bits::SIZE;
    put_value(file, at, x);
    put_value(file, at + size, y);
    put_value(file, at + 2 * size, z);
}

// One column.
fn put_column<F: Real>(values: &Values<'_, F>, file: &mut [u8])
where
    F::Bits: Number,
    requires { 28 + (2 + values.now.n) * F.Bits.SIZE ≤ length file.old }
    ensures { file.new ≡ stored file.old 28 (body_of F.Bits.kind values.now.s.now values.now.at 1 values.now.n) }
{
    let size = F::Bits::SIZE;
    let e = values.one_column();
    put_value(file, HEAD_SIZE, e.smallest);
    put_value(file, HEAD_SIZE + size, e.largest);
    put_all::<F::Bits>(values.s, values.at, values.n, file, HEAD_SIZE + 2 * size);
}

// Three columns of so many rows.
fn put_columns<F: Real>(values: &Values<'_, F>, rows: usize, file: &mut [u8])
where
    F::Bits: Number,
    requires rows { rows * 3 ≡ values.now.n }
    requires to { 28 + (2 + rows) * 3 * F.Bits.SIZE ≤ length file.old }
    ensures { file.new ≡ stored file.old 28 (body_of F.Bits.kind values.now.s.now values.now.at 3 rows) }
{
    let size = F::Bits::SIZE;
    let Three { x, y, z } = values.three_columns(rows);
    put_three(file, HEAD_SIZE, x.smallest, y.smallest, z.smallest);
    put_three(file, HEAD_SIZE + 3 * size, x.largest, y.largest, z.largest);
    put_all::<F::Bits>(values.s, values.at, values.n, file, HEAD_SIZE + 6 * size);
}

// The columns of a chunk, one or three.
pub fn put_body<F: Real>(image: &[u8], at: usize, n: usize, m: u32, file: &mut [u8])
where
    F::Bits: Number,
    requires some { 0 < n }
    requires columns { one_or_three m ≡ true }
    requires from { at + n * m * F.Bits.SIZE ≤ length image.now }
    requires numbers { any_nan F.Bits.kind image.now at (n * m) ≡ false }
    requires to { 28 + (2 + n) * m * F.Bits.SIZE ≤ length file.old }
    ensures { file.new ≡ stored file.old 28 (body_of F.Bits.kind image.now at m n) }
{
    let values = Values::<F> {
        s: image,
        at,
        n: n * m as usize,
        of: PhantomData,
    };
    if m == 1 {
        put_column(&values, file);
        return;
    }
    put_columns(&values, n, file);
}
