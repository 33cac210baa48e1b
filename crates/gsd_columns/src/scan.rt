// The extremes of columns of floats or doubles: of one column, or of three that stand side by side, in one pass over the rows. Four
// values are joined before they meet the extremes so far: so each round waits once for those of the round before, and not four times.
ghost use Rattle.std.specs.Prelude.{◌≡◌, false, ◌+◌, ◌*◌, ◌≤◌, ◌<◌, length};
ghost use Rattle.gsd_format.specs.Elements.{any_nan};
ghost use Rattle.gsd_columns.specs.Columns.{column, less, more, kept};
ghost use Rattle.gsd_columns.specs.Scans.{nth, Extremes, Patterned, Joined, Rows, RowsPatterned, RowsJoined};

use crate::real::Real;
use gsd_bytes::Pattern;
use std::marker::PhantomData;

// The smallest and the largest value of a column.
#[derive(Clone, Copy)]
pub struct Ends<F> {
    pub smallest: F,
    pub largest: F,
}

// Of equal ones the first is kept; std's `min` and `max` promise either.
fn lesser<F: Real>(best: F, x: F) -> F
    ensures { F.value result ≡ kept less (F.value best) (F.value x) }
{
    if x.is_less(best) { x } else { best }
}

fn greater<F: Real>(best: F, x: F) -> F
    ensures { F.value result ≡ kept more (F.value best) (F.value x) }
{
    if best.is_less(x) { x } else { best }
}

impl<F: Real> Ends<F> {
    // Those of one value.
    fn of(x: F) -> Ends<F>
        ensures smallest { F.value result.smallest ≡ F.value x }
        ensures largest { F.value result.largest ≡ F.value x }
    {
        Ends {
            smallest: x,
            largest: x,
        }
    }

    // With those of later values.
    fn joined(self, later: Ends<F>) -> Ends<F>
        ensures { Joined (F.value self.smallest) (F.value self.largest) (F.value later.smallest) (F.value later.largest)
            (F.value result.smallest) (F.value result.largest) }
    {
        Ends {
            smallest: lesser(self.smallest, later.smallest),
            largest: greater(self.largest, later.largest),
        }
    }
}

// The extremes of three columns.
#[derive(Clone, Copy)]
pub struct Three<F> {
    pub x: Ends<F>,
    pub y: Ends<F>,
    pub z: Ends<F>,
}

impl<F: Real> Three<F> {
    // With those of later rows.
    fn joined(self, later: Three<F>) -> Three<F>
        ensures { RowsJoined F.value self later result }
    {
        Three {
            x: self.x.joined(later.x),
            y: self.y.joined(later.y),
            z: self.z.joined(later.z),
        }
    }
}

// Some values, one behind the other from a place on: they lie in s, and none is a NaN.
#[derive(Drop)]
pub struct Values<'a, F: Real> {
    pub s: &'a [u8],
    pub at: usize,
    pub n: usize,
    pub of: PhantomData<F>,
    pub ghost some: { 0 < n },
    pub ghost inside: { at + n * F.Bits.SIZE ≤ length s.now },
    pub ghost numbers: { any_nan F.Bits.kind s.now at n ≡ false },
}

impl<F: Real> Values<'_, F> {
    // The k-th.
    fn value(&self, k: usize) -> F
        requires { k < self.now.n }
        ensures { F.value result ≡ nth F.Bits.kind self.now.s.now self.now.at k }
    {
        F::of_pattern(F::Bits::at(self.s, self.at + k * F::Bits::SIZE))
    }

    // The extremes of four, so many values apart, the first the k-th.
    fn four(&self, k: usize, step: usize) -> Ends<F>
        requires { k + 3 * step < self.now.n }
        ensures { Extremes (λ j. nth F.Bits.kind self.now.s.now self.now.at (k + j * step)) 4 (F.value result.smallest) (F.value result.largest) }
    {
        let a = Ends::of(self.value(k));
        let b = Ends::of(self.value(k + step));
        let c = Ends::of(self.value(k + 2 * step));
        let d = Ends::of(self.value(k + 3 * step));
        a.joined(b).joined(c.joined(d))
    }

    // The extremes of the first and of so many fours behind it.
    fn first_fours(&self, fours: usize) -> Ends<F>
        requires { fours * 4 < self.now.n }
        ensures { Extremes (nth F.Bits.kind self.now.s.now self.now.at) (1 + fours * 4) (F.value result.smallest) (F.value result.largest) }
    {
        let mut e = Ends::of(self.value(0));
        for i in 0..fours {
            e = e.joined(self.four(1 + i * 4, 1));
        }
        e
    }

    // The extremes of all; those of the first `from` are e.
    fn with_rest(&self, from: usize, e: Ends<F>) -> Ends<F>
        requires some { 0 < from }
        requires within { from ≤ self.now.n }
        requires so_far { Extremes (nth F.Bits.kind self.now.s.now self.now.at) from (F.value e.smallest) (F.value e.largest) }
        ensures { Extremes (nth F.Bits.kind self.now.s.now self.now.at) self.now.n (F.value result.smallest) (F.value result.largest) }
    {
        let mut e = e;
        for i in from..self.n {
            e = e.joined(Ends::of(self.value(i)));
        }
        e
    }

    // The extremes of all, as one column.
    pub fn one_column(&self) -> Ends<F>
        ensures extremes { Extremes (column F.Bits.kind self.now.s.now self.now.at 1 0) self.now.n (F.value result.smallest) (F.value result.largest) }
        ensures numbers { Patterned (F.value result.smallest) (F.value result.largest) }
    {
        let fours = (self.n - 1) / 4;
        self.with_rest(1 + fours * 4, self.first_fours(fours))
    }

    // Of three columns, the extremes of row i.
    fn row(&self, i: usize) -> Three<F>
        requires { (i + 1) * 3 ≤ self.now.n }
        ensures { Rows F.value (λ c j. column F.Bits.kind self.now.s.now self.now.at 3 c (i + j)) 1 result }
    {
        Three {
            x: Ends::of(self.value(i * 3)),
            y: Ends::of(self.value(i * 3 + 1)),
            z: Ends::of(self.value(i * 3 + 2)),
        }
    }

    // Those of four rows, the first row i.
    fn four_rows(&self, i: usize) -> Three<F>
        requires { (i + 4) * 3 ≤ self.now.n }
        ensures { Rows F.value (λ c j. column F.Bits.kind self.now.s.now self.now.at 3 c (i + j)) 4 result }
    {
        Three {
            x: self.four(i * 3, 3),
            y: self.four(i * 3 + 1, 3),
            z: self.four(i * 3 + 2, 3),
        }
    }

    // Those of the first row and of so many fours of rows behind it. A loop of its own, as with_rows: one for both would take how a row is
    // read, how it is joined and what is said of it from a trait, to save two loops of one line.
    fn first_rows(&self, fours: usize) -> Three<F>
        requires { (1 + fours * 4) * 3 ≤ self.now.n }
        ensures { Rows F.value (column F.Bits.kind self.now.s.now self.now.at 3) (1 + fours * 4) result }
    {
        let mut t = self.row(0);
        for i in 0..fours {
            t = t.joined(self.four_rows(1 + i * 4));
        }
        t
    }

    // Those of so many rows; those of the first `from` are t.
    fn with_rows(&self, from: usize, rows: usize, t: Three<F>) -> Three<F>
        requires some { 0 < from }
        requires within { from ≤ rows }
        requires inside { rows * 3 ≤ self.now.n }
        requires so_far { Rows F.value (column F.Bits.kind self.now.s.now self.now.at 3) from t }
        ensures { Rows F.value (column F.Bits.kind self.now.s.now self.now.at 3) rows result }
    {
        let mut t = t;
        for i in from..rows {
            t = t.joined(self.row(i));
        }
        t
    }

    // The extremes of all, as three columns side by side.
    pub fn three_columns(&self, rows: usize) -> Three<F>
        requires { rows * 3 ≡ self.now.n }
        ensures extremes { Rows F.value (column F.Bits.kind self.now.s.now self.now.at 3) rows result }
        ensures numbers { RowsPatterned F.value result }
    {
        let fours = row_fours::<F>(rows);
        self.with_rows(1 + fours * 4, rows, self.first_rows(fours))
    }
}

// How many fours of rows are joined behind the first of n.
fn row_fours<F: Real>(n: usize) -> usize
    requires { 0 < n }
    ensures { 1 + result * 4 ≤ n }
{
    if F::ROWS_IN_FOURS { (n - 1) / 4 } else { 0 }
}
