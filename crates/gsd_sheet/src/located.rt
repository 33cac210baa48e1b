// The rows of a sheet, by the places that the plan keeps of their names and data: tests 26, 27 and 30.
ghost use Rattle.std.specs.Prelude.{◌≡◌, ◌<◌, length, get_or};
ghost use Rattle.gsd_format.specs.Bytes.{same, zero_in};
ghost use Rattle.gsd_format.specs.Opening.{twins};
ghost use Rattle.gsd_format.specs.Answers.{refused};
ghost use Rattle.gsd_stores.specs.Sheet.{row_count, rows_of, any_zero, nan_row, any_nan_row};
ghost use Rattle.gsd_stores.specs.Demand3.{no_row};
ghost use Rattle.gsd_sheet.specs.Rows.{rows_test, Located, sheet_names, name_of, repeats};

use crate::table::Row;
use crate::{DATA_FROM, NAME_FROM, PLAN_WORDS};
use gsd_bytes::{DOUBLE, FLOAT, any_nan, has_zero, same_part};
use gsd_format::Refusal;

// Each of the rows lies in the sheet, where the plan says.
#[derive(Clone, Copy)]
pub(crate) struct Rows<'a> {
    pub sheet: &'a [u8],
    pub plan: &'a [u64; PLAN_WORDS],
    pub count: usize,
    ghost located: { Located sheet.now plan.now },
    ghost counted: { count ≡ row_count sheet.now },
}

impl Rows<'_> {
    // Is there a zero byte in row i's name?
    fn zero_name(&self, i: usize) -> bool
        requires { i < self.now.count }
        ensures { result ≡ zero_in (name_of self.now.sheet.now i) 0 (length (name_of self.now.sheet.now i)) }
    {
        has_zero(
            self.sheet,
            self.plan[NAME_FROM + i] as usize,
            self.plan[DATA_FROM + i] as usize,
        )
    }

    // 26: is there a zero byte in one of the names?
    fn zero_named(&self) -> bool
        ensures { result ≡ any_zero (sheet_names self.now.sheet.now) }
    {
        (0..self.count).any(|i| self.zero_name(i))
    }

    // Have rows i and j the same name?
    fn same_name(&self, i: usize, j: usize) -> bool
        requires first { i < self.now.count }
        requires second { j < self.now.count }
        ensures { result ≡ same (name_of self.now.sheet.now i) (name_of self.now.sheet.now j) }
    {
        let a = self.plan[NAME_FROM + i] as usize;
        let b = self.plan[NAME_FROM + j] as usize;
        let n = self.plan[DATA_FROM + i] as usize - a;
        if self.plan[DATA_FROM + j] as usize - b != n {
            return false;
        }
        same_part(self.sheet, a, self.sheet, b, n)
    }

    // Has a row before row i the same name?
    fn repeated(&self, i: usize) -> bool
        requires { i < self.now.count }
        ensures { result ≡ repeats (sheet_names self.now.sheet.now) i }
    {
        (0..i).any(|j| self.same_name(j, i))
    }

    // 27: have two rows the same name?
    fn twin_named(&self) -> bool
        ensures { result ≡ twins (sheet_names self.now.sheet.now) }
    {
        (0..self.count).any(|i| self.repeated(i))
    }

    // Does row i hold a NaN? Floats and doubles can.
    fn nan_row(&self, i: usize) -> bool
        requires { i < self.now.count }
        ensures { result ≡ nan_row (get_or (rows_of self.now.sheet.now) i no_row) }
    {
        let sheet = self.sheet;
        let at = self.plan[DATA_FROM + i] as usize;
        let size = self.plan[NAME_FROM + (i + 1)] as usize - at;
        let kind = Row { sheet, i }.kind();
        if kind == FLOAT {
            return any_nan::<u32>(sheet, at, size / 4);
        }
        if kind == DOUBLE {
            return any_nan::<u64>(sheet, at, size / 8);
        }
        false
    }

    // 30: does one of the rows?
    fn any_nan_row(&self) -> bool
        ensures { result ≡ any_nan_row (rows_of self.now.sheet.now) }
    {
        (0..self.count).any(|i| self.nan_row(i))
    }

    // 26, 27 and 30.
    pub fn check(&self) -> Result<(), Refusal>
        ensures { refused result ≡ rows_test self.now.sheet.now }
    {
        if self.zero_named() {
            return Err(Refusal::ZeroInName);
        }
        if self.twin_named() {
            return Err(Refusal::NameTwice);
        }
        if self.any_nan_row() {
            return Err(Refusal::NanInSheet);
        }
        Ok(())
    }
}
