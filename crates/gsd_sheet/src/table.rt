// The sheet's table, and what the sixteen bytes of a row of it say.
ghost use Rattle.std.specs.Prelude.{◌≡◌, ◌+◌, ◌*◌, ◌≤◌, ◌<◌, min, length, ltb};
ghost use Rattle.gsd_format.specs.Types.{size_of};
ghost use Rattle.gsd_stores.specs.Sheet.{table_start, row_size, row_n, row_m, row_kind, name_size, body_size, bad_row, bad_table};
ghost use Rattle.gsd_stores.specs.Sheet.{row_count, table_end, row_at, most_rows};

use gsd_bytes::{known, size_of, u16_at, u32_at, u64_at};

// The table begins behind the count of rows.
pub(crate) const TABLE_START: usize = 4;

pub(crate) const ROW_SIZE: usize = 16;

// Row i of the table, which lies in the sheet.
#[derive(Clone, Copy)]
pub struct Row<'a> {
    pub sheet: &'a [u8],
    pub i: usize,
    pub ghost inside: { row_at i + row_size ≤ length sheet.now },
}

impl Row<'_> {
    fn at(&self) -> usize
        ensures { result ≡ row_at self.now.i }
    {
        TABLE_START + ROW_SIZE * self.i
    }

    pub fn n(&self) -> u64
        ensures { result ≡ row_n self.now.sheet.now (row_at self.now.i) }
    {
        u64_at(self.sheet, self.at())
    }

    pub fn m(&self) -> u64
        ensures answer { result ≡ row_m self.now.sheet.now (row_at self.now.i) }
        ensures bound { result < 4294967296 }
    {
        u32_at(self.sheet, self.at() + 8)
    }

    pub fn kind(&self) -> u8
        ensures { result ≡ row_kind self.now.sheet.now (row_at self.now.i) }
    {
        self.sheet[self.at() + 12]
    }

    pub(crate) fn name_size(&self) -> usize
        ensures answer { result ≡ name_size self.now.sheet.now (row_at self.now.i) }
        ensures bound { result < 256 }
    {
        usize::from(self.sheet[self.at() + 13])
    }

    // 24, for an image of this version.
    pub(crate) fn is_bad(&self, version: u64) -> bool
        ensures { result ≡ bad_row version self.now.sheet.now (row_at self.now.i) }
    {
        if !known(version, self.kind()) {
            return true;
        }
        if self.name_size() == 0 {
            return true;
        }
        u16_at(self.sheet, self.at() + 14) != 0
    }

    // The bytes of M elements.
    fn size(&self) -> u64
        ensures answer { result ≡ row_m self.now.sheet.now (row_at self.now.i) * size_of (row_kind self.now.sheet.now (row_at self.now.i)) }
        ensures bound { result < 34359738368 }
    {
        self.m() * size_of(self.kind())
    }

    // Where the data end if they begin at `body`; any place behind the sheet's end is sheet.len() + 1. No Option: bodies_end, which 25 is
    // defined by, is a place whether it lies in the sheet or not.
    pub(crate) fn body_end(&self, body: usize) -> usize
        ensures { result ≡ min (body + body_size self.now.sheet.now (row_at self.now.i)) (length self.now.sheet.now + 1) }
    {
        let len = self.sheet.len();
        if len < body {
            return len + 1;
        }
        let n = self.n();
        let each = self.size();
        if exceeds(n, each, (len - body) as u64) {
            return len + 1;
        }
        body + (n * each) as usize
    }
}

// A table that lies in the sheet, with no more rows than a sheet may have.
#[derive(Clone, Copy)]
pub(crate) struct Table<'a> {
    pub sheet: &'a [u8],
    pub count: usize,
    ghost counted: { count ≡ row_count sheet.now },
    ghost few: { count ≤ most_rows },
    ghost inside: { table_end sheet.now ≤ length sheet.now },
}

impl<'a> Table<'a> {
    pub fn row(&self, i: usize) -> Row<'a>
        requires { i < self.now.count }
        ensures sheet { result.sheet.now ≡ self.now.sheet.now }
        ensures row { result.i ≡ i }
    {
        Row {
            sheet: self.sheet,
            i,
        }
    }

    // 24: is a row bad for an image of this version?
    pub fn is_bad(&self, version: u64) -> bool
        ensures { result ≡ bad_table version self.now.sheet.now table_start self.now.count }
    {
        (0..self.count).any(|i| self.row(i).is_bad(version))
    }
}

// Is n * each more than room? Only a product that could wrap asks for a division.
fn exceeds(n: u64, each: u64, room: u64) -> bool
    requires { each < 34359738368 }
    ensures { result ≡ ltb room (n * each) }
{
    if n < 268435456 {
        return room < n * each;
    }
    if each == 0 {
        return false;
    }
    room / each < n
}
