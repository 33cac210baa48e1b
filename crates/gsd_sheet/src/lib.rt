// The append sheet: its tests, numbers 22 to 27 and 30, and where the name and the data of each row lie in it.
#![tactic(auto)]

mod located;
mod table;

ghost use Rattle.std.specs.Prelude.{◌≡◌, ◌≤◌, length, IfOk, OnOk};
ghost use Rattle.gsd_format.specs.Answers.{refused};
ghost use Rattle.gsd_stores.specs.Sheet.{row_count, sheet_test};
ghost use Rattle.gsd_sheet.specs.Rows.{table_test, end_test, Located};

use gsd_bytes::u32_at;
use gsd_format::Refusal;
use located::Rows;
pub use table::Row;
use table::{ROW_SIZE, TABLE_START, Table};

const MOST_ROWS: usize = 64;

// A plan is one lent array of PLAN_WORDS numbers. It is words and not a struct, since a state's words hold it (gsd_states::state_of)
// and a state goes through the C interface. It begins with columns, lists of numbers for up to 64 rows; each constant is where one
// begins. First: where row i's name and its data begin in the sheet.
pub const NAME_FROM: usize = 0;

pub const DATA_FROM: usize = 65;

// Id and row of the new entry in a slot, as one number.
pub const SLOT_PAIR: usize = 129;

// The row of a new name.
pub const NEW_ROW: usize = 193;

// Where a row's data and a new name go in the image.
pub const DATA_TO: usize = 257;

pub const NAME_TO: usize = 321;

pub const PLAN_WORDS: usize = 399;

// How many rows the sheet says it has.
pub fn row_count(sheet: &[u8]) -> usize
    requires { 4 ≤ length sheet.now }
    ensures { result ≡ row_count sheet.now }
{
    u32_at(sheet, 0) as usize
}

// 22 to 24, and where the sheet has none of them its table.
fn table_of(version: u64, sheet: &[u8]) -> Result<Table<'_>, Refusal>
    ensures answer { refused result ≡ table_test version sheet.now }
    ensures table { IfOk result (λ t. t.sheet.now ≡ sheet.now) }
{
    if sheet.len() < 4 {
        return Err(Refusal::RowCount);
    }
    let count = row_count(sheet);
    if count == 0 {
        return Err(Refusal::RowCount);
    }
    if MOST_ROWS < count {
        return Err(Refusal::RowCount);
    }
    if sheet.len() < TABLE_START + ROW_SIZE * count {
        return Err(Refusal::ShortTable);
    }
    let table = Table { sheet, count };
    if table.is_bad(version) {
        return Err(Refusal::BadRow);
    }
    Ok(table)
}

// 25: the rows one behind the other, and the sheet's end behind the last.
fn place_rows(table: &Table<'_>, plan: &mut [u64; PLAN_WORDS]) -> Result<(), Refusal>
    ensures answer { refused result ≡ end_test table.now.sheet.now }
    ensures rows { OnOk result (Located table.now.sheet.now plan.new) }
{
    let len = table.sheet.len();
    let mut at = TABLE_START + ROW_SIZE * table.count;
    for i in 0..table.count {
        let row = table.row(i);
        let body = at + row.name_size();
        let end = row.body_end(body);
        if len < end {
            return Err(Refusal::SheetLength);
        }
        plan[NAME_FROM + i] = at as u64;
        plan[DATA_FROM + i] = body as u64;
        at = end;
    }
    if at != len {
        return Err(Refusal::SheetLength);
    }
    plan[NAME_FROM + table.count] = at as u64;
    Ok(())
}

// 22 to 27 and 30 for an image of this version, and where it has none of them the plan says where the rows' names and data lie.
pub fn sheet_rows(version: u64, sheet: &[u8], plan: &mut [u64; PLAN_WORDS]) -> Result<(), Refusal>
    ensures answer { refused result ≡ sheet_test version sheet.now }
    ensures rows { OnOk result (Located sheet.now plan.new) }
{
    let table = table_of(version, sheet)?;
    place_rows(&table, plan)?;
    let rows = Rows {
        sheet,
        plan,
        count: table.count,
    };
    rows.check()
}
