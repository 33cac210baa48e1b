// Leaf code of the append, which 1.0 refuses: the ids of the rows' names. A listed name has its place in the list, the new
// ones follow in the order of rows. The module order sorts rows by their ids.
#![tactic(auto)]

mod order;

ghost use Rattle.std.specs.Prelude.{◌≡◌, ◌<◌};
ghost use Rattle.gsd_stores.specs.Sheet.{rows_of};
ghost use Rattle.gsd_names.specs.NameLists.{names_in};
ghost use Rattle.gsd_sheet.specs.Columns.{slot_pair_column, Kept};
ghost use Rattle.gsd_ids.specs.Order.{paired};
ghost use Rattle.gsd_ids.specs.RowIds.{Searchable, IdsListed, IdsFound, order};

use gsd_names::Names;
use gsd_sheet::{DATA_FROM, NAME_FROM, NEW_ROW, PLAN_WORDS, SLOT_PAIR};
use order::sort;

// How many names are new, and their bytes in a name list.
#[derive(Clone, Copy)]
pub struct NewNames {
    pub count: usize,
    pub size: usize,
}

fn pair(id: usize, row: usize) -> u64
    requires id { id < 65536 }
    requires row { row < 64 }
    ensures { result ≡ paired id row }
{
    64 * (id as u64) + row as u64
}

// Each row's name is searched once. The pairs of id and row are still in the order of rows.
fn list_ids(names: &Names<'_>, sheet: &[u8], plan: &mut [u64; PLAN_WORDS], count: usize) -> NewNames
    requires { Searchable names.now.count sheet.now plan.old count }
    ensures listed { IdsListed (names_in names.now.v10 names.now.image.now names.now.starts.now names.now.count) (rows_of sheet.now)
        plan.new result }
    ensures kept { Kept slot_pair_column plan.old plan.new }
{
    let mut fresh = 0;
    let mut size = 0;
    for i in 0..count {
        let from = plan[NAME_FROM + i] as usize;
        let until = plan[DATA_FROM + i] as usize;
        match names.id_of(&sheet[from..until]) {
            Some(id) => plan[SLOT_PAIR + i] = pair(id, i),
            None => {
                plan[SLOT_PAIR + i] = pair(names.count + fresh, i);
                plan[NEW_ROW + fresh] = i as u64;
                fresh += 1;
                size += until - from + 1;
            }
        }
    }
    NewNames { count: fresh, size }
}

// The column of pairs as an array.
fn pairs_of(plan: &[u64; PLAN_WORDS]) -> [u64; 64]
    ensures { result ≡ order plan.now }
{
    <[u64; 64]>::try_from(&plan[SLOT_PAIR..SLOT_PAIR + 64]).unwrap()
}

// The rows' ids: the column SLOT_PAIR has each with its row, in the order of ids, and the column NEW_ROW the new names'
// rows, in the order of rows. The ids are ordered in an array that goes by value. Out of line: so its arrays are on the stack while ids are
// ordered, and not while the image is opened, which takes more.
#[inline(never)]
pub fn find_ids(
    names: &Names<'_>,
    sheet: &[u8],
    plan: &mut [u64; PLAN_WORDS],
    count: usize,
) -> NewNames
    requires { Searchable names.now.count sheet.now plan.old count }
    ensures found { IdsFound (names_in names.now.v10 names.now.image.now names.now.starts.now names.now.count) (rows_of sheet.now)
        plan.new result }
    ensures kept { Kept slot_pair_column plan.old plan.new }
{
    let new = list_ids(names, sheet, plan, count);
    let pairs = pairs_of(plan);
    let ordered = sort(pairs, count);
    plan[SLOT_PAIR..SLOT_PAIR + 64].copy_from_slice(&ordered);
    new
}
