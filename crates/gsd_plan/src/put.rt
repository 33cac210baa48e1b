// The numbers of a plan, put behind its columns.
ghost use Rattle.std.specs.Prelude.{◌≡◌, ◌+◌, ◌≤◌, [], ◌∷◌};
ghost use Rattle.gsd_format.specs.Bytes.{stored};
ghost use Rattle.gsd_format.specs.Header.{greatest_length};
ghost use Rattle.gsd_stores.specs.View.{index_end, namelist_end};
ghost use Rattle.gsd_sheet.specs.Columns.{numbers_begin};
ghost use Rattle.gsd_plan.specs.Planning.{block_at, list_numbers, numbers_of, Countable};

use gsd_bytes::{SEGMENT_SIZE, SLOT_SIZE};
use gsd_format::Layout;
use gsd_open::Survey;
use gsd_places::Sites;
use gsd_sheet::PLAN_WORDS;
use gsd_steps::numbers::{
    ENTRIES_END, FRAME, FRESH, INDEX, INDEX_AT, INDEX_END, NAMELIST, NAMELIST_END, NAMES_AT,
    NAMES_END, ROWS, SEGMENTS, SLOT, SLOTS,
};

// Where a block lies after its move, if it has a new count: 0 for none, as in the plan's words and the definition of this name.
pub(crate) fn block_at(count: u64, new: u64, old: u64) -> u64
    ensures { result ≡ block_at count new old }
{
    if count == 0 { old } else { new }
}

// The numbers behind the columns, in three groups.
fn put_counts(plan: &mut [u64; PLAN_WORDS], rows: usize, fresh: usize, frame: u64, slot: u64)
    ensures { plan.new ≡ stored plan.old numbers_begin (rows ∷ fresh ∷ frame ∷ slot ∷ []) }
{
    plan[ROWS] = rows as u64;
    plan[FRESH] = fresh as u64;
    plan[FRAME] = frame;
    plan[SLOT] = slot;
}

fn put_lists(plan: &mut [u64; PLAN_WORDS], l: Layout, entries: u64, names_end: usize)
    requires index { index_end l ≤ greatest_length }
    requires names { namelist_end l ≤ greatest_length }
    requires entries { entries ≤ l.slots }
    ensures { plan.new ≡ stored plan.old (numbers_begin + 4) (list_numbers l entries names_end) }
{
    plan[INDEX] = l.index;
    plan[ENTRIES_END] = l.index + SLOT_SIZE * entries;
    plan[INDEX_END] = l.index + SLOT_SIZE * l.slots;
    plan[NAMELIST] = l.namelist;
    plan[NAMES_END] = names_end as u64;
    plan[NAMELIST_END] = l.namelist + SEGMENT_SIZE * l.segments;
}

fn put_sites(plan: &mut [u64; PLAN_WORDS], s: Sites)
    ensures { plan.new ≡ stored plan.old (numbers_begin + 10) (s.names_at ∷ s.segments ∷ s.index_at ∷ s.slots ∷ []) }
{
    plan[NAMES_AT] = s.names_at;
    plan[SEGMENTS] = s.segments;
    plan[INDEX_AT] = s.index_at;
    plan[SLOTS] = s.slots;
}

pub(crate) fn put_numbers(
    plan: &mut [u64; PLAN_WORDS],
    survey: Survey,
    s: Sites,
    rows: usize,
    fresh: usize,
)
    requires { Countable survey s }
    ensures { plan.new ≡ stored plan.old numbers_begin (numbers_of survey s rows fresh) }
{
    let l = survey.layout;
    let slot = block_at(s.slots, s.index_at, l.index) + SLOT_SIZE * survey.entries;
    put_counts(plan, rows, fresh, survey.frames, slot);
    put_lists(plan, l, survey.entries, survey.names.list_end);
    put_sites(plan, s);
}
