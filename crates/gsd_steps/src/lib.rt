// Leaf code of the append: the extents of a plan, in the order of the append's steps 1 to 6, by types that carry what they need
// to be reckoned.
#![tactic(auto)]

pub mod numbers;

ghost use Rattle.std.specs.Prelude.{◌≡◌, ◌+◌, ◌-◌, ◌*◌, ◌/◌, ◌%◌, ◌≤◌, ◌<◌, get_or, length};
ghost use Rattle.gsd_format.specs.Header.{greatest_length};
ghost use Rattle.gsd_stores.specs.Sheet.{row_at, row_n};
ghost use Rattle.gsd_sheet.specs.Columns.{name_from, data_from, new_row, data_to, name_to};
ghost use Rattle.gsd_steps.specs.Numbers.{rows_in, frame_in, segments_in, slots_in};
ghost use Rattle.gsd_steps.specs.Steps.{meta_of, of_four};
ghost use Rattle.gsd_extents.specs.Extents.{number, none, copied, row_data, name};
ghost use Rattle.gsd_steps.specs.Steps.{clear_extent, name_move, index_move, move_extent};
ghost use Rattle.gsd_steps.specs.Steps.{entry_extent, front_of, front_count, extents_of, extent_count, Small, FrontSound, Sound};

use gsd_bytes::{INDEX_PLACE, NAMELIST_PLACE};
use gsd_extents::{Extent, Kind};
use gsd_sheet::{DATA_FROM, DATA_TO, NAME_FROM, NAME_TO, NEW_ROW, PLAN_WORDS, Row, SLOT_PAIR};
use numbers::{
    ENTRIES_END, FRAME, FRESH, INDEX, INDEX_AT, INDEX_END, NAMELIST, NAMELIST_END, NAMES_AT,
    NAMES_END, ROWS, SEGMENTS, SLOT, SLOTS,
};

fn number_extent(to: usize, words: usize, value: u64) -> Extent
    ensures { result ≡ number to words value }
{
    Extent {
        kind: Kind::Number,
        to,
        words,
        from: 0,
        until: 0,
        value,
    }
}

fn copy_extent(to: usize, words: usize, from: usize, until: usize) -> Extent
    ensures { result ≡ copied to words from until }
{
    Extent {
        kind: Kind::Copy,
        to,
        words,
        from,
        until,
        value: 0,
    }
}

// A last word that is not full counts.
fn words_of(bytes: usize) -> usize
    ensures { result ≡ (bytes + 7) / 8 }
{
    bytes.div_ceil(8)
}

// Step 1. By number, as a cursor asks for it: an array of the three makes all, and counting a plan's stores takes a tenth longer.
fn clear_extent(plan: &[u64; PLAN_WORDS], k: usize) -> Extent
    requires which { k < 3 }
    ensures { result ≡ clear_extent plan.now k }
{
    let end = plan[NAMES_END] as usize;
    let first = end / 8 * 8;
    // the numbers of a plan may be any
    let words = (plan[NAMELIST_END] as usize).saturating_sub(first) / 8;
    let kept = words.min(1);
    match k {
        0 => {
            let slot = plan[ENTRIES_END] as usize;
            let free = (plan[INDEX_END] as usize).saturating_sub(slot) / 8;
            number_extent(slot, free, 0)
        }
        1 => copy_extent(first, kept, first, end),
        _ => number_extent(first + 8 * kept, words - kept, 0),
    }
}

// Step 2.
fn data_extent(plan: &[u64; PLAN_WORDS], i: usize) -> Extent
    requires row { i < 64 }
    ensures { result ≡ row_data (data_to plan.now i) (data_from plan.now i) (name_from plan.now (i + 1)) }
{
    let from = plan[DATA_FROM + i] as usize;
    let until = plan[NAME_FROM + (i + 1)] as usize;
    Extent {
        kind: Kind::Data,
        to: plan[DATA_TO + i] as usize,
        words: words_of(until.saturating_sub(from)),
        from,
        until,
        value: 0,
    }
}

// A block that moves to `to`, where it has so many words; its list lies from `from` to `until`, its place and its new count
// go to the header. With the count 0 it stays: 0 and no Option, for it is a word of the plan, as `if_moved` has it.
#[derive(Clone, Copy)]
pub struct Move {
    pub to: usize,
    pub words: usize,
    pub from: usize,
    pub until: usize,
    pub header: usize,
    pub count: u64,
}

// A function to each block, as the definitions name_move and index_move: one for both would take six constants to fill six fields.
fn name_move(plan: &[u64; PLAN_WORDS]) -> Move
    requires segments { segments_in plan.now ≤ greatest_length }
    ensures { result ≡ name_move plan.now }
{
    let count = plan[SEGMENTS];
    Move {
        to: plan[NAMES_AT] as usize,
        words: 8 * count as usize,
        from: plan[NAMELIST] as usize,
        until: plan[NAMES_END] as usize,
        header: NAMELIST_PLACE,
        count,
    }
}

fn index_move(plan: &[u64; PLAN_WORDS]) -> Move
    requires slots { slots_in plan.now ≤ greatest_length }
    ensures { result ≡ index_move plan.now }
{
    let count = plan[SLOTS];
    Move {
        to: plan[INDEX_AT] as usize,
        words: 4 * count as usize,
        from: plan[INDEX] as usize,
        until: plan[ENTRIES_END] as usize,
        header: INDEX_PLACE,
        count,
    }
}

// Steps 3 and 5. By number likewise: with an array of the four, counting the stores of blocks that move takes half as long again.
fn move_extent(b: Move, k: usize) -> Extent
    requires small { Small b }
    requires header { b.header < 32 }
    requires which { k < 4 }
    ensures { result ≡ move_extent b k }
{
    if b.count == 0 {
        return number_extent(0, 0, 0);
    }
    let listed = words_of(b.until.saturating_sub(b.from));
    match k {
        0 => copy_extent(b.to, listed, b.from, b.until),
        1 => number_extent(b.to + 8 * listed, b.words.saturating_sub(listed), 0),
        2 => number_extent(b.header, 1, b.to as u64),
        _ => number_extent(b.header + 8, 1, b.count),
    }
}

// Step 4.
fn name_extent(plan: &[u64; PLAN_WORDS], j: usize) -> Extent
    requires name { j < 64 }
    requires row { new_row plan.now j < 64 }
    ensures { result ≡ name (name_to plan.now j) (name_from plan.now (new_row plan.now j))
        (data_from plan.now (new_row plan.now j)) }
{
    let row = plan[NEW_ROW + j] as usize;
    let from = plan[NAME_FROM + row] as usize;
    let until = plan[DATA_FROM + row] as usize;
    let first = plan[NAME_TO + j] as usize;
    let size = until.saturating_sub(from);
    Extent {
        kind: Kind::Name,
        to: first / 8 * 8,
        words: size / 8 + words_of(first % 8 + size % 8),
        from,
        until,
        value: first as u64,
    }
}

// Where an entry's four words lie in it, in the order in which they are stored: the location last, which shows the entry.
const WORD_PLACES: [usize; 4] = [0, 8, 24, 16];

// M, id and type of a row as one number.
fn meta_of(row: &Row<'_>, id: u64) -> u64
    requires { id < 65536 }
    ensures { result ≡ meta_of row.now.sheet.now row.now.i id }
{
    row.m() + 4294967296 * id + 281474976710656 * u64::from(row.kind())
}

// The i-th word to be stored of a row's new entry. A `match` reads that one alone; an array of the four would read all.
fn entry_word(plan: &[u64; PLAN_WORDS], row: &Row<'_>, id: u64, i: usize) -> u64
    requires row { row.now.i < 64 }
    requires id { id < 65536 }
    requires word { i < 4 }
    ensures { result ≡ of_four (frame_in plan.now) (row_n row.now.sheet.now (row_at row.now.i))
        (meta_of row.now.sheet.now row.now.i id) (data_to plan.now row.now.i) i }
{
    match i {
        0 => plan[FRAME],
        1 => row.n(),
        2 => meta_of(row, id),
        _ => plan[DATA_TO + row.i],
    }
}

// A plan whose extents of steps 1 to 5 can be reckoned.
#[derive(Clone, Copy)]
pub struct Front<'a> {
    pub plan: &'a [u64; PLAN_WORDS],
    ghost sound: { FrontSound plan.now },
}

impl Front<'_> {
    // How many these are.
    pub fn count(self) -> usize
        ensures { result ≡ front_count self.entry.plan.now }
    {
        11 + self.plan[FRESH] as usize + self.plan[ROWS] as usize
    }

    // The r-th of them. By number, as a cursor asks for it: front_of is one list, and the steps follow each other in it.
    pub fn extent_at(self, r: usize) -> Extent
        requires { r < front_count self.plan.now }
        ensures { result ≡ get_or (front_of self.entry.plan.now) r none }
    {
        let plan = self.plan;
        if r < 3 {
            return clear_extent(plan, r);
        }
        let rows = plan[ROWS] as usize;
        let row = r - 3;
        if row < rows {
            return data_extent(plan, row);
        }
        let b = row - rows;
        if b < 4 {
            return move_extent(name_move(plan), b);
        }
        let fresh = plan[FRESH] as usize;
        let j = b - 4;
        if j < fresh {
            return name_extent(plan, j);
        }
        move_extent(index_move(plan), j - fresh)
    }
}

// A plan whose extents can be reckoned with a sheet.
#[derive(Clone, Copy)]
pub struct Extents<'a> {
    pub sheet: &'a [u8],
    pub plan: &'a [u64; PLAN_WORDS],
    ghost sound: { Sound (length sheet.now) plan.now },
}

impl Extents<'_> {
    // How many these are.
    pub fn count(&self) -> usize
        ensures { result ≡ extent_count self.now.plan.now }
    {
        11 + self.plan[FRESH] as usize + 5 * self.plan[ROWS] as usize
    }

    // Step 6. The k-th word of all new entries, by number as a cursor asks for it.
    fn entry(&self, k: usize) -> Extent
        requires { k < 4 * rows_in self.now.plan.now }
        ensures { result ≡ entry_extent self.now.sheet.now self.now.plan.now k }
    {
        let plan = self.plan;
        let s = plan[ROWS] as usize - 1 - k / 4;
        let i = k % 4;
        let place = plan[SLOT] as usize + 32 * s + WORD_PLACES[i];
        let pair = plan[SLOT_PAIR + s];
        let row = Row {
            sheet: self.sheet,
            i: (pair % 64) as usize,
        };
        number_extent(place, 1, entry_word(plan, &row, pair / 64, i))
    }

    // The r-th of them.
    pub fn extent_at(&self, r: usize) -> Extent
        requires { r < extent_count self.now.plan.now }
        ensures { result ≡ get_or (extents_of self.now.sheet.now self.now.plan.now) r none }
    {
        let front = Front { plan: self.plan };
        let count = front.count();
        if r < count {
            return front.extent_at(r);
        }
        self.entry(r - count)
    }
}
