// Leaf code of the append: where its parts go. The end of use, the data row by row, the new names, the blocks behind the data.
// Its functions have a `requires`.
#![tactic(auto)]

ghost use Rattle.std.specs.Prelude.{◌≡◌, ◌+◌, ◌*◌, ◌≤◌, ◌<◌, max};
ghost use Rattle.gsd_format.specs.Header.{header_size, greatest_length, aligned};
ghost use Rattle.gsd_stores.specs.View.{index_end, namelist_end};
ghost use Rattle.gsd_stores.specs.Plan.{grown};
ghost use Rattle.gsd_places.specs.Places.{Laid, DataPlaced, NamesLaid, NamesPlaced};
ghost use Rattle.gsd_places.specs.Sites.{new_count, behind_units, sites_of};

use gsd_bytes::{HEADER_SIZE, SEGMENT_SIZE, SLOT_SIZE, rounded};
use gsd_format::Layout;
use gsd_sheet::{DATA_FROM, DATA_TO, NAME_FROM, NAME_TO, NEW_ROW, PLAN_WORDS};

// The end of use, from the layout and the end of the listed chunks.
pub fn end_of_use(l: Layout, chunks: u64) -> u64
    requires index { index_end l ≤ greatest_length }
    requires names { namelist_end l ≤ greatest_length }
    requires chunks { chunks ≤ greatest_length }
    ensures { result ≡ aligned (max header_size (max (index_end l) (max (namelist_end l) chunks))) }
{
    let index = l.index + SLOT_SIZE * l.slots;
    let names = l.namelist + SEGMENT_SIZE * l.segments;
    rounded(HEADER_SIZE.max(index.max(names.max(chunks))))
}

// Row by row from start on, each where a chunk may start and padded to whole words: the position behind the last. Rounded as the definitions
// round, here and in find_sites: std's `div_ceil` promises another term, and each place would show the two equal.
pub fn place_data(plan: &mut [u64; PLAN_WORDS], count: usize, start: u64) -> u64
    requires laid { Laid plan.old count }
    requires start { start < 4611686018427387904 }
    ensures { DataPlaced plan.old count start result plan.new }
{
    let mut position = start;
    for i in 0..count {
        let from = plan[DATA_FROM + i];
        let until = plan[NAME_FROM + (i + 1)];
        let to = rounded(position);
        plan[DATA_TO + i] = to;
        position = to + (until - from + 7) / 8 * 8;
    }
    position
}

// The new names one behind the other from first on, each with its zero.
pub fn place_names(plan: &mut [u64; PLAN_WORDS], fresh: usize, first: u64)
    requires laid { NamesLaid plan.old fresh }
    requires first { first < 4611686018427387904 }
    ensures { NamesPlaced plan.old fresh first plan.new }
{
    let mut next = first;
    for j in 0..fresh {
        let row = plan[NEW_ROW + j] as usize;
        let from = plan[NAME_FROM + row];
        let until = plan[DATA_FROM + row];
        plan[NAME_TO + j] = next;
        next = next + (until - from) + 1;
    }
}

// The old count, at least 1, doubled as often as needed and at least once. No `for`: no number counts the steps.
fn grown_count(need: u64, old: u64) -> u64
    requires need { need < 4611686018427387904 }
    requires old { old < 2305843009213693952 }
    ensures answer { result ≡ grown need old }
    ensures bound { result ≤ max (2 * max 1 old) (2 * need) }
{
    let mut count = 2 * 1u64.max(old);
    while count < need {
        count = 2 * count;
    }
    count
}

// A block's new count, if it moves. 0 stands for none here and below, and `moves` is a bool, as in the definitions of these names.
fn new_count(moves: bool, need: u64, old: u64) -> u64
    requires need { need < 4611686018427387904 }
    requires old { old < 2305843009213693952 }
    ensures answer { result ≡ new_count moves need old }
    ensures bound { result ≤ max (2 * max 1 old) (2 * need) }
{
    if moves { grown_count(need, old) } else { 0 }
}

fn behind_units(count: u64, at: u64, unit: u64, position: u64) -> u64
    requires end { at + unit * count < 4611686018427387904 }
    requires position { position ≤ at }
    ensures answer { result ≡ behind_units count at unit position }
    ensures bound { result ≤ at + unit * count }
{
    if count == 0 {
        return position;
    }
    at + unit * count
}

// Where a block that does not suffice starts, its new count (0 if it stays), and the position behind it.
// 0 and not an Option: it is a word of the plan, as `sites_of` and the plan's numbers say it.
#[derive(Clone, Copy)]
pub struct Sites {
    pub names_at: u64,
    pub segments: u64,
    pub names_done: u64,
    pub index_at: u64,
    pub slots: u64,
    pub last: u64,
}

// position: behind the data; bytes: of all names, old and new; count: of all entries.
pub fn find_sites(l: Layout, position: u64, bytes: u64, count: u64) -> Sites
    requires position { position < 1152921504606846976 }
    requires bytes { bytes < 1099511627776 }
    requires count { count < 1099511627776 }
    requires slots { l.slots < 1099511627776 }
    requires segments { l.segments < 1099511627776 }
    ensures { result ≡ sites_of l position bytes count }
{
    let segments = new_count(
        SEGMENT_SIZE * l.segments < bytes,
        (bytes + 63) / SEGMENT_SIZE,
        l.segments,
    );
    let slots = new_count(l.slots < count, count, l.slots);
    let names_at = rounded(position);
    let names_done = behind_units(segments, names_at, SEGMENT_SIZE, position);
    let index_at = rounded(names_done);
    let last = behind_units(slots, index_at, SLOT_SIZE, names_done);
    Sites {
        names_at,
        segments,
        names_done,
        index_at,
        slots,
        last,
    }
}
