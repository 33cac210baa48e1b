// Whether a plan, whose words may be any, can be carried out on an image of n bytes with a sheet of m. Only `is_feasible` is
// called from outside.
#![tactic(auto)]

ghost use Rattle.std.specs.Prelude.{◌≡◌, ◌≤◌, ◌<◌};
ghost use Rattle.gsd_stores.specs.Sheet.{most_rows};
ghost use Rattle.gsd_steps.specs.Numbers.{rows_in, fresh_in};
ghost use Rattle.gsd_steps.specs.Steps.{name_move, index_move};
ghost use Rattle.gsd_feasible.specs.Feasible.{counts_fit, slices_fit, small, names_known, entry_known, entries_known, numbers_fit, front_keeps, feasible};

use gsd_bytes::{GREATEST_LENGTH, HEADER_SIZE};
use gsd_extents::{keeps, within};
use gsd_sheet::{NEW_ROW, PLAN_WORDS, SLOT_PAIR};
use gsd_steps::Front;
use gsd_steps::numbers::{
    ENTRIES_END, FRESH, INDEX_AT, NAMES_AT, NAMES_END, ROWS, SEGMENTS, SLOT, SLOTS,
};

fn counts_fit(plan: &[u64; PLAN_WORDS]) -> bool
    ensures { result ≡ counts_fit plan.now }
{
    let rows = plan[ROWS];
    (1 <= rows) & (rows <= 64) & (plan[FRESH] <= rows)
}

// n and m, and that counts_fit has found few rows, go from test to test: the definitions of these names take them, and a type for each of
// the two stages would be made in one place and read in three.
fn slices_fit(plan: &[u64; PLAN_WORDS], n: usize, m: usize) -> bool
    requires rows { rows_in plan.now ≤ most_rows }
    ensures { result ≡ slices_fit n m plan.now }
{
    let rows = plan[ROWS] as usize;
    let slot = plan[SLOT] as usize;
    (HEADER_SIZE as usize <= n)
        & (n <= GREATEST_LENGTH)
        & (4 + 16 * rows <= m)
        & (slot % 8 == 0)
        & within(slot, 32 * rows, n)
}

// Of each block by itself and before its Move is made: name_move and index_move ask for a small count.
fn names_small(plan: &[u64; PLAN_WORDS]) -> bool
    ensures { result ≡ small (name_move plan.now) }
{
    let most = GREATEST_LENGTH as u64;
    (plan[NAMES_AT] <= most) & (plan[NAMES_END] <= most) & (plan[SEGMENTS] <= most)
}

fn index_small(plan: &[u64; PLAN_WORDS]) -> bool
    ensures { result ≡ small (index_move plan.now) }
{
    let most = GREATEST_LENGTH as u64;
    (plan[INDEX_AT] <= most) & (plan[ENTRIES_END] <= most) & (plan[SLOTS] <= most)
}

fn names_known(plan: &[u64; PLAN_WORDS]) -> bool
    requires fresh { fresh_in plan.now ≤ most_rows }
    ensures { result ≡ names_known plan.now }
{
    (0..plan[FRESH] as usize).all(|j| plan[NEW_ROW + j] < 64)
}

// The entry in slot s.
fn entry_known(plan: &[u64; PLAN_WORDS], s: usize) -> bool
    requires slot { s < most_rows }
    ensures { result ≡ entry_known plan.now s }
{
    let pair = plan[SLOT_PAIR + s];
    (pair % 64 < plan[ROWS]) & (pair / 64 < 65536)
}

fn entries_known(plan: &[u64; PLAN_WORDS]) -> bool
    requires rows { rows_in plan.now ≤ most_rows }
    ensures { result ≡ entries_known plan.now }
{
    (0..plan[ROWS] as usize).all(|s| entry_known(plan, s))
}

fn numbers_fit(plan: &[u64; PLAN_WORDS], n: usize, m: usize) -> bool
    requires rows { rows_in plan.now ≤ most_rows }
    requires fresh { fresh_in plan.now ≤ most_rows }
    ensures { result ≡ numbers_fit n m plan.now }
{
    slices_fit(plan, n, m)
        & names_small(plan)
        & index_small(plan)
        & names_known(plan)
        & entries_known(plan)
}

// Every extent of steps 1 to 5.
fn front_keeps(front: Front<'_>, n: usize, m: usize) -> bool
    ensures { result ≡ front_keeps n m front.entry.plan.now }
{
    (0..front.count()).all(|r| keeps(front.extent_at(r), n, m))
}

pub fn is_feasible(plan: &[u64; PLAN_WORDS], n: usize, m: usize) -> bool
    ensures { result ≡ feasible n m plan.now }
{
    if !counts_fit(plan) {
        return false;
    }
    if !numbers_fit(plan, n, m) {
        return false;
    }
    front_keeps(Front { plan }, n, m)
}
