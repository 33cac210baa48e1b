// The loop over the extents of a plan.
ghost use Rattle.std.specs.Prelude.{◌≡◌, ◌-◌, ◌≤◌, ◌<◌, min, length};
ghost use Rattle.gsd_extents.specs.Exec.{Good, tasks_from, exec};
ghost use Rattle.gsd_steps.specs.Steps.{Ready, copied_in};
ghost use Rattle.gsd_turns.specs.Turns.{IsCursor, TurnSays, Stands, whole_of};

use gsd_extents::{Extent, stores};
use gsd_steps::numbers::{FRESH, ROWS};
use gsd_steps::{Extents, Front};

// Where the stores of a plan go on: the next extent, and the next word of it.
#[derive(Clone, Copy)]
pub struct Cursor {
    pub extent: usize,
    pub word: usize,
}

// Where a turn ends, and how many stores it made.
#[derive(Clone, Copy)]
pub struct Turned {
    pub cursor: Cursor,
    pub made: u64,
}

// The stores of an extent from word w on, at most `left` of them: how many were made. That it keeps to the image is a `requires`, as of
// `stores`: a type that lends the image could not let it be stored to.
fn some_stores(image: &mut [u8], sheet: &[u8], x: Extent, w: usize, left: u64) -> usize
    requires good { Good (length image.old) (length sheet.now) x }
    requires word { w ≤ x.words }
    ensures answer { result ≡ min left (x.words - w) }
    ensures image { image.new ≡ exec sheet.now image.old (tasks_from x w result) }
{
    let n = left.min((x.words - w) as u64) as usize;
    stores(image, sheet, x, w, n);
    n
}

// The next stores of a plan from a cursor on, as many as the limit lets be made.
pub fn turn(image: &mut [u8], extents: Extents<'_>, from: Cursor, limit: u64) -> Turned
    requires ready { Ready (length image.old) extents.sheet.now extents.plan.now }
    requires cursor { IsCursor extents.sheet.now extents.plan.now from }
    ensures { TurnSays extents.entry.sheet.now image.old extents.entry.plan.now from limit result image.new }
{
    let count = extents.count();
    let mut word = from.word;
    let mut left = limit;
    for extent in from.extent..count {
        let x = extents.extent_at(extent);
        let n = some_stores(image, extents.sheet, x, word, left);
        word += n;
        left -= n as u64;
        if word < x.words {
            return Turned {
                cursor: Cursor { extent, word },
                made: limit - left,
            };
        }
        word = 0;
    }
    Turned {
        cursor: Cursor {
            extent: count,
            word: 0,
        },
        made: limit - left,
    }
}

// The cursor behind the first `done` stores of a plan, or behind all its extents.
pub fn seek(extents: Extents<'_>, done: u64) -> Cursor
    ensures { Stands extents.entry.sheet.now extents.entry.plan.now done result }
{
    let all = extents.count();
    let mut left = done;
    for extent in 0..all {
        let words = extents.extent_at(extent).words as u64;
        if left < words {
            return Cursor {
                extent,
                word: left as usize,
            };
        }
        left -= words;
    }
    Cursor {
        extent: all,
        word: 0,
    }
}

// The number of all stores of a plan. Each of an entry's four words is an extent of its own.
pub fn whole(front: Front<'_>) -> u64
    requires { whole_of front.plan.now < 18446744073709551616 }
    ensures { result ≡ whole_of front.entry.plan.now }
{
    let count = front.count();
    let mut sum = 4 * front.plan[ROWS];
    for r in 0..count {
        sum += front.extent_at(r).words as u64;
    }
    sum
}

// The listed entries that step 5 copies. Its first extent holds their words, and has none where the index stays.
pub fn copied(front: Front<'_>) -> u64
    ensures { result ≡ copied_in front.entry.plan.now }
{
    let first = 7 + front.plan[FRESH] as usize + front.plan[ROWS] as usize;
    let x = front.extent_at(first);
    x.words as u64 / 4
}
