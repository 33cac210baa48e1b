// Leaf code of the append in turns: the words of a state, which a beginning fills and a turn tests, carries on and moves on.
// Its functions have a `requires`, and take the words, not gsd_append's `State`: its `append` lends one array of them, which nothing copies.
#![tactic(auto)]

ghost use Rattle.std.specs.Prelude.{◌≡◌, ◌+◌, ◌≤◌, min, length, take, IfOk, OnOk};
ghost use Rattle.gsd_format.specs.Header.{header_size, header_words};
ghost use Rattle.gsd_format.specs.Answers.{refused};
ghost use Rattle.gsd_stores.specs.Append.{append_test};
ghost use Rattle.gsd_extents.specs.Exec.{exec};
ghost use Rattle.gsd_steps.specs.Steps.{Ready};
ghost use Rattle.gsd_states.specs.States.{plan_in, done_in, state_of, same_header, fits, left, Began, Counted};

use gsd_bytes::{INDEX_PLACE, NAMELIST_PLACE, SEGMENTS_PLACE, SLOTS_PLACE, u64_at};
use gsd_feasible::is_feasible;
use gsd_format::Refusal;
use gsd_plan::plan_append;
use gsd_sheet::PLAN_WORDS;
use gsd_steps::{Extents, Front};
use gsd_turns::turn;

// A state is a plan, and behind it the marks: the lengths of the image and of the sheet, header words 8 to 32, and how many
// stores are made. Each constant is where a mark lies.
pub const STATE_WORDS: usize = 406;

pub const LENGTH: usize = 399;

pub const SHEET_LENGTH: usize = 400;

pub const HEADER: usize = 401;

pub const DONE: usize = 405;

// The plan, which stands in front.
fn plan_of(words: &[u64; STATE_WORDS]) -> &[u64; PLAN_WORDS]
    ensures { result.now ≡ plan_in words.now }
{
    words.first_chunk().unwrap()
}

// Header words 8 to 32. Here and below a `requires` has the header in the image: carry_on stores to the image between two readings, and a
// type that lends it could not let it.
fn header_words(image: &[u8]) -> [u64; 4]
    requires { header_size ≤ length image.now }
    ensures { result ≡ header_words image.now }
{
    [
        u64_at(image, INDEX_PLACE),
        u64_at(image, SLOTS_PLACE),
        u64_at(image, NAMELIST_PLACE),
        u64_at(image, SEGMENTS_PLACE),
    ]
}

// The marks of the image and the sheet as they are now.
fn put_marks(words: &mut [u64; STATE_WORDS], image: &[u8], sheet: &[u8], done: u64)
    requires { header_size ≤ length image.now }
    ensures { words.new ≡ state_of (plan_in words.old) image.now sheet.now done }
{
    words[LENGTH] = image.len() as u64;
    words[SHEET_LENGTH] = sheet.len() as u64;
    words[HEADER..DONE].copy_from_slice(&header_words(image));
    words[DONE] = done;
}

// The state of an append's beginning, where nothing refuses it.
fn start(words: &mut [u64; STATE_WORDS], image: &[u8], sheet: &[u8]) -> Result<(), Refusal>
    ensures number { refused result ≡ append_test image.now sheet.now }
    ensures state { OnOk result (Began image.now sheet.now words.new) }
{
    plan_append(image, sheet, words.first_chunk_mut().unwrap())?;
    put_marks(words, image, sheet, 0);
    Ok(())
}

// How many stores the whole append takes, and how many listed entries it copies.
#[derive(Clone, Copy)]
pub struct Counts {
    pub whole: u64,
    pub copied: u64,
}

// The state of an append's beginning, where nothing refuses it. Nothing is stored.
pub fn begin(words: &mut [u64; STATE_WORDS], image: &[u8], sheet: &[u8]) -> Result<Counts, Refusal>
    ensures number { refused result ≡ append_test image.now sheet.now }
    ensures begun { IfOk result (λ counts. Counted image.now sheet.now counts words.new) }
{
    start(words, image, sheet)?;
    let plan = plan_of(words);
    let front = Front { plan };
    Ok(Counts {
        whole: turn::whole(front),
        copied: turn::copied(front),
    })
}

fn same_header(words: &[u64; STATE_WORDS], image: &[u8]) -> bool
    requires { header_size ≤ length image.now }
    ensures { result ≡ same_header words.now image.now }
{
    let header = header_words(image);
    words[HEADER..DONE] == header[..]
}

// Is this a state to go on with, on this image and with this sheet? Whatever the words are.
pub fn fits(words: &[u64; STATE_WORDS], image: &[u8], sheet: &[u8]) -> bool
    ensures { result ≡ fits words.now image.now sheet.now }
{
    words[LENGTH] == image.len() as u64
        && words[SHEET_LENGTH] == sheet.len() as u64
        && is_feasible(plan_of(words), image.len(), sheet.len())
        && same_header(words, image)
}

// The next stores of a state, as many as the limit lets be made: how many they are. The state moves on with them.
pub fn carry_on(words: &mut [u64; STATE_WORDS], image: &mut [u8], sheet: &[u8], limit: u64) -> u64
    requires header { header_size ≤ length image.old }
    requires ready { Ready (length image.old) sheet.now (plan_in words.old) }
    ensures made { result ≡ min limit (length (left words.old sheet.now)) }
    ensures image { image.new ≡ exec sheet.now image.old (take result (left words.old sheet.now)) }
    ensures words { words.new
        ≡ state_of (plan_in words.old) image.new sheet.now (done_in words.old + result) }
{
    let done = words[DONE];
    let plan = plan_of(words);
    let extents = Extents { sheet, plan };
    let from = turn::seek(extents, done);
    let turned = turn::turn(image, extents, from, limit);
    put_marks(words, image, sheet, done + turned.made);
    turned.made
}
