// The append: in turns, by a state that a beginning gives and each turn gives back, and as one call, which is the two joined.
#![tactic(auto)]

mod state;

ghost use Rattle.std.specs.Prelude.{◌≡◌};
ghost use Rattle.gsd_stores.specs.Append.{append_answer, answered, appended};

use gsd_format::Refusal;
use gsd_states::{STATE_WORDS, begin, carry_on};
use gsd_stores::Appended;
pub use state::{Begun, State, Turn};

// Appends the sheet's rows as one frame, making at most `limit` stores: a refusal says why nothing is changed;
// `done` of the `whole` append's stores are made, which copies `copied` listed entries where it moves the index.
// It is a beginning and one turn joined: proofs/Turns.antt. That calls, joined or in turns, one after the other and stopped
// anywhere, keep all that was found and add a frame exactly with its last store is proved in proofs/Demand3.antt; what the
// copies add up to, in proofs/Moving.antt.
pub fn append(image: &mut [u8], sheet: &[u8], limit: u64) -> Result<Appended, Refusal>
    ensures answer { answered result ≡ append_answer image.old sheet.now limit }
    ensures image { image.new ≡ appended image.old sheet.now limit }
{
    // The state lives here and is lent: nothing copies it, and what a beginning just gave needs no test.
    let mut words = [0u64; STATE_WORDS];
    let counts = begin(&mut words, image, sheet)?;
    let done = carry_on(&mut words, image, sheet, limit);
    Ok(Appended {
        done,
        whole: counts.whole,
        copied: counts.copied,
    })
}
