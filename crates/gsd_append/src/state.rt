// An append in turns: a beginning tests everything and gives a state, and each turn makes the next stores and gives it back.
ghost use Rattle.std.specs.Prelude.{◌≡◌};
ghost use Rattle.gsd_append.specs.Turns.{refused_state, Begins, beginning, turned, turn_answer, turn_image};

use gsd_format::Refusal;
use gsd_states::{STATE_WORDS, begin, carry_on, fits};

// What the turns of an append go by. Any words are safe, and nobody need know what they are.
#[derive(Drop)]
pub struct State {
    pub words: [u64; STATE_WORDS],
}

// How many stores the whole append takes, how many listed entries it copies, and its state.
#[derive(Drop)]
pub struct Begun {
    pub whole: u64,
    pub copied: u64,
    pub state: State,
}

// How many stores this turn made, and the state for the next.
#[derive(Drop)]
pub struct Turn {
    pub made: Result<u64, Refusal>,
    pub state: State,
}

impl State {
    // Makes no store. A refused beginning has no state; `refused` is what a caller may keep in its place.
    pub fn begin(image: &[u8], sheet: &[u8]) -> Result<Begun, Refusal>
        ensures { Begins image.now sheet.now (beginning result) }
    {
        let mut words = [0u64; STATE_WORDS];
        let counts = begin(&mut words, image, sheet)?;
        Ok(Begun {
            whole: counts.whole,
            copied: counts.copied,
            state: State { words },
        })
    }

    // The state of a refused beginning: no turn goes on with it.
    pub fn refused() -> State
        ensures { result ≡ refused_state }
    {
        let words = [0u64; STATE_WORDS];
        State { words }
    }

    // The next stores, `limit` of them or as many as are left, on the image and with the sheet of the beginning. It does not
    // open the image: a refusal says that the state is a refused beginning's, or that lengths or header words 8 to 32 are not those
    // that the stores so far have left; then nothing changes. What holds of turns that nothing comes between, and of others, is
    // proved in proofs/Turns.antt.
    pub fn turn(self, image: &mut [u8], sheet: &[u8], limit: u64) -> Turn
        ensures answer { turned result.made result.state ≡ turn_answer self image.old sheet.now limit }
        ensures image { image.new ≡ turn_image self image.old sheet.now limit }
    {
        let mut words = self.words;
        if !fits(&words, image, sheet) {
            return Turn {
                made: Err(Refusal::NotExpected),
                state: State { words },
            };
        }
        let made = carry_on(&mut words, image, sheet, limit);
        Turn {
            made: Ok(made),
            state: State { words },
        }
    }
}
