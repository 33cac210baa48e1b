// What an append answers. The sheet, the stores of an append and a run of appends are defined in specs/; that a run of
// appends keeps everything it found is proved in proofs/.
#![tactic(auto)]

// How many stores were done, how many the whole append takes, and how many listed entries it copies where it moves the index.
#[derive(Clone, Copy)]
pub struct Appended {
    pub done: u64,
    pub whole: u64,
    pub copied: u64,
}
