// The search of the index: by halving, then by a walk. All that it reads of the index it reads by one function, which counts.
// It is leaf code: that the slots lie in the image is a fact of each `Search`, proved where one is made.
#![tactic(auto)]

mod halving;
mod probing;
mod walking;

pub use probing::{Query, Search};
