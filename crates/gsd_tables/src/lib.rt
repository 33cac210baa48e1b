// What a table of cases makes and looks at: an image and a sheet; and its answers as text, compared and counted. None of it
// needs a call of the C interface.
#![tactic(auto)]

pub mod bench;
pub mod look;
pub mod tally;
pub mod text;
