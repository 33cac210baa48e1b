// The loop that makes the stores of a plan's extents on the image, where it goes on behind those made, their count, and that of
// the entries copied. It is leaf code of the append: its functions have a `requires`.
#![tactic(auto)]

pub mod turn;
