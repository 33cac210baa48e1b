// The extremes of columns of floats and doubles, of which none is a NaN. It is leaf code: its functions have a `requires`.
#![tactic(auto)]

mod real;
mod scan;

pub use real::Real;
pub use scan::{Ends, Three, Values};
