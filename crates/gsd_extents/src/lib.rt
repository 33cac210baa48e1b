// An extent of stores, its kinds, the loops that make its stores on the image, and the test whether it keeps to one. It is leaf
// code of the append: its functions but for the test have a `requires`.
#![tactic(auto)]

mod extent;
mod keeping;

pub use extent::{Extent, Kind, stores};
pub use keeping::{keeps, within};
