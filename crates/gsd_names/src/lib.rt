// The name list: found in one pass as the places behind its names, then tested and searched. It is leaf code: its
// functions have a `requires`.
#![tactic(auto)]

mod list;
mod names;
mod number;
mod prints;
mod search;
mod twins;

pub use list::{NameList, PLACES, name_list};
pub use names::Names;
pub use number::checked_names;
pub use search::same_name;
