// Opening an image once: header, blocks, name list and one walk over the entries make a survey, and every call for users
// answers from one. It is leaf code: its functions have a `requires`.
#![tactic(auto)]

mod header;
mod index;
mod refusal;
mod stretch;
mod survey;

pub use header::supported;
pub use index::{chunk_bytes, entry_at};
pub use survey::{Survey, survey_of};
