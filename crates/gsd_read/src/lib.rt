// Reading an image: what opening, the names, the entries, the lookup and its probes, chunks and elements answer. Every call
// opens the image.
#![tactic(auto)]

mod found;

pub use found::{chunk, chunk_place, element, entry, lookup, name, name_bytes, open, search};
