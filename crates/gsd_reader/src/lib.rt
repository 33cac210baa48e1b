// A reader: an image is opened once, then read without its tests. Any reader may be offered with any image; what does not
// fit is refused with 33. One that opening gave answers as of its moment, whatever appends are made to the image later.
#![tactic(auto)]

mod fit;
mod found;
mod names;
mod newest;
mod searching;

pub use found::{
    chunk_by, chunk_place_by, element_by, entry_by, find_by, id_by, lookup_by, name_by,
    name_bytes_by, newest_by, open_reader,
};
