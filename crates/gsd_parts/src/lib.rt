// Parts of an image handed out as they lie: the bytes at a place, and not a copy. It is leaf code: its functions have a
// `requires`.
#![tactic(auto)]

ghost use Rattle.std.specs.Prelude.{◌≡◌, ◌+◌, ◌-◌, ◌≤◌, length};
ghost use Rattle.gsd_format.specs.Bytes.{part};
ghost use Rattle.gsd_format.specs.Lookup.{bytes_at};
ghost use Rattle.gsd_format.specs.Answers.{numbered};
ghost use Rattle.gsd_parts.specs.Parts.{Inside, LiesAt};

use gsd_format::{Part, Refusal};

// The bytes from start up to end, where they lie.
fn stretch(image: &[u8], start: usize, end: usize) -> &[u8]
    requires ordered { start ≤ end }
    requires inside { end ≤ length image.now }
    ensures result_value { result.now ≡ part image.now start (end - start) }
    ensures base { result.ref_ptr.0 ≡ image.entry.ref_ptr.0 }
    ensures offset { result.ref_ptr.1 ≡ image.entry.ref_ptr.1 + start }
{
    &image[start..end]
}

// The part of the image at a place; a refusal's is empty.
pub fn part_at(image: &[u8], place: Result<Part, Refusal>) -> &[u8]
    requires { Inside image.now (numbered place) }
    ensures result_value { result.now ≡ bytes_at image.now (numbered place) }
    ensures itself { LiesAt image.entry.ref_ptr (numbered place) result.ref_ptr }
{
    match place {
        Ok(p) => stretch(image, p.start, p.start + p.size),
        Err(_) => &image[0..0],
    }
}
