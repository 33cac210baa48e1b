// The names of a reader, one after the other: in 2.x a name starts behind the zero of the one before it, in 1.0 at the next
// segment.
ghost use Rattle.std.specs.Prelude.{◌≡◌, ◌+◌, ◌≤◌, length, [], MatchOption};
ghost use Rattle.gsd_format.specs.Header.{version20, version10};
ghost use Rattle.gsd_format.specs.Readers.{parts_by, nth_part, names_by, ident_in};
ghost use Rattle.gsd_format.specs.Answers.{numbered};
ghost use Rattle.gsd_reader.specs.declared.names.Listed.{Listed};
ghost use Rattle.gsd_reader.specs.Names.{FirstTaken, NextIf, rest_of, NextPart};

use crate::fit::Fitting;
use gsd_bytes::{SEGMENT_SIZE, first_zero, is_10};
use gsd_format::{Part, Refusal};
use gsd_names::same_name;

const SEGMENT: usize = SEGMENT_SIZE as usize;

// Where a name ends, and where the next may start.
#[derive(Clone, Copy)]
pub struct Name {
    pub end: usize,
    pub next: usize,
}

// A name of a list: its id, and where it lies.
#[derive(Clone, Copy)]
pub struct Listed {
    pub id: u64,
    pub part: Part,
}

// 2.x: the name goes up to its zero, which comes before stop. As past_name of gsd_names, which tells the place behind it alone: here both
// versions answer a Name, and in 1.0 the next does not start behind the zero.
fn joined_name(image: &[u8], start: usize, stop: usize) -> Option<Name>
    requires ordered { start ≤ stop }
    requires inside { stop ≤ length image.now }
    ensures { NextIf version20 image.now start stop result }
{
    let end = first_zero(image, start, stop);
    if end == start {
        return None;
    }
    if end == stop {
        return None;
    }
    Some(Name { end, next: end + 1 })
}

// 1.0: it goes up to the first zero of its segment, which lies before stop, or to the segment's end.
fn segment_name(image: &[u8], start: usize, stop: usize) -> Option<Name>
    requires ordered { start ≤ stop }
    requires inside { stop ≤ length image.now }
    ensures { NextIf version10 image.now start stop result }
{
    if stop - start < SEGMENT {
        return None;
    }
    let end = first_zero(image, start, start + SEGMENT);
    if end == start {
        return None;
    }
    Some(Name {
        end,
        next: start + SEGMENT,
    })
}

// The name that starts here, in a list that goes up to stop; none where the list ends.
fn name_here(version: u64, image: &[u8], start: usize, stop: usize) -> Option<Name>
    requires ordered { start ≤ stop }
    requires inside { stop ≤ length image.now }
    ensures { NextIf version image.now start stop result }
{
    if is_10(version) {
        return segment_name(image, start, stop);
    }
    joined_name(image, start, stop)
}

impl Fitting<'_> {
    // The name at start, which then is where the next one may start; none where the list ends.
    fn next_part(&self, start: &mut usize) -> Option<Part>
        requires { start.old ≤ self.now.reader.now.namelist + self.now.reader.now.size }
        ensures { MatchOption result
            (rest_of self.now.reader.now self.now.image.now start.old ≡ [])
            (λ p. NextPart self.now.reader.now self.now.image.now start.old p start.new) }
    {
        let stop = (self.reader.namelist + self.reader.size) as usize;
        let name = name_here(self.reader.version, self.image, *start, stop)?;
        let part = Part {
            start: *start,
            size: name.end - *start,
        };
        *start = name.next;
        Some(part)
    }

    // The first name that a test takes. It may ask of a name that it lies in the image.
    fn first<F: Fn(Listed) -> bool>(&self, test: F) -> Option<Listed>
        requires { (name : Listed) → name.part.start + name.part.size ≤ length self.now.image.now → F.pre test name }
        ensures { FirstTaken (F.post test) (parts_by self.now.reader.now self.now.image.now) result }
    {
        let mut start = self.reader.namelist as usize;
        for id in 0..self.reader.names {
            let part = self.next_part(&mut start)?;
            let name = Listed { id, part };
            if test(name) {
                return Some(name);
            }
        }
        None
    }

    // The id of a name.
    pub(crate) fn ident(&self, name: &[u8]) -> Result<u64, Refusal>
        ensures { numbered result ≡ ident_in (names_by self.now.reader.now self.now.image.now) name.now }
    {
        let image = self.image;
        let Some(found) = self.first(|listed| {
            let end = listed.part.start + listed.part.size;
            same_name(name, &image[listed.part.start..end])
        }) else {
            return Err(Refusal::NoName);
        };
        Ok(found.id)
    }

    // Where the n-th name lies.
    pub(crate) fn part(&self, n: u64) -> Result<Part, Refusal>
        ensures { numbered result ≡ nth_part (parts_by self.now.reader.now self.now.image.now) n }
    {
        let Some(found) = self.first(|listed| listed.id == n) else {
            return Err(Refusal::NoNth);
        };
        Ok(found.part)
    }
}
