// Whether a reader fits an image, and whether an entry found by it does.
ghost use Rattle.std.specs.Prelude.{◌≡◌, ◌≤◌, length, true, false, MatchResult};
ghost use Rattle.gsd_format.specs.Header.{greatest_length};
ghost use Rattle.gsd_format.specs.Readers.{fits, holds};

use gsd_bytes::{GREATEST_LENGTH, MOST_NAMES, SLOT_SIZE, known};
use gsd_format::{Entry, Reader, Refusal};
use gsd_open::{chunk_bytes, supported};

// A reader and an image that it fits.
#[derive(Clone, Copy)]
pub(crate) struct Fitting<'a> {
    pub reader: &'a Reader,
    pub image: &'a [u8],
    ghost fits: { fits reader.now image.now ≡ true },
}

impl<'a> Fitting<'a> {
    // The two, if the reader may be asked of the image.
    pub fn of(reader: &'a Reader, image: &'a [u8]) -> Result<Fitting<'a>, Refusal>
        ensures { MatchResult result
            (λ here. (here.reader.now ≡ reader.now) × (here.image.now ≡ image.now))
            (λ why. (why ≡ Refusal.NotFitting) × (fits reader.now image.now ≡ false)) }
    {
        if !fits(*reader, image) {
            return Err(Refusal::NotFitting);
        }
        Ok(Fitting { reader, image })
    }
}

// May this reader be asked of this image?
fn fits(r: Reader, image: &[u8]) -> bool
    ensures { result ≡ fits r image.now }
{
    if GREATEST_LENGTH < image.len() {
        return false;
    }
    if !supported(r.version) {
        return false;
    }
    if (MOST_NAMES as u64) < r.names {
        return false;
    }
    let len = image.len() as u64;
    if len < r.index {
        return false;
    }
    if (len - r.index) / SLOT_SIZE < r.entries {
        return false;
    }
    if len < r.namelist {
        return false;
    }
    r.size <= len - r.namelist
}

// Is the entry's type known, and does its chunk lie in the image?
pub(crate) fn holds(r: Reader, image: &[u8], e: Entry) -> bool
    requires { length image.now ≤ greatest_length }
    ensures { result ≡ holds r image.now e }
{
    if !known(r.version, e.kind) {
        return false;
    }
    let len = image.len() as u64;
    if len < e.location {
        return false;
    }
    chunk_bytes(e.n, e.m, e.kind) <= len - e.location
}
