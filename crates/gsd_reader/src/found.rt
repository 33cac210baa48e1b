// The reader's calls. None has a `requires`: any reader may be asked of any image.
ghost use Rattle.std.specs.Prelude.{◌≡◌, ◌≤◌, length, Ok};
ghost use Rattle.gsd_format.specs.Header.{greatest_length};
ghost use Rattle.gsd_format.specs.Opening.{most_names};
ghost use Rattle.gsd_format.specs.Lookup.{bytes_at};
ghost use Rattle.gsd_format.specs.Answers.{numbered, answer_of};
ghost use Rattle.gsd_format.specs.Readers.{reading, entry_by, name_by, id_by, find_by, lookup_by, newest_by};
ghost use Rattle.gsd_format.specs.Readers.{chunk_for, chunk_place_by, element_for, element_by};
ghost use Rattle.gsd_parts.specs.Parts.{LiesAt};
ghost use Rattle.gsd_reader.specs.Sizes.{size_in};

use crate::fit::{Fitting, holds};
use crate::newest::newest_entry;
use crate::searching::search_by;
use gsd_bytes::{SEGMENT_SIZE, SLOT_SIZE, is_10};
use gsd_elements::Chunk;
use gsd_format::{Element, Entry, Number, Part, Reader, Refusal};
use gsd_names::PLACES;
use gsd_open::{Survey, chunk_bytes, entry_at, survey_of};
use gsd_parts::part_at;

// How many bytes the list of names takes, of an image that opens.
fn list_size(s: Survey) -> u64
    requires counted { s.names.count ≤ most_names }
    requires above { s.layout.namelist ≤ s.names.list_end }
    ensures { result ≡ size_in s }
{
    if is_10(s.layout.version) {
        return SEGMENT_SIZE * s.names.count as u64;
    }
    s.names.list_end as u64 - s.layout.namelist
}

// Opens the image: all its tests, once.
pub fn open_reader(image: &[u8]) -> Result<Reader, Refusal>
    ensures { numbered result ≡ reading image.now }
{
    let mut starts = [0u32; PLACES];
    let s = survey_of(image, &mut starts)?;
    Ok(Reader {
        frames: s.frames,
        names: s.names.count as u64,
        entries: s.entries,
        index: s.layout.index,
        namelist: s.layout.namelist,
        size: list_size(s),
        version: s.layout.version,
    })
}

// The n-th entry, from 0.
pub fn entry_by(r: Reader, image: &[u8], n: u64) -> Result<Entry, Refusal>
    ensures { numbered result ≡ entry_by r image.now n }
{
    let here = Fitting::of(&r, image)?;
    if here.reader.entries <= n {
        return Err(Refusal::NoNth);
    }
    Ok(entry_at(here.image, (here.reader.index + SLOT_SIZE * n) as usize))
}

// Where the name with id n lies, without its zero.
pub fn name_by(r: Reader, image: &[u8], n: u64) -> Result<Part, Refusal>
    ensures { numbered result ≡ name_by r image.now n }
{
    Fitting::of(&r, image)?.part(n)
}

// The name with id n as that part of the image itself; a refusal gives an empty part.
pub fn name_bytes_by(r: Reader, image: &[u8], n: u64) -> &[u8]
    ensures result_value { result.now ≡ bytes_at image.now (name_by r image.now n) }
    ensures itself { LiesAt image.entry.ref_ptr (name_by r image.now n) result.ref_ptr }
{
    part_at(image, name_by(r, image, n))
}

// A name's id: with it find and newest answer without the names. Any bytes may be asked as a name.
pub fn id_by(r: Reader, image: &[u8], name: &[u8]) -> Result<u64, Refusal>
    ensures { numbered result ≡ id_by r image.now name.now }
{
    Fitting::of(&r, image)?.ident(name)
}

// The entry of a frame and an id.
pub fn find_by(r: Reader, image: &[u8], frame: u64, id: u64) -> Result<Entry, Refusal>
    ensures { numbered result ≡ find_by r image.now frame id }
{
    search_by(&r, image, frame, id)?.find_entry().answer
}

// The entry of a frame and a name.
pub fn lookup_by(r: Reader, image: &[u8], frame: u64, name: &[u8]) -> Result<Entry, Refusal>
    ensures { numbered result ≡ lookup_by r image.now frame name.now }
{
    let here = Fitting::of(&r, image)?;
    if here.reader.frames <= frame {
        return Err(Refusal::NoFrame);
    }
    let id = here.ident(name)?;
    here.search(frame, id).find_entry().answer
}

// The entry of an id in the newest frame at or below one.
pub fn newest_by(r: Reader, image: &[u8], frame: u64, id: u64) -> Result<Entry, Refusal>
    ensures { numbered result ≡ newest_by r image.now frame id }
{
    newest_entry(&search_by(&r, image, frame, id)?)
}

// The place of an entry's chunk. Here and below of a short image, and no Fitting: lookup_by has found that the reader fits, and `holds`
// asks no more of it than its version.
fn chunk_of(r: Reader, image: &[u8], e: Entry) -> Result<Part, Refusal>
    requires { length image.now ≤ greatest_length }
    ensures { numbered result ≡ chunk_for r image.now (Ok e) }
{
    if !holds(r, image, e) {
        return Err(Refusal::NotFitting);
    }
    Ok(Part {
        start: e.location as usize,
        size: chunk_bytes(e.n, e.m, e.kind) as usize,
    })
}

// Where the chunk of a frame and a name lies.
pub fn chunk_place_by(r: Reader, image: &[u8], frame: u64, name: &[u8]) -> Result<Part, Refusal>
    ensures { numbered result ≡ chunk_place_by r image.now frame name.now }
{
    chunk_of(r, image, lookup_by(r, image, frame, name)?)
}

// The chunk of a frame and a name as that part of the image itself; a refusal gives an empty part.
pub fn chunk_by<'a>(r: Reader, image: &'a [u8], frame: u64, name: &[u8]) -> &'a [u8]
    ensures result_value { result.now ≡ bytes_at image.now (chunk_place_by r image.now frame name.now) }
    ensures itself { LiesAt image.entry.ref_ptr (chunk_place_by r image.now frame name.now) result.ref_ptr }
{
    let place = chunk_place_by(r, image, frame, name);
    part_at(image, place)
}

// The k-th element of an entry's chunk.
fn element_of(r: Reader, image: &[u8], entry: Entry, k: u64) -> Result<Number, Refusal>
    requires { length image.now ≤ greatest_length }
    ensures { numbered result ≡ element_for r image.now (Ok entry) k }
{
    if holds(r, image, entry) {
        return Chunk { image, entry }.element(k);
    }
    Err(Refusal::NotFitting)
}

// The k-th element of the chunk of a frame and a name, from 0, with its exact bits.
pub fn element_by(r: Reader, image: &[u8], frame: u64, name: &[u8], k: u64) -> Element
    ensures { numbered (answer_of result) ≡ element_by r image.now frame name.now k }
{
    match lookup_by(r, image, frame, name) {
        Ok(entry) => Element::from(element_of(r, image, entry, k)),
        Err(why) => Element::Refused(why),
    }
}
