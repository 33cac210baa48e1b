// What is found in an image: its counts, the n-th entry and name, the entry of a frame and a name, its chunk and elements.
ghost use Rattle.std.specs.Prelude.{◌≡◌, length, Err};
ghost use Rattle.gsd_format.specs.Opening.{verdict, opening};
ghost use Rattle.gsd_format.specs.Lookup.{nth_entry, nth_name, lookup, chunk_place, bytes_at};
ghost use Rattle.gsd_format.specs.Elements.{element};
ghost use Rattle.gsd_format.specs.Answers.{numbered, refused, opening_values, listed_values, place_values, answer_of, element_values};
ghost use Rattle.gsd_format.specs.Calls.{open_values, nth_entry_test, nth_entry_values, nth_name_test, nth_name_values};
ghost use Rattle.gsd_format.specs.Calls.{lookup_test, lookup_values, probes_of, chunk_values, element_test, nth_element_values};
ghost use Rattle.gsd_parts.specs.Parts.{LiesAt};

use gsd_bytes::SLOT_SIZE;
use gsd_elements::Chunk;
use gsd_format::{Counts, Element, Entry, Part, Refusal, Searched};
use gsd_names::PLACES;
use gsd_open::{chunk_bytes, entry_at, survey_of};
use gsd_parts::part_at;
use gsd_search::{Query, Search};

// How many frames, names and entries an image has, or why it is refused.
pub fn open(image: &[u8]) -> Result<Counts, Refusal>
    ensures value { numbered result ≡ opening image.now }
    ensures number { refused result ≡ verdict image.now }
    ensures values { opening_values (numbered result) ≡ open_values image.now }
{
    let mut starts = [0u32; PLACES];
    let s = survey_of(image, &mut starts)?;
    Ok(Counts {
        frames: s.frames,
        names: s.names.count as u64,
        entries: s.entries,
    })
}

// The n-th of the listed entries, from 0.
pub fn entry(image: &[u8], n: u64) -> Result<Entry, Refusal>
    ensures value { numbered result ≡ nth_entry image.now n }
    ensures number { refused result ≡ nth_entry_test image.now n }
    ensures values { listed_values (numbered result) ≡ nth_entry_values image.now n }
{
    let mut starts = [0u32; PLACES];
    let s = survey_of(image, &mut starts)?;
    if s.entries <= n {
        return Err(Refusal::NoNth);
    }
    Ok(entry_at(image, (s.layout.index + SLOT_SIZE * n) as usize))
}

// Where the name with id n lies, without its zero.
pub fn name(image: &[u8], n: u64) -> Result<Part, Refusal>
    ensures value { numbered result ≡ nth_name image.now n }
    ensures number { refused result ≡ nth_name_test image.now n }
    ensures values { place_values (numbered result) ≡ nth_name_values image.now n }
{
    let mut starts = [0u32; PLACES];
    let s = survey_of(image, &mut starts)?;
    if s.names.count as u64 <= n {
        return Err(Refusal::NoNth);
    }
    Ok(s.listed(image, &starts).part(n as usize))
}

// The name with id n as that part of the image itself; a refusal gives an empty part.
pub fn name_bytes(image: &[u8], n: u64) -> &[u8]
    ensures result_value { result.now ≡ bytes_at image.now (nth_name image.now n) }
    ensures itself { LiesAt image.entry.ref_ptr (nth_name image.now n) result.ref_ptr }
{
    part_at(image, name(image, n))
}

// A lookup that ends before its search probes nothing.
fn unsought(why: Refusal) -> Searched
    ensures answer { result.answer ≡ Err why }
    ensures probes { result.probes ≡ 0 }
{
    Searched {
        answer: Err(why),
        probes: 0,
    }
}

// The lookup, and how many entries its search probes. Any bytes may be asked as a name.
pub fn search(image: &[u8], frame: u64, name: &[u8]) -> Searched
    ensures answer { numbered result.answer ≡ lookup image.now frame name.now }
    ensures probes { result.probes ≡ length (probes_of image.now frame name.now) }
{
    let mut starts = [0u32; PLACES];
    let s = match survey_of(image, &mut starts) {
        Ok(s) => s,
        Err(why) => return unsought(why),
    };
    if s.frames <= frame {
        return unsought(Refusal::NoFrame);
    }
    let Some(id) = s.listed(image, &starts).id_of(name) else {
        return unsought(Refusal::NoName);
    };
    let query = Query {
        index: s.layout.index,
        count: s.entries,
        version: s.layout.version,
        frame,
        id: id as u64,
    };
    Search { image, query }.find_entry()
}

// The entry of a frame and a name.
pub fn lookup(image: &[u8], frame: u64, name: &[u8]) -> Result<Entry, Refusal>
    ensures value { numbered result ≡ lookup image.now frame name.now }
    ensures number { refused result ≡ lookup_test image.now frame name.now }
    ensures values { listed_values (numbered result) ≡ lookup_values image.now frame name.now }
{
    search(image, frame, name).answer
}

// Where the chunk of a frame and a name lies, or the lookup's number.
pub fn chunk_place(image: &[u8], frame: u64, name: &[u8]) -> Result<Part, Refusal>
    ensures value { numbered result ≡ chunk_place image.now frame name.now }
    ensures number { refused result ≡ lookup_test image.now frame name.now }
    ensures values { place_values (numbered result) ≡ chunk_values image.now frame name.now }
{
    let e = lookup(image, frame, name)?;
    Ok(Part {
        start: e.location as usize,
        size: chunk_bytes(e.n, e.m, e.kind) as usize,
    })
}

// The chunk of a frame and a name as that part of the image itself; a refusal gives an empty part, and the lookup tells
// it from an empty chunk.
pub fn chunk<'a>(image: &'a [u8], frame: u64, name: &[u8]) -> &'a [u8]
    ensures result_value { result.now ≡ bytes_at image.now (chunk_place image.now frame name.now) }
    ensures itself { LiesAt image.entry.ref_ptr (chunk_place image.now frame name.now) result.ref_ptr }
{
    let place = chunk_place(image, frame, name);
    part_at(image, place)
}

// The k-th element of the chunk of a frame and a name, from 0, with its exact bits.
pub fn element(image: &[u8], frame: u64, name: &[u8], k: u64) -> Element
    ensures value { numbered (answer_of result) ≡ element image.now frame name.now k }
    ensures number { refused (answer_of result) ≡ element_test image.now frame name.now k }
    ensures values { element_values (numbered (answer_of result)) ≡ nth_element_values image.now frame name.now k }
{
    match lookup(image, frame, name) {
        Ok(entry) => Element::from(Chunk { image, entry }.element(k)),
        Err(why) => Element::Refused(why),
    }
}
