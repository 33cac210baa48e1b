// What a table asks of an image without a call: where its use ends, a word of it, whether a text stands in it, and whether
// it is as it was kept.
use crate::bench::{Bench, ROOM};
use gsd_bytes::{INDEX_PLACE, SLOTS_PLACE, u64_at};
use gsd_format::Refusal;
use gsd_lines::words::Look;
use gsd_lines::{Line, Span};
use gsd_open::{Survey, survey_of};

// The survey of an image that an entry keeps from opening, as if its list ended before that entry: in a copy the list is empty and
// grows, entry by entry, as long as the copy opens.
fn before_bad(image: &[u8]) -> Option<Survey> {
    let mut copy = [0u8; ROOM];
    let copy = copy.get_mut(..image.len())?;
    copy.copy_from_slice(image);
    let index = word_at(image, INDEX_PLACE)? as usize;
    let slots = word_at(image, SLOTS_PLACE)?.min(ROOM as u64) as usize;
    copy.get_mut(index..index.wrapping_add(32 * slots))?.fill(0);
    let mut found = None;
    for i in 0..slots {
        let mut starts = [0u32; gsd_names::PLACES];
        let Ok(s) = survey_of(copy, &mut starts) else {
            break;
        };
        found = Some(s);
        let place = index.wrapping_add(32 * i);
        let slot = image.get(place..)?.get(..32)?;
        copy.get_mut(place..)?.get_mut(..32)?.copy_from_slice(slot);
    }
    found
}

// The survey of an image whose header, blocks and names are good.
fn survey(image: &[u8]) -> Option<Survey> {
    let mut starts = [0u32; gsd_names::PLACES];
    match survey_of(image, &mut starts) {
        Ok(s) => Some(s),
        Err(
            Refusal::LowLocation
            | Refusal::UnknownType
            | Refusal::UnknownId
            | Refusal::FrameOrder
            | Refusal::ChunkOutside
            | Refusal::ChunkInBlock
            | Refusal::LargeFrame,
        ) => before_bad(image),
        Err(_) => None,
    }
}

// Of blocks and listed chunks, or of a header alone, in full 64 bytes.
fn end_of_use(image: &[u8]) -> u64 {
    let Some(s) = survey(image) else {
        return 256;
    };
    let index = s.layout.index.wrapping_add(32 * (s.layout.slots % 65536));
    let names = s
        .layout
        .namelist
        .wrapping_add(64 * (s.layout.segments % 65536));
    let end = index.max(names).max(s.chunks_end).max(256);
    end.wrapping_add(63) / 64 * 64
}

fn word_at(image: &[u8], at: usize) -> Option<u64> {
    if image.len() < 8 || image.len() - 8 < at {
        return None;
    }
    Some(u64_at(image, at))
}

// Places are numbers of 16 bits here.
fn has(image: &[u8], at: u64, text: &[u8]) -> bool {
    let span = Span {
        start: (at % 65536) as usize,
        end: (at.wrapping_add(text.len() as u64) % 65536) as usize,
    };
    span.of(image) == text
}

// The number that such a word asks for. Of a word beyond the image it is the greatest: the answer is printed as a number.
pub fn look(word: Look, line: Line, table: &[u8], bench: &Bench) -> u64 {
    let n = line.numbers[2];
    match word {
        Look::End => end_of_use(bench.lent()),
        Look::Word => word_at(&bench.image, n as usize).unwrap_or(u64::MAX),
        Look::Has => has(&bench.image, n, line.texts[1].of(table)) as u64,
        Look::Same => (bench.image == bench.kept) as u64,
    }
}
