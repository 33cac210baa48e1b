// The header and the two blocks it names.
ghost use Rattle.std.specs.Prelude.{◌≡◌, ◌+◌, ◌*◌, ◌≤◌, ◌<◌, not, ◌||◌, length, ltb};
ghost use Rattle.gsd_format.specs.Bytes.{zero_in};
ghost use Rattle.gsd_format.specs.Header.{supported, header_size, greatest_length, application_place, schema_place, text_size, layout_of};
ghost use Rattle.gsd_format.specs.Answers.{refused};
ghost use Rattle.gsd_format.specs.Opening.{header_test, blocks_test};

use crate::refusal::refuse;
use crate::stretch::share;
use gsd_bytes::{
    APPLICATION_PLACE, GREATEST_LENGTH, HEADER_SIZE, INDEX_PLACE, NAMELIST_PLACE, RESERVED_PLACE,
    SCHEMA_PLACE, SEGMENT_SIZE, SEGMENTS_PLACE, SLOT_SIZE, SLOTS_PLACE, VERSION_2_0, VERSION_2_1,
    VERSION_PLACE, has_magic, has_zero, is_10, u32_at, u64_at,
};
use gsd_format::{Layout, Refusal};

// Is application or schema without a zero byte?
fn text_open(image: &[u8]) -> bool
    requires { header_size ≤ length image.now }
    ensures { result ≡ (not (zero_in image.now application_place text_size) || not (zero_in image.now schema_place text_size)) }
{
    if !has_zero(image, APPLICATION_PLACE, SCHEMA_PLACE) {
        return true;
    }
    !has_zero(image, SCHEMA_PLACE, RESERVED_PLACE)
}

// Does an image of this version open?
pub fn supported(version: u64) -> bool
    ensures { result ≡ supported version }
{
    if is_10(version) {
        return true;
    }
    if version == VERSION_2_0 {
        return true;
    }
    version == VERSION_2_1
}

// 1 to 5: the slice's length, the magic, the version, application and schema.
pub(crate) fn check_header(image: &[u8]) -> Result<(), Refusal>
    ensures { refused result ≡ header_test image.now }
{
    if image.len() < HEADER_SIZE as usize {
        return Err(Refusal::ShortImage);
    }
    if GREATEST_LENGTH < image.len() {
        return Err(Refusal::LongImage);
    }
    if !has_magic(image) {
        return Err(Refusal::WrongMagic);
    }
    if !supported(u32_at(image, VERSION_PLACE)) {
        return Err(Refusal::WrongVersion);
    }
    refuse(text_open(image), Refusal::UnclosedText)
}

// The slice's length, the version and the four numbers of the two blocks.
pub(crate) fn layout_of(image: &[u8]) -> Layout
    requires { header_size ≤ length image.now }
    ensures { result ≡ layout_of image.now }
{
    Layout {
        len: image.len(),
        version: u32_at(image, VERSION_PLACE),
        index: u64_at(image, INDEX_PLACE),
        slots: u64_at(image, SLOTS_PLACE),
        namelist: u64_at(image, NAMELIST_PLACE),
        segments: u64_at(image, SEGMENTS_PLACE),
    }
}

// Does a block of so many units not lie between the header and the slice's end?
fn outside(len: usize, start: u64, unit: u64, count: u64) -> bool
    requires { 0 < unit }
    ensures { result ≡ (ltb start header_size || ltb len (start + unit * count)) }
{
    let end = len as u64;
    if start < HEADER_SIZE {
        return true;
    }
    if end < start {
        return true;
    }
    (end - start) / unit < count
}

// 6 to 8: where the blocks lie. It is the test that makes a Placed, so it asks for the length itself.
pub(crate) fn check_blocks(l: Layout) -> Result<(), Refusal>
    requires { l.len ≤ greatest_length }
    ensures { refused result ≡ blocks_test l }
{
    if outside(l.len, l.index, SLOT_SIZE, l.slots) {
        return Err(Refusal::IndexOutside);
    }
    if outside(l.len, l.namelist, SEGMENT_SIZE, l.segments) {
        return Err(Refusal::NamesOutside);
    }
    let meet = share(
        l.index,
        SLOT_SIZE * l.slots,
        l.namelist,
        SEGMENT_SIZE * l.segments,
    );
    refuse(meet, Refusal::BlocksOverlap)
}
