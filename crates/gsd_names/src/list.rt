// The names of a block, found in one pass as the places behind them. The version says where a name starts: behind the one
// before it, or in 1.0 at a segment of its own.
ghost use Rattle.std.specs.Prelude.{◌≡◌, true, false, not, ◌&&◌, ◌+◌, ◌*◌, ◌≤◌, ◌<◌, length, get_or, set, ltb, eqb, MatchOption};
ghost use Rattle.gsd_format.specs.Header.{v10, greatest_length};
ghost use Rattle.gsd_names.specs.NameLists.{Past, NamesFound};

use gsd_bytes::{SEGMENT_SIZE, is_10};
use gsd_format::Layout;

// The block's place, and one behind each of the names that there may be.
pub const PLACES: usize = 1025;

pub(crate) const SEGMENT: usize = SEGMENT_SIZE as usize;

// The names of a name block: their number, where their list ends, and whether a name is not closed, which makes the others
// void. Their places are kept beside it, in an array `starts`: that of the block, and where there are at most 1,024 names
// the place behind the zero of each.
#[derive(Clone, Copy)]
pub struct NameList {
    pub count: usize,
    pub list_end: usize,
    // No refusal: name_list answers of every block, and NamesFound says what of one with an open name.
    pub open: bool,
}

// One place more is kept, where there is room. The test stands here: of an array behind get_mut a proof knows the length only.
fn keep(starts: &mut [u32; PLACES], i: usize, at: usize)
    requires { at ≤ greatest_length }
    ensures { starts.new ≡ set starts.old i at }
{
    if i < PLACES {
        starts[i] = at as u32;
    }
}

// Behind the zero of the name that starts here, where one is closed before stop.
fn past_name(image: &[u8], start: usize, stop: usize) -> Option<usize>
    requires ordered { start ≤ stop }
    requires inside { stop ≤ length image.now }
    ensures { MatchOption result (Past image.now start stop start)
        (λ next. (start < next) × Past image.now start stop next) }
{
    let zero = gsd_bytes::first_zero(image, start, stop);
    if zero == start {
        return None;
    }
    if zero == stop {
        return None;
    }
    Some(zero + 1)
}

// That the block lies in a short image is asked for here and below, as name_list asked for it: NamesFound is said of image and layout.
// Does the block go on behind its names, with one that is not closed?
fn goes_on(image: &[u8], l: Layout, end: usize) -> bool
    requires { l.namelist + 64 * l.segments ≤ length image.now }
    ensures { result ≡ (ltb end (l.namelist + 64 * l.segments) && not (eqb (get_or image.now end 0) 0)) }
{
    if (l.namelist + SEGMENT_SIZE * l.segments) as usize <= end {
        return false;
    }
    image[end] != 0
}

// 2.x: one pass over the block. A longer list is counted to its end too: 9 comes before 10. How many names there are is not
// known before, so no range goes over them.
fn joined_list(image: &[u8], l: Layout, starts: &mut [u32; PLACES]) -> NameList
    requires recent { v10 l.version ≡ false }
    requires inside { l.namelist + 64 * l.segments ≤ length image.now }
    requires short { length image.now ≤ greatest_length }
    ensures { NamesFound image.now l starts.new result }
{
    let stop = (l.namelist + SEGMENT_SIZE * l.segments) as usize;
    let mut list_end = l.namelist as usize;
    keep(starts, 0, list_end);
    let mut count = 0;
    while let Some(next) = past_name(image, list_end, stop) {
        count += 1;
        keep(starts, count, next);
        list_end = next;
    }
    NameList {
        count,
        list_end,
        open: goes_on(image, l, list_end),
    }
}

// 1.0: one pass over the segments, counted to the end alike. It ends too at a name that its segment does not close.
fn segment_list(image: &[u8], l: Layout, starts: &mut [u32; PLACES]) -> NameList
    requires segmented { v10 l.version ≡ true }
    requires inside { l.namelist + 64 * l.segments ≤ length image.now }
    requires short { length image.now ≤ greatest_length }
    ensures { NamesFound image.now l starts.new result }
{
    let mut segment = l.namelist as usize;
    keep(starts, 0, segment);
    let segments = l.segments as usize;
    for count in 0..segments {
        let Some(next) = past_name(image, segment, segment + SEGMENT) else {
            return NameList {
                count,
                list_end: segment,
                open: goes_on(image, l, segment),
            };
        };
        keep(starts, count + 1, next);
        segment += SEGMENT;
    }
    NameList {
        count: segments,
        list_end: segment,
        open: false,
    }
}

// The names of the block.
pub fn name_list(image: &[u8], l: Layout, starts: &mut [u32; PLACES]) -> NameList
    requires inside { l.namelist + 64 * l.segments ≤ length image.now }
    requires short { length image.now ≤ greatest_length }
    ensures { NamesFound image.now l starts.new result }
{
    if is_10(l.version) {
        return segment_list(image, l, starts);
    }
    joined_list(image, l, starts)
}
