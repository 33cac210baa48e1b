// The index block: its entries, their tests, and one walk over them.
ghost use Rattle.std.specs.Prelude.{◌≡◌, ◌+◌, ◌*◌, ◌^◌, ◌≤◌, ◌<◌, false, [], length, IfOk, OnOk};
ghost use Rattle.gsd_format.specs.Types.{size_of, chunk_size};
ghost use Rattle.gsd_format.specs.Header.{greatest_length};
ghost use Rattle.gsd_format.specs.Entries.{entry_at, entries_at, key_of, key};
ghost use Rattle.gsd_format.specs.Answers.{refused};
ghost use Rattle.gsd_format.specs.Opening.{most_names, greatest_frame, entries_test, Blocks};
ghost use Rattle.gsd_open.specs.Index.{keys_end, frames_to, Capped, fields_test, room_test, misplaced_by, entry_test_by, noted, Places, Unnoted, Walks};

use crate::refusal::refuse;
use crate::stretch::share;
use gsd_bytes::{
    GREATEST_FRAME, HEADER_SIZE, MOST_NAMES, SEGMENT_SIZE, SLOT_SIZE, is_10, known, size_of,
    u16_at, u32_at, u64_at,
};
use gsd_format::{Entry, Layout, Refusal};

// A location from here on is negative: it is a signed number.
const NEGATIVE: u64 = 9223372036854775808;

// Ids are below this.
const ID_RANGE: u64 = 65536;

// More bytes than the longest slice has.
const BEYOND: u64 = 1073741825;

// What the walk over the entries finds where it refuses none: the entries, the least key that could follow them and where the
// last of the chunks ends.
#[derive(Clone, Copy)]
pub struct Walk {
    pub entries: u64,
    pub least: u64,
    pub chunks_end: u64,
}

// What an entry is tested by: two good blocks in a slice that is short enough, and how many names are listed.
#[derive(Clone, Copy)]
pub(crate) struct Placed {
    pub layout: Layout,
    pub names: u64,
    ghost good: { Blocks layout },
    ghost short: { layout.len ≤ greatest_length },
    ghost few: { names ≤ most_names },
}

// The entry at a place.
pub fn entry_at(image: &[u8], at: usize) -> Entry
    requires { at + 32 ≤ length image.now }
    ensures { result ≡ entry_at image.now at }
{
    Entry {
        frame: u64_at(image, at),
        n: u64_at(image, at + 8),
        location: u64_at(image, at + 16),
        m: u32_at(image, at + 24) as u32,
        id: u16_at(image, at + 28) as u16,
        kind: image[at + 30],
        flags: image[at + 31],
    }
}

// The bytes of a chunk, cut above the longest slice so that no product wraps.
pub fn chunk_bytes(n: u64, m: u32, kind: u8) -> u64
    ensures { Capped (n * m * size_of kind) result }
{
    n.min(BEYOND) * (m as u64 * size_of(kind)).min(BEYOND)
}

// (frame, id) in its order, as one number: so the definition `key` has it, and one more is the least that may follow.
fn key_of(e: Entry) -> u64
    requires { e.frame ≤ greatest_frame }
    ensures answer { result ≡ key e }
    ensures bound { result < key_of (e.frame + 1) 0 }
{
    ID_RANGE * e.frame + (e.id as u64)
}

// The frames up to the entry before, as least tells them.
pub(crate) fn frames_to(least: u64) -> u64
    requires { least ≤ keys_end }
    ensures { result ≡ frames_to least }
{
    (least + (ID_RANGE - 1)) / ID_RANGE
}

// 12 to 14: the entry by itself.
fn check_fields(version: u64, names: u64, e: Entry) -> Result<(), Refusal>
    ensures { refused result ≡ fields_test version names e }
{
    if e.location < HEADER_SIZE {
        return Err(Refusal::LowLocation);
    }
    if NEGATIVE <= e.location {
        return Err(Refusal::LowLocation);
    }
    if !known(version, e.kind) {
        return Err(Refusal::UnknownType);
    }
    refuse(names <= e.id as u64, Refusal::UnknownId)
}

// May the entry not stand behind those before it? By the least key that may follow, and in 1.0 by the last frames of each id: no
// frame before is higher, so only the last entry with the id can have its frame. Where it may, its frame is now the last. One more than
// the frame is kept, and 0 for none: so the definition `noted` has it, and as Options the 1,024 would take twice the room.
fn misplaced(version: u64, least: u64, last: &mut [u32], e: Entry) -> bool
    requires early { e.frame ≤ greatest_frame }
    requires room { Places version (e.id + 1) last.old }
    ensures value { result ≡ misplaced_by version least last.old e }
    ensures kept { result ≡ false → last.new ≡ noted version last.old e }
{
    if !is_10(version) {
        return key_of(e) < least;
    }
    if ID_RANGE * (e.frame + 1) < least {
        return true;
    }
    let frames = (e.frame + 1) as u32;
    if last[e.id as usize] == frames {
        return true;
    }
    last[e.id as usize] = frames;
    false
}

impl Placed {
    // 16 and 17: n bytes from place a lie in the slice and outside both blocks.
    fn check_room(self, a: u64, n: u64) -> Result<(), Refusal>
        requires place { a < 2 ^ 63 }
        requires size { n ≤ 2 ^ 63 }
        ensures { refused result ≡ room_test self.layout a n }
    {
        let l = self.layout;
        if (l.len as u64) < a + n {
            return Err(Refusal::ChunkOutside);
        }
        if share(a, n, l.index, SLOT_SIZE * l.slots) {
            return Err(Refusal::ChunkInBlock);
        }
        refuse(
            share(a, n, l.namelist, SEGMENT_SIZE * l.segments),
            Refusal::ChunkInBlock,
        )
    }

    // 12 to 18 for one entry, whose chunk has size bytes. Of a frame above the greatest no key is made, which could wrap: it
    // would be above every least.
    fn check_entry(self, least: u64, last: &mut [u32], e: Entry, size: u64) -> Result<(), Refusal>
        requires least { least ≤ keys_end }
        requires room { Places self.layout.version self.names last.old }
        requires sized { Capped (chunk_size e) size }
        ensures value { refused result ≡ entry_test_by self.layout self.names least last.old e }
        ensures kept { OnOk result (last.new ≡ noted self.layout.version last.old e) }
    {
        let version = self.layout.version;
        check_fields(version, self.names, e)?;
        if GREATEST_FRAME < e.frame {
            self.check_room(e.location, size)?;
            return Err(Refusal::LargeFrame);
        }
        if misplaced(version, least, last, e) {
            return Err(Refusal::FrameOrder);
        }
        self.check_room(e.location, size)
    }

    // One pass over the listed entries. What is lent as last has in 1.0 a place for every id, with 0 in it; in 2.x it is not
    // touched.
    fn walk_by(self, image: &[u8], last: &mut [u32]) -> Result<Walk, Refusal>
        requires long { length image.now ≡ self.layout.len }
        requires unnoted { Unnoted self.layout.version last.old }
        ensures number { refused result ≡ entries_test self.layout self.names [] (entries_at image.now self.layout.index self.layout.slots) }
        ensures walk { IfOk result (Walks (entries_at image.now self.layout.index self.layout.slots)) }
    {
        let l = self.layout;
        let mut walk = Walk {
            entries: 0,
            least: 0,
            chunks_end: 0,
        };
        for i in 0..l.slots {
            let e = entry_at(image, (l.index + SLOT_SIZE * i) as usize);
            if e.location == 0 {
                break;
            }
            let size = chunk_bytes(e.n, e.m, e.kind);
            self.check_entry(walk.least, last, e, size)?;
            walk = Walk {
                entries: i + 1,
                least: key_of(e) + 1,
                chunks_end: walk.chunks_end.max(e.location + size),
            };
        }
        Ok(walk)
    }

    // The walk by the version: only 1.0 needs the last frames.
    pub fn walk(self, image: &[u8]) -> Result<Walk, Refusal>
        requires { length image.now ≡ self.layout.len }
        ensures number { refused result ≡ entries_test self.layout self.names [] (entries_at image.now self.layout.index self.layout.slots) }
        ensures walk { IfOk result (Walks (entries_at image.now self.layout.index self.layout.slots)) }
    {
        if is_10(self.layout.version) {
            let mut last = [0u32; MOST_NAMES];
            return self.walk_by(image, &mut last);
        }
        let mut none = [0u32; 1];
        self.walk_by(image, &mut none)
    }
}
