// The listing as one text: what is printed for an input. The image is opened once.
#![tactic(auto)]

ghost use Rattle.std.specs.Prelude.{◌≡◌, ◌++◌, ◌+◌, ◌*◌, ◌≤◌, length, take};
ghost use Rattle.gsd_format.specs.Header.{layout_of};
ghost use Rattle.gsd_format.specs.Entries.{entries_of};
ghost use Rattle.gsd_format.specs.Opening.{verdict};
ghost use Rattle.gsd_format.specs.Listing.{entry_lines, longest_input, listing, printed};

use gsd_bytes::{SLOT_SIZE, put_text};
use gsd_names::PLACES;
use gsd_open::{entry_at, survey_of};
use gsd_text::{Line, counts_line, entry_line, refused_line};

// The listing so far, the first `end` bytes of those that are lent.
#[derive(Drop)]
struct Page<'a> {
    out: &'a mut [u8; 262144],
    end: usize,
}

impl Page<'_> {
    fn put(&mut self, text: &[u8])
        requires { self.old.end + length text.now ≤ 262144 }
        ensures text { take self.new.end self.new.out.now ≡ take self.old.end self.old.out.now ++ text.now }
        ensures end { self.new.end ≡ self.old.end + length text.now }
        ensures same { self.new.out.ghost_name ≡ self.old.out.ghost_name }
    {
        let end = self.end;
        put_text(self.out, end, text);
        self.end = end + text.len();
    }

    fn put_line(&mut self, line: Line)
        requires { self.old.end + 128 ≤ 262144 }
        ensures line { take self.new.end self.new.out.now ≡ take self.old.end self.old.out.now ++ take line.size line.bytes }
        ensures bound { self.new.end ≤ self.old.end + 128 }
        ensures same { self.new.out.ghost_name ≡ self.old.out.ghost_name }
    {
        self.put(line.text());
    }

    // A line for each entry, count of them in the block at index.
    fn put_entries(&mut self, image: &[u8], index: u64, count: u64)
        requires opens { verdict image.now ≡ 0 }
        requires index { index ≡ (layout_of image.now).index }
        requires counted { count ≡ length (entries_of image.now) }
        requires count_in_bounds { self.old.end + 128 * count ≤ 262144 }
        ensures text { take self.new.end self.new.out.now ≡ take self.old.end self.old.out.now ++ entry_lines (entries_of image.now) }
        ensures bound { self.new.end ≤ self.old.end + 128 * count }
        ensures same { self.new.out.ghost_name ≡ self.old.out.ghost_name }
    {
        for i in 0..count {
            let e = entry_at(image, (index + SLOT_SIZE * i) as usize);
            self.put_line(entry_line(e));
        }
    }

    fn put_listing(&mut self, image: &[u8])
        requires short { length image.now ≤ longest_input }
        requires empty { self.old.end ≡ 0 }
        ensures text { take self.new.end self.new.out.now ≡ listing image.now }
        ensures bound { self.new.end ≤ 262144 }
        ensures same { self.new.out.ghost_name ≡ self.old.out.ghost_name }
    {
        let mut starts = [0u32; PLACES];
        match survey_of(image, &mut starts) {
            Ok(s) => {
                self.put_line(counts_line(s.frames, s.names.count as u64, s.entries));
                self.put_entries(image, s.layout.index, s.entries);
            }
            Err(why) => self.put_line(refused_line(why.number())),
        }
    }
}

// The text fits: an input of 65,536 bytes has at most 2,040 entries, and a line has at most 128 bytes. What stands
// behind the text is free. With no heap it stands in bytes that are lent, and its length beside them is answered: what is promised
// here names both.
pub fn print_into(input: &[u8], out: &mut [u8; 262144]) -> usize
    ensures text { take result out.new ≡ printed input.now }
    ensures bound { result ≤ length out.new }
{
    let mut page = Page { out, end: 0 };
    if 65536 < input.len() {
        page.put(b"too long\n");
        return page.end;
    }
    page.put_listing(input);
    page.end
}
