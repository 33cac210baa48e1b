// Leaf code of create: a fresh image at the front of a slice that has room for it, header, an empty index block and an
// empty name block.
#![tactic(auto)]

ghost use Rattle.std.specs.Prelude.{◌≡◌, ◌+◌, ◌≤◌, length};
ghost use Rattle.gsd_format.specs.Bytes.{stored};
ghost use Rattle.gsd_format.specs.Header.{application_place, text_size};
ghost use Rattle.gsd_format.specs.Create.{most_units, longest_text, filled, fresh_index_end, fresh_namelist, fresh_namelist_end, fresh};
ghost use Rattle.gsd_fresh.specs.Numbers.{numbers};

use gsd_bytes::{
    APPLICATION_PLACE, HEADER_SIZE, INDEX_PLACE, NAMELIST_PLACE, RESERVED_PLACE, SCHEMA_PLACE,
    SCHEMA_VERSION_PLACE, SEGMENT_SIZE, SEGMENTS_PLACE, SLOT_SIZE, SLOTS_PLACE, TEXT_SIZE,
    VERSION_2_1, VERSION_PLACE, fill_zero, put_half, put_magic, put_text, put_word, rounded,
};

// A fresh image as it is asked for: its texts are short enough, and its blocks small enough.
#[derive(Clone, Copy)]
pub struct Request<'a> {
    pub application: &'a [u8],
    pub schema: &'a [u8],
    pub schema_version: u32,
    pub slots: u64,
    pub segments: u64,
    pub ghost short_application: { length application.now ≤ longest_text },
    pub ghost short_schema: { length schema.now ≤ longest_text },
    pub ghost few_slots: { slots ≤ most_units },
    pub ghost few_segments: { segments ≤ most_units },
}

// A text of the header in its 64 bytes.
fn put_filled(s: &mut [u8], at: usize, t: &[u8])
    requires inside { at + text_size ≤ length s.old }
    requires short { length t.now ≤ longest_text }
    ensures { s.new ≡ stored s.old at (filled t.now) }
{
    put_text(s, at, t);
    fill_zero(s, at + t.len(), at + TEXT_SIZE);
}

impl Request<'_> {
    // Where the index block ends.
    fn index_end(&self) -> u64
        ensures { result ≡ fresh_index_end self.now.slots }
    {
        HEADER_SIZE + SLOT_SIZE * self.slots
    }

    // Where the name block starts,
    fn namelist(&self) -> u64
        ensures { result ≡ fresh_namelist self.now.slots }
    {
        rounded(self.index_end())
    }

    // and where it ends: the image needs no byte behind it.
    pub fn namelist_end(&self) -> u64
        ensures { result ≡ fresh_namelist_end self.now.slots self.now.segments }
    {
        self.namelist() + SEGMENT_SIZE * self.segments
    }

    // The header up to its texts.
    fn put_numbers(&self, s: &mut [u8])
        requires { application_place ≤ length s.old }
        ensures { s.new ≡ stored s.old 0 (numbers self.now.schema_version self.now.slots self.now.segments) }
    {
        put_magic(s);
        put_word(s, INDEX_PLACE, HEADER_SIZE);
        put_word(s, SLOTS_PLACE, self.slots);
        put_word(s, NAMELIST_PLACE, self.namelist());
        put_word(s, SEGMENTS_PLACE, self.segments);
        put_half(s, SCHEMA_VERSION_PLACE, self.schema_version as u64);
        put_half(s, VERSION_PLACE, VERSION_2_1);
    }

    // Header and both blocks. Bytes between the blocks and behind them stay.
    pub fn lay_out(&self, image: &mut [u8])
        requires { fresh_namelist_end self.now.slots self.now.segments ≤ length image.old }
        ensures { image.new
            ≡ fresh image.old self.now.application.now self.now.schema.now self.now.schema_version self.now.slots self.now.segments }
    {
        self.put_numbers(image);
        put_filled(image, APPLICATION_PLACE, self.application);
        put_filled(image, SCHEMA_PLACE, self.schema);
        fill_zero(image, RESERVED_PLACE, self.index_end() as usize);
        fill_zero(
            image,
            self.namelist() as usize,
            self.namelist_end() as usize,
        );
    }
}
