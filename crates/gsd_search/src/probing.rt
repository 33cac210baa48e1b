// A probe: one entry of the index is read, and counted. No other function of the search reads the index.
ghost use Rattle.std.specs.Prelude.{◌≡◌, ◌+◌, get_or};
ghost use Rattle.gsd_format.specs.Lookup.{none};
ghost use Rattle.gsd_search.specs.Queries.{slots_for, probes_for, Fits, Next};

use gsd_bytes::SLOT_SIZE;
use gsd_format::Entry;
use gsd_open::entry_at;

// What is sought, and where: the entry of a frame and an id, in count slots from index on, in the order of a version.
#[derive(Clone, Copy)]
pub struct Query {
    pub index: u64,
    pub count: u64,
    pub version: u64,
    pub frame: u64,
    pub id: u64,
}

// The search for it, in an image that its slots lie in.
#[derive(Clone, Copy)]
pub struct Search<'a> {
    pub image: &'a [u8],
    pub query: Query,
    ghost fits: { Fits image.now query },
}

impl Search<'_> {
    // The entry in slot i. Each call is the next of the probes that are defined for the query.
    pub(crate) fn probe(&self, i: u64, probes: &mut u64) -> Entry
        requires { Next (probes_for self.now.image.now self.now.query) probes.old i }
        ensures value { result ≡ get_or (slots_for self.now.image.now self.now.query) i none }
        ensures counted { probes.new ≡ probes.old + 1 }
    {
        *probes += 1;
        entry_at(self.image, (self.query.index + SLOT_SIZE * i) as usize)
    }
}
