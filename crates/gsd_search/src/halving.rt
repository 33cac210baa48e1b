// The search of an entry by halving, to the place of its frame and its id.
ghost use Rattle.std.specs.Prelude.{◌≡◌, ◌<◌, length, ltb};
ghost use Rattle.gsd_format.specs.Entries.{id_range, key_of, key};
ghost use Rattle.gsd_format.specs.Search.{first_id};
ghost use Rattle.gsd_search.specs.Queries.{halved_for};

use crate::probing::Search;
use gsd_bytes::is_10;
use gsd_format::Entry;

// Is the entry below a frame and an id, in the order of the index?
fn below(e: Entry, frame: u64, id: u64) -> bool
    requires { id < id_range }
    ensures { result ≡ ltb (key e) (key_of frame id) }
{
    (e.frame, e.id as u64) < (frame, id)
}

// The id that the halving goes to: in 1.0, where ids are in no order, the first of all.
fn first_id(version: u64, id: u64) -> u64
    ensures { result ≡ first_id version id }
{
    if is_10(version) {
        return 0;
    }
    id
}

impl Search<'_> {
    // The number of the first entry that is not below the frame and that id.
    pub fn halve(&self, probes: &mut u64) -> u64
        requires { probes.old ≡ 0 }
        ensures value { result ≡ (halved_for self.now.image.now self.now.query).place }
        ensures counted { probes.new ≡ length (halved_for self.now.image.now self.now.query).probes }
    {
        let id = first_id(self.query.version, self.query.id);
        let mut lo = 0;
        let mut n = self.query.count;
        // No `for`: no number counts the steps, since what is left is halved until nothing is.
        while 0 < n {
            let half = n / 2;
            let mid = lo + half;
            let e = self.probe(mid, probes);
            if below(e, self.query.frame, id) {
                lo = mid + 1;
                n = n - half - 1;
                continue;
            }
            n = half;
        }
        lo
    }
}
