// The walk from the place that the halving ends at: in 2.x over the one entry there, in 1.0 over those of the frame.
ghost use Rattle.std.specs.Prelude.{◌≡◌, ◌≤◌, length};
ghost use Rattle.gsd_format.specs.Answers.{numbered};
ghost use Rattle.gsd_search.specs.Queries.{halved_for, walk_end, probes_for, answer_for};

use crate::probing::Search;
use gsd_bytes::is_10;
use gsd_format::{Entry, Refusal, Searched};

impl Search<'_> {
    // Where the slots end that the walk may read.
    fn walk_end(&self, place: u64) -> u64
        requires { place ≤ self.now.query.count }
        ensures { result ≡ walk_end self.now.query.version place self.now.query.count }
    {
        if is_10(self.query.version) {
            return self.query.count;
        }
        place.saturating_add(1).min(self.query.count)
    }

    // From the place on, up to the entry of the frame and the id or to one of another frame.
    fn walk(&self, place: u64, probes: &mut u64) -> Result<Entry, Refusal>
        requires there { place ≡ (halved_for self.now.image.now self.now.query).place }
        requires made { probes.old ≡ length (halved_for self.now.image.now self.now.query).probes }
        ensures value { numbered result ≡ answer_for self.now.image.now self.now.query }
        ensures counted { probes.new ≡ length (probes_for self.now.image.now self.now.query) }
    {
        let end = self.walk_end(place);
        for i in place..end {
            let e = self.probe(i, probes);
            if e.frame != self.query.frame {
                return Err(Refusal::NoChunk);
            }
            if e.id as u64 == self.query.id {
                return Ok(e);
            }
        }
        Err(Refusal::NoChunk)
    }

    // The entry of a frame and an id, and how many entries were probed.
    pub fn find_entry(&self) -> Searched
        ensures answer { numbered result.answer ≡ answer_for self.now.image.now self.now.query }
        ensures probes { result.probes ≡ length (probes_for self.now.image.now self.now.query) }
    {
        let mut probes = 0;
        let place = self.halve(&mut probes);
        let answer = self.walk(place, &mut probes);
        Searched { answer, probes }
    }
}
