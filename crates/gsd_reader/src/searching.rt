// The search of a reader's entries for a frame and an id.
ghost use Rattle.std.specs.Prelude.{◌≡◌, ◌<◌, Err, MatchResult};
ghost use Rattle.gsd_format.specs.Readers.{fits, find_by, newest_by};
ghost use Rattle.gsd_format.specs.Answers.{refusal_number};
ghost use Rattle.gsd_reader.specs.Queries.{query_of, Asked};

use crate::fit::Fitting;
use gsd_format::{Reader, Refusal};
use gsd_search::{Query, Search};

impl<'a> Fitting<'a> {
    // For an id that the reader has.
    pub(crate) fn search(&self, frame: u64, id: u64) -> Search<'a>
        requires { id < self.now.reader.now.names }
        ensures query { result.query ≡ query_of self.now.reader.now frame id }
        ensures image { result.image.now ≡ self.now.image.now }
    {
        let query = Query {
            index: self.reader.index,
            count: self.reader.entries,
            version: self.reader.version,
            frame,
            id,
        };
        Search {
            image: self.image,
            query,
        }
    }
}

// For any numbers: the tests that find and newest make before they search.
pub(crate) fn search_by<'a>(
    r: &'a Reader,
    image: &'a [u8],
    frame: u64,
    id: u64,
) -> Result<Search<'a>, Refusal>
    ensures { MatchResult result
        (λ s. (s.query ≡ query_of r.now frame id) × (s.image.now ≡ image.now) × Asked r.now image.now frame id)
        (λ why. (find_by r.now image.now frame id ≡ Err (refusal_number why)) × (newest_by r.now image.now frame id ≡ Err (refusal_number why))) }
{
    let here = Fitting::of(r, image)?;
    if here.reader.frames <= frame {
        return Err(Refusal::NoFrame);
    }
    if here.reader.names <= id {
        return Err(Refusal::NoName);
    }
    Ok(here.search(frame, id))
}
