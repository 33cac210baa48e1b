// The newest entry of an id at or below a frame: from the place behind all that could be it, down.
ghost use Rattle.std.specs.Prelude.{◌≡◌, ◌+◌, ◌^◌, ◌≤◌, ◌<◌};
ghost use Rattle.gsd_format.specs.Entries.{id_range};
ghost use Rattle.gsd_format.specs.Readers.{place_behind, last_before};
ghost use Rattle.gsd_format.specs.Answers.{numbered};
ghost use Rattle.gsd_search.specs.Queries.{slots_for};
ghost use Rattle.gsd_reader.specs.Queries.{behind_of};

use gsd_bytes::{SLOT_SIZE, is_10};
use gsd_format::{Entry, Refusal};
use gsd_open::entry_at;
use gsd_search::{Query, Search};

// The first place behind: that of the next id, or in 1.0, where ids are in no order, of the next frame.
fn behind(q: Query) -> Query
    requires frame { q.frame + 1 < 2 ^ 64 }
    requires id { q.id + 1 < id_range }
    ensures { result ≡ behind_of q }
{
    if is_10(q.version) {
        return Query {
            frame: q.frame + 1,
            id: 0,
            ..q
        };
    }
    Query { id: q.id + 1, ..q }
}

// The last entry with the id before a place.
fn last_before(s: &Search<'_>, place: u64) -> Result<Entry, Refusal>
    requires { place ≤ s.now.query.count }
    ensures { numbered result ≡ last_before s.now.query.id (slots_for s.now.image.now s.now.query) place }
{
    for i in (0..place).rev() {
        let e = entry_at(s.image, (s.query.index + SLOT_SIZE * i) as usize);
        if e.id as u64 == s.query.id {
            return Ok(e);
        }
    }
    Err(Refusal::NoChunk)
}

// The entry of the id in the newest frame at or below the query's.
pub(crate) fn newest_entry(s: &Search<'_>) -> Result<Entry, Refusal>
    requires frame { s.now.query.frame + 1 < 2 ^ 64 }
    requires id { s.now.query.id + 1 < id_range }
    ensures { numbered result ≡ last_before s.now.query.id (slots_for s.now.image.now s.now.query)
        (place_behind s.now.query.version s.now.query.frame s.now.query.id (slots_for s.now.image.now s.now.query)) }
{
    let mut probes = 0;
    let behind = Search {
        image: s.image,
        query: behind(s.query),
    };
    let place = behind.halve(&mut probes);
    last_before(s, place)
}
