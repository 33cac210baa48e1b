// What a file says of its dimensions: N, M, and where the data behind them begin.
ghost use Rattle.std.specs.Prelude.{◌≡◌, ◌≤◌, false, length, MatchOption};
ghost use Rattle.gsd_rawarray.specs.Requests.{dimensioned};
ghost use Rattle.gsd_rawarray.specs.Heads.{Dimensioned};

use gsd_bytes::u64_at;

// The magic.
pub const RAW: [u8; 8] = *b"rawarray";

// N, M, and where the data begin.
#[derive(Clone, Copy, Debug, PartialEq, Eq)]
pub struct Dimensions {
    pub rows: u64,
    pub columns: u64,
    pub start: usize,
}

// Of a file that has one dimension, which is N by 1, or two, and all of them.
pub fn dimensions_in(file: &[u8]) -> Option<Dimensions>
    requires { 48 ≤ length file.now }
    ensures { MatchOption result (dimensioned file.now ≡ false) (Dimensioned file.now) }
{
    match u64_at(file, 40) {
        1 if 56 <= file.len() => Some(Dimensions {
            rows: u64_at(file, 48),
            columns: 1,
            start: 56,
        }),
        2 if 64 <= file.len() => Some(Dimensions {
            rows: u64_at(file, 56),
            columns: u64_at(file, 48),
            start: 64,
        }),
        _ => None,
    }
}
