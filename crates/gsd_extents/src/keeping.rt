// Whether an extent, which may be anything, keeps to an image of n bytes and a sheet of m. The functions of extent.rt ask for
// one that does.
ghost use Rattle.std.specs.Prelude.{◌≡◌, ◌+◌, ◌*◌, ◌≤◌, leb};
ghost use Rattle.gsd_extents.specs.Exec.{source_keeps, keeps_to};

use crate::extent::{Extent, Kind};

// So many bytes from a on lie within n.
pub fn within(a: usize, bytes: usize, n: usize) -> bool
    ensures { result ≡ leb (a + bytes) n }
{
    if n < bytes {
        return false;
    }
    a <= n - bytes
}

fn words_keep(to: usize, words: usize, n: usize) -> bool
    ensures { result ≡ leb (to + 8 * words) n }
{
    if n / 8 < words {
        return false;
    }
    within(to, 8 * words, n)
}

fn source_keeps(extent: Extent, n: usize, m: usize) -> bool
    requires order { extent.from ≤ extent.until }
    ensures { result ≡ source_keeps n m extent }
{
    match extent.kind {
        Kind::Copy => extent.until <= n,
        Kind::Data => extent.until <= m,
        Kind::Number => true,
        Kind::Name => {
            extent.until <= m && within(extent.value as usize, extent.until - extent.from, n)
        }
    }
}

pub fn keeps(extent: Extent, n: usize, m: usize) -> bool
    ensures { result ≡ keeps_to n m extent }
{
    if extent.to % 8 != 0 {
        return false;
    }
    if !words_keep(extent.to, extent.words, n) {
        return false;
    }
    if extent.until < extent.from {
        return false;
    }
    source_keeps(extent, n, m)
}
