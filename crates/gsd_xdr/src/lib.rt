// Big-endian numbers, as XDR has them: one stored at a place, and those of a stretch stored in a row. It is leaf code: its functions
// have a `requires`.
#![tactic(auto)]

ghost use Rattle.std.specs.Prelude.{◌≡◌, ◌+◌, ◌*◌, ◌≤◌, length};
ghost use Rattle.gsd_format.specs.Bytes.{stored};
ghost use Rattle.gsd_xdr.specs.Xdr.{be_bytes, be_row, numbers};

use gsd_bytes::{Pattern, put_half, put_word};

// A number of four bytes or of eight. Turned and stored it compiles to a byte swap and one store.
pub trait Number: Pattern {
    // Its bytes go into s from `at` on, the highest first.
    fn put_be(self, s: &mut [u8], at: usize)
        requires { at + Self.SIZE ≤ length s.old }
        ensures { s.new ≡ stored s.old at (be_bytes Self.SIZE (Self.bits self)) };
}

impl Number for u32 {
    fn put_be(self, s: &mut [u8], at: usize) {
        put_half(s, at, self.swap_bytes() as u64);
    }
}

impl Number for u64 {
    fn put_be(self, s: &mut [u8], at: usize) {
        put_word(s, at, self.swap_bytes());
    }
}

// The i-th of the little-endian numbers that stand in s from `from` on goes into out, as the i-th from `to` on.
fn put_one<N: Number>(s: &[u8], from: usize, i: usize, out: &mut [u8], to: usize)
    requires from { from + (i + 1) * N.SIZE ≤ length s.now }
    requires to { to + (i + 1) * N.SIZE ≤ length out.old }
    ensures { out.new ≡ stored out.old (to + i * N.SIZE) (be_bytes N.SIZE (numbers N.SIZE s.now from i)) }
{
    N::at(s, from + i * N::SIZE).put_be(out, to + i * N::SIZE);
}

// The n numbers. They go two a round: one a round the compiler would turn by shuffles of words, which of doubles take twice as long.
pub fn put_all<N: Number>(s: &[u8], from: usize, n: usize, out: &mut [u8], to: usize)
    requires from { from + n * N.SIZE ≤ length s.now }
    requires to { to + n * N.SIZE ≤ length out.old }
    ensures { out.new ≡ stored out.old to (be_row N.SIZE (numbers N.SIZE s.now from) n) }
{
    for pair in 0..n / 2 {
        put_one::<N>(s, from, pair * 2, out, to);
        put_one::<N>(s, from, pair * 2 + 1, out, to);
    }
    if n % 2 == 1 {
        put_one::<N>(s, from, n - 1, out, to);
    }
}
