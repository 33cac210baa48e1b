// A print of each name: a number made of its bytes, so that names with two prints are two names.
ghost use Rattle.std.specs.Prelude.{◌≡◌, ℕ, List, ◌+◌, ◌-◌, ◌≤◌, ◌<◌, length, get_or};
ghost use Rattle.gsd_fingerprint.specs.Fingerprint.{fingerprint};
ghost use Rattle.gsd_names.specs.NamePrints.{small_print, Printed, among};

use crate::names::Names;

// A way to make a print of a name.
pub(crate) trait Print {
    ghost print: { List ℕ → ℕ };

    fn of(name: &[u8]) -> u32
        ensures { result ≡ print name.now };
}

// The size and the last byte, as one number.
pub(crate) struct Small;

impl Print for Small {
    ghost print = { small_print };

    fn of(name: &[u8]) -> u32 {
        let n = name.len();
        if n == 0 {
            return 0;
        }
        (256 * (n as u64 % 65536) + u64::from(name[n - 1])) as u32
    }
}

// All the bytes.
pub(crate) struct Whole;

impl Print for Whole {
    ghost print = { fingerprint };

    fn of(name: &[u8]) -> u32 {
        gsd_fingerprint::fingerprint(name)
    }
}

// Each name's print goes to its place in prints.
pub(crate) fn name_prints<P: Print>(names: &Names<'_>, prints: &mut [u32])
    requires { names.now.count ≤ length prints.old }
    ensures { Printed P.print names.now.v10 names.now.image.now names.now.starts.now names.now.count prints.new }
{
    for i in 0..names.count {
        prints[i] = P::of(names.bytes(i));
    }
}

// Does a later name have the i-th one's print? No early end, so that the compiler compares several at a time.
pub(crate) fn echoed(prints: &[u32], i: usize, count: usize) -> bool
    requires some { i < count }
    requires room { count ≤ length prints.now }
    ensures { result ≡ among (get_or prints.now i 0) prints.now (i + 1) (count - (i + 1)) }
{
    let print = prints[i];
    let mut found = false;
    for j in i + 1..count {
        found |= prints[j] == print;
    }
    found
}
