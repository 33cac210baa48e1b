// The fingerprint of a text, as specs/Fingerprint.antt defines it: eight bytes a step, and at most two steps where there are
// under eight. It tells unequal names apart without their bytes; equal ones are still compared.
#![tactic(auto)]

ghost use Rattle.std.specs.Prelude.{◌≡◌, ◌+◌, ◌*◌, ◌≤◌, length};
ghost use Rattle.gsd_format.specs.Bytes.{le};
ghost use Rattle.gsd_fingerprint.specs.Fingerprint as Fingerprint;

use gsd_bytes::{TWO_TO_32, u32_at, u64_at};

// The bytes of a block: a word for each lane.
const BLOCK: usize = 32;

const LOW_FACTOR: u64 = 2654435761;

const HIGH_FACTOR: u64 = 1580030131;

// The products' sum cannot wrap: the factors' sum is below 2^32.
fn mixed(h: u64, w: u64) -> u64
    ensures { result ≡ Fingerprint.mixed h w }
{
    let x = h ^ w;
    LOW_FACTOR * (x % TWO_TO_32) + HIGH_FACTOR * (x / TWO_TO_32)
}

fn mixed_at(h: u64, s: &[u8], at: usize) -> u64
    requires { at + 8 ≤ length s.now }
    ensures { result ≡ Fingerprint.mixed h (le 8 s.now at) }
{
    mixed(h, u64_at(s, at))
}

// Four lanes, so that their multiplications overlap. A text with no whole block, as most names are, takes none of their steps.
fn blocks(s: &[u8], n: usize) -> u64
    requires { 32 * n ≤ length s.now }
    ensures { result ≡ Fingerprint.blocks s.now n }
{
    if n == 0 {
        return 0;
    }
    let mut a = 0;
    let mut b = 0;
    let mut c = 0;
    let mut d = 0;
    for i in 0..n {
        let at = BLOCK * i;
        a = mixed_at(a, s, at);
        b = mixed_at(b, s, at + 8);
        c = mixed_at(c, s, at + 16);
        d = mixed_at(d, s, at + 24);
    }
    mixed(mixed(mixed(mixed(0, a), b), c), d)
}

// n words in a row from `at` on.
fn words(s: &[u8], at: usize, n: usize, start: u64) -> u64
    requires { at + 8 * n ≤ length s.now }
    ensures { result ≡ Fingerprint.lane 8 s.now at n start }
{
    let mut h = start;
    for i in 0..n {
        h = mixed_at(h, s, 8 * i + at);
    }
    h
}

fn ending(s: &[u8]) -> u64
    ensures { result ≡ Fingerprint.ending s.now }
{
    let n = s.len();
    if 8 <= n {
        return u64_at(s, n - 8);
    }
    if 4 <= n {
        return u32_at(s, 0) + TWO_TO_32 * u32_at(s, n - 4);
    }
    if n == 0 {
        return 0;
    }
    u64::from(u32::from_le_bytes([s[0], s[n / 2], s[n - 1], 0]))
}

fn folded(x: u64) -> u32
    ensures { result ≡ Fingerprint.folded x }
{
    (x % TWO_TO_32) as u32 ^ (x / TWO_TO_32) as u32
}

// 32 bits, the same for the same bytes.
pub fn fingerprint(s: &[u8]) -> u32
    ensures { result ≡ Fingerprint.fingerprint s.now }
{
    let n = s.len();
    let whole = n / BLOCK;
    let h = mixed(blocks(s, whole), n as u64);
    folded(mixed(words(s, BLOCK * whole, n % BLOCK / 8, h), ending(s)))
}
