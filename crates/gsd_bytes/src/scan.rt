// The search for a zero byte: near ones byte by byte, far ones by blocks.
ghost use Rattle.std.specs.Prelude.{◌≡◌, ◌+◌, ◌-◌, ◌≤◌, length};
ghost use Rattle.gsd_format.specs.Bytes.{zero_in};
ghost use Rattle.gsd_bytes.specs.Zeros.{Clear, FirstZero};

const BLOCK: usize = 32;

// Here and below a slice and two places, and not the slice between them: what is found is a place in the image, and of a part each
// caller would add its start to it.
fn near_zero(s: &[u8], from: usize, to: usize) -> usize
    requires ordered { from ≤ to }
    requires inside { to ≤ length s.now }
    ensures { FirstZero s.now from to result }
{
    for i in from..to {
        if s[i] == 0 {
            return i;
        }
    }
    to
}

// Every byte is looked at, also behind a zero: without a way out the compiler compares sixteen bytes at once.
// `contains` is not inlined here, and took 2.4 times as long for 64 KiB.
fn zero_in_block(s: &[u8], at: usize) -> bool
    requires { at + 32 ≤ length s.now }
    ensures { result ≡ zero_in s.now at 32 }
{
    let mut found = false;
    for k in 0..BLOCK {
        found = found | (s[at + k] == 0);
    }
    found
}

// Past the blocks that hold no zero.
fn past_blocks(s: &[u8], from: usize, to: usize) -> usize
    requires ordered { from ≤ to }
    requires inside { to ≤ length s.now }
    ensures { Clear s.now from to result }
{
    let blocks = (to - from) / BLOCK;
    for k in 0..blocks {
        let at = from + BLOCK * k;
        if zero_in_block(s, at) {
            return at;
        }
    }
    from + BLOCK * blocks
}

// The place of the first zero from `from` on, or `to`. Most names end in the first block. No Option: FirstZero says `to`, and where a name
// is not closed it is the end that segment_name (gsd_reader) takes.
pub fn first_zero(s: &[u8], from: usize, to: usize) -> usize
    requires ordered { from ≤ to }
    requires inside { to ≤ length s.now }
    ensures { FirstZero s.now from to result }
{
    if to - from < BLOCK {
        return near_zero(s, from, to);
    }
    let near = from + BLOCK;
    let r = near_zero(s, from, near);
    if r < near {
        return r;
    }
    near_zero(s, past_blocks(s, near, to), to)
}

// Is there a zero among the bytes from `from` up to `to`?
pub fn has_zero(s: &[u8], from: usize, to: usize) -> bool
    requires ordered { from ≤ to }
    requires inside { to ≤ length s.now }
    ensures { result ≡ zero_in s.now from (to - from) }
{
    s[from..to].contains(&0)
}
