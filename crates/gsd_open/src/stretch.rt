// Stretches of bytes, a start and a count.
ghost use Rattle.std.specs.Prelude.{◌≡◌, ◌+◌, ◌^◌, ◌<◌};
ghost use Rattle.gsd_format.specs.Bytes.{meets};

// Do the n bytes from a and the m bytes from b have one in common?
pub(crate) fn share(a: u64, n: u64, b: u64, m: u64) -> bool
    requires first { a + n < 2 ^ 64 }
    requires second { b + m < 2 ^ 64 }
    ensures { result ≡ meets a n b m }
{
    if b + m <= a {
        return false;
    }
    if n == 0 {
        return false;
    }
    if m == 0 {
        return false;
    }
    b < a + n
}
