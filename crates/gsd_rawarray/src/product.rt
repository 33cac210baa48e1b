// Whether a length is a product of three numbers, which may be too large for any register.
ghost use Rattle.std.specs.Prelude.{◌≡◌, ◌*◌, eqb};

// Is size the whole number n * m * width? It is divided, so that nothing wraps.
pub fn is_product(size: u64, n: u64, m: u64, width: u64) -> bool
    ensures { result ≡ eqb size (n * m * width) }
{
    if width == 0 || m == 0 {
        return size == 0;
    }
    let count = size / width;
    (size % width == 0) & (count % m == 0) & (count / m == n)
}
