// An input read into bytes that are lent, up to its end or theirs: what a reader gives, or a file.
#![tactic(auto)]

ghost use Rattle.std.specs.Prelude.{◌<◌, ◌≤◌, length, take, IfOk};
ghost use Rattle.std.specs.Io.KnownBytes.{Consumes, IsAtEnd};

use std::io::Read;
use std::rt::Files;
use std::{fs, io};

// Reads until the bytes are full or the reader ends; how many it read. A failed read, also an interrupted one, ends it.
pub fn read_full<R: Read>(reader: &mut R, bytes: &mut [u8]) -> io::Result<usize>
    ensures bound { IfOk result (λ n. n ≤ length bytes.new) }
    ensures read { IfOk result (λ n. Consumes (R.remaining reader.old) (R.remaining reader.new) (take n bytes.new)) }
    ensures end { IfOk result (λ n. n < length bytes.new → IsAtEnd (R.remaining reader.new)) }
{
    let mut done = 0;
    // No loop of std's: `read_to_end` wants a heap, and `read_exact` does not say how much of a short input it has read.
    while done < bytes.len() {
        let n = reader.read(&mut bytes[done..])?;
        if n == 0 {
            return Ok(done);
        }
        done += n;
    }
    Ok(done)
}

// The file at a path, likewise.
pub fn read_file(files: &impl Files, path: &str, bytes: &mut [u8]) -> io::Result<usize>
    ensures { IfOk result (λ n. n ≤ length bytes.new) }
{
    read_full(&mut fs::open(files, path)?, bytes)
}
