// The file of an entry that was found: its head, and the chunk's bytes behind it.
ghost use Rattle.std.specs.Prelude.{◌≡◌, not, ◌++◌, ◌≤◌, length, eqb};
ghost use Rattle.gsd_format.specs.Bytes.{le_bytes, stored};
ghost use Rattle.gsd_format.specs.Refusals.{◌⇒◌, accepted};
ghost use Rattle.gsd_format.specs.Answers.{refused};
ghost use Rattle.gsd_format.specs.Types.{size_of, chunk_size};
ghost use Rattle.gsd_rawarray.specs.File.{raw_magic, raw_type, raw_head, raw_file, raw_length};

use crate::kinds::raw_type;
use crate::words::RAW;
use gsd_bytes::{copy_part, put_text, put_word, size_of};
use gsd_elements::Chunk;
use gsd_format::{Entry, Refusal};
use gsd_open::chunk_bytes;

const HEAD_SIZE: usize = 64;

// Magic, flags, type and width. A slice with 64 bytes here and below: what is said of it is `stored` at a place of the file.
fn put_front(file: &mut [u8], kind: u8)
    requires inside { 64 ≤ length file.old }
    requires kind { kind ≤ 11 }
    ensures { file.new ≡ stored file.old 0 (raw_magic ++ le_bytes 8 0 ++ le_bytes 8 (raw_type kind) ++ le_bytes 8 (size_of kind)) }
{
    put_text(file, 0, &RAW);
    put_word(file, 8, 0);
    put_word(file, 16, raw_type(kind));
    put_word(file, 24, size_of(kind));
}

// The data's length and the dimensions, the fast one first.
fn put_shape(file: &mut [u8], e: Entry, size: u64)
    requires { 64 ≤ length file.old }
    ensures { file.new ≡ stored file.old 32 (le_bytes 8 size ++ le_bytes 8 2 ++ le_bytes 8 e.m ++ le_bytes 8 e.n) }
{
    put_word(file, 32, size);
    put_word(file, 40, 2);
    put_word(file, 48, e.m as u64);
    put_word(file, 56, e.n);
}

// The 64 bytes.
fn put_head(file: &mut [u8], e: Entry, size: u64)
    requires inside { 64 ≤ length file.old }
    requires kind { e.kind ≤ 11 }
    requires size { size ≡ chunk_size e }
    ensures { file.new ≡ stored file.old 0 (raw_head e) }
{
    put_front(file, e.kind);
    put_shape(file, e, size);
}

// The file goes into a slice of its length.
pub fn write_file(chunk: &Chunk<'_>, file: &mut [u8]) -> Result<(), Refusal>
    ensures number { refused result ≡ (not (eqb (length file.old) (raw_length chunk.now.entry)) ⇒ 77) }
    ensures file { file.new
        ≡ accepted (not (eqb (length file.old) (raw_length chunk.now.entry)) ⇒ 77) (raw_file chunk.now.image.now chunk.now.entry) file.old }
{
    let e = chunk.entry;
    let size = chunk_bytes(e.n, e.m, e.kind);
    let start = e.location as usize;
    if file.len() != HEAD_SIZE + size as usize {
        return Err(Refusal::RawArrayLength);
    }
    put_head(file, e, size);
    copy_part(file, HEAD_SIZE, chunk.image, start, size as usize);
    Ok(())
}
