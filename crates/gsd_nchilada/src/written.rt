// 60 to 64 of an entry that was found, and the writing of its file.
ghost use Rattle.std.specs.Prelude.{◌≡◌, true, ◌&&◌, ◌*◌, ◌≤◌, ◌<◌, length};
ghost use Rattle.gsd_format.specs.Bytes.{stored};
ghost use Rattle.gsd_format.specs.Header.{greatest_length};
ghost use Rattle.gsd_format.specs.Answers.{refused};
ghost use Rattle.gsd_format.specs.Elements.{any_nan};
ghost use Rattle.gsd_body.specs.Body.{one_or_three, body_of};
ghost use Rattle.gsd_nchilada.specs.File.{time_of, file_of, file_length};
ghost use Rattle.gsd_nchilada.specs.Request.{floating, file_test, accepted};
ghost use Rattle.gsd_nchilada.specs.Ready.{Ready};

use crate::head::{is_finite, put_head, time_of};
use gsd_bytes::{DOUBLE, FLOAT, any_nan, size_of};
use gsd_elements::Chunk;
use gsd_format::{Entry, Refusal};

const HEAD_SIZE: u64 = 28;

// Floats or doubles, in one column or three?
fn is_writable(kind: u8, m: u32) -> bool
    ensures { result ≡ (floating kind && one_or_three m) }
{
    ((kind == FLOAT) | (kind == DOUBLE)) & ((m == 1) | (m == 3))
}

// Is an element of the chunk a NaN?
fn has_nan(chunk: &Chunk<'_>) -> bool
    requires { floating chunk.now.entry.kind ≡ true }
    ensures { result ≡ any_nan chunk.now.entry.kind chunk.now.image.now chunk.now.entry.location (chunk.now.entry.n * chunk.now.entry.m) }
{
    let e = chunk.entry;
    let at = e.location as usize;
    let count = (e.n * e.m as u64) as usize;
    if e.kind == FLOAT {
        return any_nan::<u32>(chunk.image, at, count);
    }
    any_nan::<u64>(chunk.image, at, count)
}

// The bytes of the file.
fn file_length(e: Entry) -> u64
    requires rows { e.n ≤ greatest_length }
    requires columns { one_or_three e.m ≡ true }
    ensures { result ≡ file_length e }
{
    HEAD_SIZE + (2 + e.n) * e.m as u64 * size_of(e.kind)
}

// Why the file cannot be written into so many bytes. The time comes with the step that it was made of.
fn check_file(chunk: &Chunk<'_>, step: f64, time: f64, room: usize) -> Result<(), Refusal>
    requires { time ≡ time_of chunk.now.entry.frame step }
    ensures { refused result ≡ file_test chunk.now.image.now chunk.now.entry step room }
{
    let e = chunk.entry;
    let writable = is_writable(e.kind, e.m);
    let rows = e.n;
    if !writable {
        return Err(Refusal::NotFloats);
    }
    if rows == 0 {
        return Err(Refusal::NoRows);
    }
    let nan = has_nan(chunk);
    let finite = is_finite(step) & is_finite(time);
    if nan {
        return Err(Refusal::NanInChunk);
    }
    if !finite {
        return Err(Refusal::NotFinite);
    }
    if room as u64 != file_length(e) {
        return Err(Refusal::FileLength);
    }
    Ok(())
}

// Extremes and data, behind the head.
fn put_body(chunk: &Chunk<'_>, file: &mut [u8])
    requires { Ready chunk.now.image.now chunk.now.entry (length file.old) }
    ensures { file.new
        ≡ stored file.old 28 (body_of chunk.now.entry.kind chunk.now.image.now chunk.now.entry.location chunk.now.entry.m chunk.now.entry.n) }
{
    let e = chunk.entry;
    let at = e.location as usize;
    let n = e.n as usize;
    if e.kind == FLOAT {
        gsd_body::put_body::<f32>(chunk.image, at, n, e.m, file);
        return;
    }
    gsd_body::put_body::<f64>(chunk.image, at, n, e.m, file);
}

// The file of an entry that was found.
pub fn write_file(chunk: &Chunk<'_>, step: f64, file: &mut [u8]) -> Result<(), Refusal>
    requires { chunk.now.entry.frame < 4294967296 }
    ensures number { refused result ≡ file_test chunk.now.image.now chunk.now.entry step (length file.old) }
    ensures file { file.new
        ≡ accepted (file_test chunk.now.image.now chunk.now.entry step (length file.old)) (file_of chunk.now.image.now chunk.now.entry step) file.old }
{
    let time = time_of(chunk.entry.frame, step);
    check_file(chunk, step, time, file.len())?;
    put_head(file, chunk.entry, time);
    put_body(chunk, file);
    Ok(())
}
