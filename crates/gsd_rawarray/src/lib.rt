// RawArray files: a chunk written as one, and one read back into the sheet of an append.
#![tactic(auto)]

ghost use Rattle.std.specs.Prelude.{◌≡◌, length};
ghost use Rattle.gsd_format.specs.Answers.{refused};
ghost use Rattle.gsd_rawarray.specs.Requests.{write_test, written_file, read_test, read_sheet};

use gsd_elements::Chunk;
use gsd_format::Refusal;
use gsd_read::lookup;
use into::write_file;
use refused::check_reading;
use sheet::put_sheet;

mod into;
mod kinds;
mod product;
mod refused;
mod sheet;
mod words;

// Writes the chunk of a frame and a name as a RawArray file. The slice must have the file's length, 64 + N * M * size bytes. A
// refusal writes nothing.
pub fn rawarray_write(image: &[u8], frame: u64, name: &[u8], file: &mut [u8]) -> Result<(), Refusal>
    ensures number { refused result ≡ write_test image.now frame name.now (length file.old) }
    ensures file { file.new ≡ written_file image.now frame name.now file.old }
{
    let entry = lookup(image, frame, name)?;
    write_file(&Chunk { image, entry }, file)
}

// Reads a RawArray file into the sheet of one row, under a name. The slice must have the sheet's length, 20 bytes and those of the
// name and the data. A refusal writes nothing.
pub fn rawarray_read(file: &[u8], name: &[u8], sheet: &mut [u8]) -> Result<(), Refusal>
    ensures number { refused result ≡ read_test file.now name.now (length sheet.old) }
    ensures sheet { sheet.new ≡ read_sheet file.now name.now sheet.old }
{
    let head = check_reading(file, name, sheet.len())?;
    put_sheet(file, head, name, sheet);
    Ok(())
}
