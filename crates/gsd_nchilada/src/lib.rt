// NChilada files of chunks: one property of a frame as the physicists' programs read it.
#![tactic(auto)]

ghost use Rattle.std.specs.Prelude.{◌≡◌, length};
ghost use Rattle.gsd_format.specs.Answers.{refused};
ghost use Rattle.gsd_nchilada.specs.Request.{nchilada_number, nchilada_file};

use gsd_elements::Chunk;
use gsd_format::Refusal;
use gsd_read::lookup;
use written::write_file;

mod head;
mod written;

// Writes the NChilada file of the chunk of a frame and a name, with the seconds from one frame to the next. The slice must have the
// file's length, 28 + (2 + N) * M * size bytes. A refusal writes nothing.
pub fn nchilada(
    image: &[u8],
    frame: u64,
    name: &[u8],
    step: f64,
    file: &mut [u8],
) -> Result<(), Refusal>
    ensures number { refused result ≡ nchilada_number image.now frame name.now step (length file.old) }
    ensures file { file.new ≡ nchilada_file image.now frame name.now step file.old }
{
    let entry = lookup(image, frame, name)?;
    write_file(&Chunk { image, entry }, step, file)
}
