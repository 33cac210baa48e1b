// The calls of RawArray files: a chunk of the image written into the copy that is kept, and the lent image read as a file into the
// sheet.
use dialmoth::{dialmoth_rawarray_read, dialmoth_rawarray_write};
use gsd_lines::Line;
use gsd_lines::words::Raw;
use gsd_tables::bench::{Bench, ROOM};
use gsd_tables::text::Text;

// The answer of such a call; a sheet that was read is as long as the line says.
pub fn ask_raw(word: Raw, line: Line, table: &[u8], bench: &mut Bench, text: &mut Text) {
    let [_, frame, n] = line.numbers;
    let name = line.texts[1].of(table);
    let size = n.min(ROOM as u64) as usize;
    let len = bench.size();
    let image = &bench.image[..len];
    let number = match word {
        Raw::Write => {
            let file = &mut bench.kept[..];
            dialmoth_rawarray_write(image, frame, name, &mut file[..size])
        }
        Raw::Read => {
            let sheet = &mut bench.sheet[..];
            dialmoth_rawarray_read(image, name, &mut sheet[..size])
        }
    };
    if word == Raw::Read && number == 0 {
        bench.end = n as usize;
    }
    text.say_all(number, &[]);
}
