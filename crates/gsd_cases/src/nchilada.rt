// The call that writes the NChilada file of a chunk, into a slice as long as the line says: what it answers, and what the
// slice holds afterwards.
use dialmoth::dialmoth_nchilada;
use gsd_lines::Line;
use gsd_tables::text::Text;
use std::num::f64_from_bits_with_nan;

// The longest slice.
const ROOM: usize = 2048;

// A byte of the slice that is not written stays 170.
pub fn write_nchilada(line: Line, table: &[u8], image: &[u8], text: &mut Text) {
    let [frame, bits, size] = line.numbers;
    let name = line.texts[1].of(table);
    let mut file = [170u8; ROOM];
    let file = &mut file[..size.min(ROOM as u64) as usize];
    let number = dialmoth_nchilada(image, frame, name, f64_from_bits_with_nan(bits), file);
    text.say_words(number, file);
}
