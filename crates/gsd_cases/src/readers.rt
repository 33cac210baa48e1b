// What a table asks by its reader: opening gives the words, the calls take them with the image and tell their values where they
// answer 0; a table may also set one of the words, and note them all.
use dialmoth::{
    dialmoth_reader_chunk, dialmoth_reader_element, dialmoth_reader_entry, dialmoth_reader_find,
    dialmoth_reader_id, dialmoth_reader_lookup, dialmoth_reader_name, dialmoth_reader_newest,
    dialmoth_reader_open,
};
use gsd_lines::Line;
use gsd_lines::words::AskBy;
use gsd_tables::text::Text;

// The answer of a reader's call. Opening tells the reader's words whatever it answers.
pub fn ask_by(
    word: AskBy,
    line: Line,
    table: &[u8],
    image: &[u8],
    reader: &mut [u64; 8],
    text: &mut Text,
) {
    let [_, before, n] = line.numbers;
    let name = line.texts[1].of(table);
    let mut one = [99u64; 1];
    let mut two = [1u64; 2];
    let mut seven = [0u64; 7];
    match word {
        AskBy::Open => text.say_all(dialmoth_reader_open(image, reader), reader),
        AskBy::Name => text.say_good(dialmoth_reader_name(reader, image, n, &mut two), &two),
        AskBy::Chunk => {
            text.say_good(
                dialmoth_reader_chunk(reader, image, n, name, &mut two),
                &two,
            )
        }
        AskBy::Element => {
            let number = dialmoth_reader_element(reader, image, before, name, n, &mut two);
            text.say_good(number, &two)
        }
        AskBy::Entry => text.say_good(dialmoth_reader_entry(reader, image, n, &mut seven), &seven),
        AskBy::Lookup => {
            let number = dialmoth_reader_lookup(reader, image, n, name, &mut seven);
            text.say_good(number, &seven)
        }
        AskBy::Id => text.say_good(dialmoth_reader_id(reader, image, name, &mut one), &one),
        AskBy::Find => {
            let number = dialmoth_reader_find(reader, image, before, n, &mut seven);
            text.say_good(number, &seven)
        }
        AskBy::Newest => {
            let number = dialmoth_reader_newest(reader, image, before, n, &mut seven);
            text.say_good(number, &seven)
        }
    }
}
