// What a table asks of an image by the calls that read: each takes its numbers and its name from the line's last ones, and
// tells its values where it answers 0, but probes, which tells how many it made whatever it answers.
use dialmoth::{
    dialmoth_chunk, dialmoth_element, dialmoth_entry, dialmoth_lookup, dialmoth_name,
    dialmoth_open, dialmoth_probes,
};
use gsd_lines::Line;
use gsd_lines::words::Ask;
use gsd_tables::text::Text;

// The answer of a call that reads. More than a search ever probes: a count that is not set shows. The table goes with the line, here and
// in the other calls: a line has the places of its texts alone, since the table is written when it is read.
pub fn ask(word: Ask, line: Line, table: &[u8], image: &[u8], text: &mut Text) {
    let [_, before, n] = line.numbers;
    let name = line.texts[1].of(table);
    let mut one = [99u64; 1];
    let mut two = [1u64; 2];
    let mut three = [1u64; 3];
    let mut seven = [0u64; 7];
    match word {
        Ask::Open => text.say_good(dialmoth_open(image, &mut three), &three),
        Ask::Name => text.say_good(dialmoth_name(image, n, &mut two), &two),
        Ask::Chunk => text.say_good(dialmoth_chunk(image, n, name, &mut two), &two),
        Ask::Element => text.say_good(dialmoth_element(image, before, name, n, &mut two), &two),
        Ask::Entry => text.say_good(dialmoth_entry(image, n, &mut seven), &seven),
        Ask::Lookup => text.say_good(dialmoth_lookup(image, n, name, &mut seven), &seven),
        Ask::Probes => text.say_all(dialmoth_probes(image, n, name, &mut one), &one),
    }
}
