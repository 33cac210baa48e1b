// The calls that change an image, on the part of it that is lent, and begin, which goes before turn; create takes its texts
// from the table, append and turn their stores' limit from the line.
use crate::run::Desk;
use crate::turns::append;
use dialmoth::{dialmoth_begin, dialmoth_create, dialmoth_turn};
use gsd_lines::Line;
use gsd_lines::words::Call;
use gsd_tables::text::Text;

fn create(image: &mut [u8], line: Line, table: &[u8]) -> u64 {
    let [version, slots, segments] = line.numbers;
    let [application, schema] = line.texts;
    dialmoth_create(
        image,
        application.of(table),
        schema.of(table),
        (version % 4294967296) as u32,
        slots,
        segments,
    )
}

// The answer of such a call. No zeros for a refused append: a count that is not set shows.
pub fn call(word: Call, line: Line, table: &[u8], desk: &mut Desk, text: &mut Text) {
    let limit = line.numbers[2];
    let mut one = [99u64; 1];
    let mut two = [1u64; 2];
    let mut three = [1u64; 3];
    match word {
        Call::Create => text.say_all(create(desk.bench.lent_mut(), line, table), &[]),
        Call::Append => {
            // Where the pair and the single call differ, a number that no call answers is printed.
            let number = append(&mut desk.bench, limit, &mut three).unwrap_or(u64::MAX);
            text.say_all(number, &three);
        }
        Call::Begin => {
            let number = dialmoth_begin(
                desk.bench.lent(),
                desk.bench.sheet(),
                &mut desk.state,
                &mut two,
            );
            text.say_all(number, &two);
        }
        Call::Turn => {
            let len = desk.bench.size();
            let span = desk.bench.sheet_span();
            let image = &mut desk.bench.image[..];
            let sheet = span.of(&desk.bench.sheet);
            let number = dialmoth_turn(&mut desk.state, &mut image[..len], sheet, limit, &mut one);
            text.say_all(number, &one);
        }
    }
}
