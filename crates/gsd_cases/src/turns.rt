// Appends on the part of an image that is lent: begin and a turn as one append, with the single call beside it.
use dialmoth::{dialmoth_append, dialmoth_begin, dialmoth_turn};
use gsd_format::Refusal;
use gsd_states::STATE_WORDS;
use gsd_tables::bench::Bench;

// begin and a turn, with a state of their own, and the counts of both; none where the turn answers what it may not after this
// begin.
fn pair(image: &mut [u8], sheet: &[u8], limit: u64, counts: &mut [u64; 3]) -> Option<u64> {
    let mut state = [1u64; STATE_WORDS];
    let mut one = [1u64; 1];
    let mut two = [1u64; 2];
    let number = dialmoth_begin(image, sheet, &mut state, &mut two);
    let turned = dialmoth_turn(&mut state, image, sheet, limit, &mut one);
    *counts = [one[0], two[0], two[1]];
    let expected = if number == 0 {
        0
    } else {
        Refusal::NotExpected.number()
    };
    (turned == expected).then_some(number)
}

// An append in one turn: the pair, held to the single call on a copy of the image: the number, the counts and every byte; none
// where they differ.
pub fn append(bench: &mut Bench, limit: u64, counts: &mut [u64; 3]) -> Option<u64> {
    let len = bench.size();
    let span = bench.sheet_span();
    let sheet = span.of(&bench.sheet);
    let mut copy = bench.image;
    let mut single = [2u64; 3];
    let image = &mut bench.image[..];
    let number = pair(&mut image[..len], sheet, limit, counts);
    let alone = dialmoth_append(&mut copy[..len], sheet, limit, &mut single);
    let alike = number == Some(alone) && *counts == single && bench.image == copy;
    alike.then_some(alone)
}
