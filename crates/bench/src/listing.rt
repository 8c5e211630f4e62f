// Cases 2 and 3: what the search lists.
use crate::host::Bench;
use crate::{cards, text};
use search::Found;
use std::io::Stdout;

// Writes the codes that a search listed.
fn say_codes(out: Stdout, list: &[u64], listed: usize) {
    for code in list.iter().take(listed) {
        text::say_code(out, *code);
    }
}

// Writes how many codes a search listed, and what it put on the line.
fn say_counts(out: Stdout, found: Found) {
    text::say_count(out, found.listed as u64, b" codes");
    text::say_count(out, found.resets.0, b" resets");
    text::say_count(out, found.slots.0, b" slots");
    text::say(out, b"\n");
}

// A search of the line of a card, with as many places as the list has, and all that it answers.
fn show_search(bench: &mut Bench, card: &[u8], list: &mut [u64]) {
    bench.set_up(card);
    let found = search::search_line(bench.table, list, bench.images, bench.pads);
    say_codes(bench.out, list, found.listed);
    if found.answer.is_err() {
        text::refused(bench.out, search::number_of(found.answer) as u64);
    }
    say_counts(bench.out, found);
}

// Case 2, the four codes of document 002 with places for all of them, and case 3, a line without chips and then two places
// for the four codes.
pub fn cases_2_and_3(out: Stdout) {
    let mut images = [0u8; 10496];
    let mut pads = [0u8; 128];
    let mut list = [0u64; 16];
    let mut two_places = [0u64; 2];
    let mut four = Bench::new(out, &mut images, &mut pads);
    text::say(out, b"case 2: four chips, listed");
    show_search(&mut four, &cards::FOUR_CODES, &mut list);
    text::say(out, b"case 3: no chips, listed");
    show_search(&mut Bench::new(out, &mut [], &mut []), b"", &mut list);
    text::say(out, b"case 3: two places for four chips, listed");
    show_search(&mut four, &cards::FOUR_CODES, &mut two_places);
}
