// Reads a card from standard input, searches the line that it sets up, and writes the codes found with the word for the check of each, as
// documents 01 and 02 say.
#![tactic(auto)]

use console::input;
use line::Table;
use std::io::Stdout;

// The last line: codes and slots.
fn write_counts(out: Stdout, codes: usize, slots: u64) {
    terminal::say_number(out, codes as u64);
    terminal::say(out, b" codes ");
    terminal::say_number(out, slots);
    terminal::say(out, b" slots\n");
}

// Powers the line on, searches it with 16 places, and writes what was found.
fn search_and_write(out: Stdout, t: Table, images: &mut [u8], pads: &mut [u8]) {
    let powered = line::take_event(t, line::events::power_on(), images, pads);
    let table = powered.table;
    let mut list = [0u64; 16];
    let found = search::search_line(table, &mut list, images, pads);
    let slots = found.slots;
    terminal::write_codes(out, &list, found.listed);
    write_counts(out, found.listed, slots.0);
}

// The most bytes of a card that are read.
const CARD_MOST: usize = 4096;

fn main(rt: HostRuntime) {
    let mut input = rt.stdin();
    let out = rt.stdout();
    let mut card = [0u8; CARD_MOST];
    let n = input::read_full(&mut input, &mut card);
    let set_up = card::set_up(&card[..n], 16, line::tables::blank(0));
    let answer = set_up.answer;
    let table = set_up.table;
    if terminal::refused_card(out, answer) {
        return;
    }
    let mut images = terminal::image_room();
    let mut pads = terminal::pad_room();
    let image_bytes = line::images_asked(table);
    let pad_bytes = line::pads_asked(table);
    search_and_write(
        out,
        table,
        &mut images[..image_bytes],
        &mut pads[..pad_bytes],
    );
}
