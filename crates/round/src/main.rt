// Makes the controller's morning round on the line that a card on standard input sets up: it searches the line, reads page 0 of each memory
// that it found, and writes what it read and how many resets and slots that took.
#![tactic(auto)]

mod answer;
mod arguments;
mod images;
mod words;

use console::{Outputs, Told, input};
use line::Table;
use std::io::{Stderr, Stdin};
use std::rt::{Env, Files};
use words::Request;

// Says how the program is used.
fn say_usage(errors: Stderr) {
    let _ = eprintln!(errors;
        "usage: round [--images FILE] [--places N] [--pages BYTES], with the card on standard input (BYTES from 0 to 1024)"
    );
}

// Powers the line on, makes the round, and writes what it came to.
fn make_round(
    to: Outputs,
    t: Table,
    list: &mut [u64],
    pages: &mut [u8],
    images: &mut [u8],
    pads: &mut [u8],
) {
    let powered = line::take_event(t, line::events::power_on(), images, pads);
    let table = powered.table;
    let found = rounds::make_round(table, list, pages, images, pads);
    answer::write(to, found, list, pages);
}

// Makes the round with the places, pages and images that are asked for, or else those that the line needs.
fn with_table(
    to: Outputs,
    t: Table,
    places: Option<usize>,
    pages: Option<usize>,
    bytes: Option<usize>,
    images: &mut [u8],
) {
    let mut list = [0u64; 16];
    let mut room = [0u8; words::PAGES_GIVEN_MOST];
    let mut pads = terminal::pad_room();
    let n = line::used_places(places.unwrap_or(16));
    let p = input::within(pages.unwrap_or(rounds::pages_asked(t)), &room);
    let m = input::within(bytes.unwrap_or(line::images_asked(t)), images);
    let s = line::pads_asked(t);
    make_round(
        to,
        t,
        &mut list[..n],
        &mut room[..p],
        &mut images[..m],
        &mut pads[..s],
    );
}

// The most bytes of a card that are read.
const CARD_MOST: usize = 4096;

// Reads the images, if a file of them is named, then the card, and makes the round on the line that it sets up. What cannot be read is told already.
fn go<R: Env + Files>(
    rt: &R,
    mut stdin: Stdin,
    to: Outputs,
    r: Request,
    argument: &mut [u8],
) -> Result<(), Told> {
    let mut images = [0xFFu8; images::ROOM];
    let bytes = images::load(rt, to.errors, r.images, argument, &mut images)?;
    let mut card = [0u8; CARD_MOST];
    let n = input::fill(&mut stdin, to.errors, b"standard input", &mut card)?;
    let set_up = card::set_up(&card[..n], 16, line::tables::blank(0));
    let answer = set_up.answer;
    let table = set_up.table;
    if terminal::refused_card(to.out, answer) {
        return Ok(());
    }
    with_table(to, table, r.places, r.pages, bytes, &mut images);
    Ok(())
}

fn main(rt: HostRuntime) {
    let to = Outputs {
        out: rt.stdout(),
        errors: rt.stderr(),
    };
    // one room for every argument, so that the stack holds no two of them at once
    let mut room = console::argument_room();
    match arguments::read(&rt, &mut room) {
        Some(r) => {
            let _ = go(&rt, rt.stdin(), to, r, &mut room);
        }
        None => say_usage(to.errors),
    }
}
