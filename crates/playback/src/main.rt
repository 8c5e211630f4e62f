// Plays a hall's recording from standard input on the line that its card records set up, and writes every event's bus answer as soon as
// the record is there: one line of `0` and `1`, and after it the line of the first refusal.
#![tactic(auto)]

ghost use Rattle.std.specs.Prelude.{◌≤◌, length};

use console::input::Hand;
use console::{Outputs, Told, input};
use line::Table;
use recording::{CardsEnding, Ending, Fault};
use std::io::{Stderr, Stdin};

// The most bytes at hand: more than the longest record that can be taken has, which is 8,198.
const BYTES_MOST: usize = 16384;

// The most answers to what is at hand: eight for each byte.
const TEXT_MOST: usize = 8 * BYTES_MOST;

// The recording on standard input, and what is at hand of it.
#[derive(Drop)]
struct Source {
    input: Stdin,
    errors: Stderr,
    hand: Hand,
    bytes: [u8; BYTES_MOST],
}

impl Source {
    // The bytes at hand.
    fn at_hand(&self) -> &[u8]
        ensures { length result.now ≤ 16384 }
    {
        &self.bytes[..input::within(self.hand.bytes, &self.bytes)]
    }

    // So many bytes at hand were taken.
    fn take(&mut self, n: usize) {
        self.hand = input::taken(self.hand, n, &mut self.bytes);
    }

    // One read more of the recording; a read that fails is not taken for its end.
    fn fetch(&mut self) -> Result<(), Told> {
        let input = &mut self.input;
        self.hand = input::fetch(
            self.hand,
            input,
            self.errors,
            b"standard input",
            &mut self.bytes,
        )?;
        Ok(())
    }
}

// Ends the line of answers, unless more is awaited, and writes the line of a refusal at an offset.
fn write_end(to: Outputs, ending: Result<Ending, Fault>, at: u64) -> Result<(), Told> {
    match ending {
        Ok(Ending::Part) => Ok(()),
        Ok(Ending::End) => to.write(b"\n"),
        Err(f) => {
            to.write(b"\n")?;
            terminal::say_refused(to.out, recording::number_of(f), at);
            Ok(())
        }
    }
}

// Reads the card; the table that it set up, and how that ended.
fn read_card(source: &mut Source) -> Result<(Table, CardsEnding), Told> {
    let mut table = line::tables::blank(0);
    for _ in 0..u64::MAX {
        let read = recording::read_cards(table, source.at_hand(), source.hand.more);
        source.take(read.at);
        table = read.table;
        let ending = read.ending;
        match ending {
            CardsEnding::Stopped(Ok(Ending::Part)) => source.fetch()?,
            _ => return Ok((table, ending)),
        }
    }
    Ok((table, CardsEnding::Stopped(Ok(Ending::Part))))
}

// A turn of the events: what is at hand of them is played and its answers are written, and more is fetched where more is awaited. Whether there is
// another turn.
fn play_turn(
    source: &mut Source,
    to: Outputs,
    table: &mut Table,
    text: &mut [u8; TEXT_MOST],
    images: &mut [u8],
    pads: &mut [u8],
) -> Result<bool, Told> {
    let bytes = source.at_hand();
    let room = &mut text[..8 * bytes.len()];
    let played = recording::play(*table, bytes, source.hand.more, room, images, pads);
    source.take(played.at);
    *table = played.table;
    to.write(&text[..input::within(played.answers, text)])?;
    let ending = played.ending;
    match ending {
        Ok(Ending::Part) => source.fetch()?,
        _ => {
            write_end(to, ending, source.hand.offset)?;
            return Ok(false);
        }
    }
    Ok(true)
}

// Plays the events on the line that the card set up: first those that came with the card, then those that come. The first turn stands before the
// loop: called from two places, a turn stays a function, and the table is copied as it lies.
fn play_events(source: &mut Source, to: Outputs, start: Table) -> Result<(), Told> {
    let mut images = terminal::image_room();
    let mut pads = terminal::pad_room();
    let images = &mut images[..line::images_asked(start)];
    let pads = &mut pads[..line::pads_asked(start)];
    let mut text = [0u8; TEXT_MOST];
    let mut table = start;
    let mut goes_on = play_turn(source, to, &mut table, &mut text, images, pads)?;
    for _ in 0..u64::MAX {
        if !goes_on {
            break;
        }
        goes_on = play_turn(source, to, &mut table, &mut text, images, pads)?;
    }
    Ok(())
}

// Plays the recording on standard input.
fn play(input: Stdin, to: Outputs) -> Result<(), Told> {
    let mut source = Source {
        input,
        errors: to.errors,
        hand: input::nothing(),
        bytes: [0; BYTES_MOST],
    };
    let (table, ending) = read_card(&mut source)?;
    match ending {
        CardsEnding::Events => play_events(&mut source, to, table),
        CardsEnding::Stopped(e) => write_end(to, e, source.hand.offset),
    }
}

fn main(rt: HostRuntime) {
    let to = Outputs {
        out: rt.stdout(),
        errors: rt.stderr(),
    };
    if console::argument_count(&rt) != 1 {
        let _ = eprintln!(to.errors;
            "usage: playback < RECORDING (no argument: the recording comes from standard input)"
        );
        return;
    }
    let _ = play(rt.stdin(), to);
}
