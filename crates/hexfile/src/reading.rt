// A text as an image, in pieces: a line in form has few characters, so that no more than a buffer is at hand of a file of any length.
use crate::telling;
use console::{Outputs, Told, input};
use intelhex::{Ending, Fault};
use std::io::{Read, Stderr};

// The most bytes at hand.
const BYTES_MOST: usize = 65536;

// Tells the line at fault, of which so many stand before it, and what is wrong with it.
fn tell_refused(errors: Stderr, fault: Fault, before: u64) {
    let line = console::count_on(before, 1);
    telling::tell(errors, format_args!("hexfile: line {line}: {fault}\n"));
}

// Reads a text, and writes the image that it gives, or why it gives none: the lines at hand are read into the image, and more is fetched where
// more is awaited.
pub fn read<R: Read>(input: &mut R, name: &[u8], to: Outputs) -> Result<(), Told> {
    let mut bytes = [0u8; BYTES_MOST];
    let mut image = intelhex::blank_image();
    let mut hand = input::nothing();
    // whether the end record has come, and how many lines were taken
    let mut over = false;
    let mut lines: u64 = 0;
    for _ in 0..u64::MAX {
        let n = input::within(hand.bytes, &bytes);
        let taken = intelhex::read_lines(over, &bytes[..n], hand.more, &mut image);
        hand = input::taken(hand, taken.at, &mut bytes);
        over = taken.over;
        lines = console::count_on(lines, taken.lines);
        match taken.ending {
            Ok(Ending::Part) => hand = input::fetch(hand, input, to.errors, name, &mut bytes)?,
            Ok(Ending::End) => return to.write(&image),
            Err(fault) => {
                console::say_refused(to, intelhex::number_of(fault));
                tell_refused(to.errors, fault, lines);
                break;
            }
        }
    }
    Ok(())
}
