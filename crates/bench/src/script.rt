// A script: what the host types, between the words that the program writes. Six signs stand for what the host does:
//   <CC 0F 06>  a reset, and then these bytes written, a ROM command first
//   ?           a byte read, written out
//   _           a byte read, and left out
//   .           a slot read, written out
//   !           power on
//   ~           PIOA of the first chip held low outside
// Every other character is written out as it is.
use crate::host::{Action, Bench};
use crate::text;
use std::io::Stdout;

// How far the typing is.
#[derive(Clone, Copy, Debug, PartialEq, Eq)]
enum Typed {
    Outside,
    // between < and >, and the first digit of a byte, where the second is to come
    Inside(Option<u8>),
}

// The value of a hexadecimal digit.
fn digit_of(character: u8) -> Option<u8> {
    let digit = char::from(character).to_digit(16)?;
    Some(digit as u8)
}

// How far the typing is after one more character.
fn after(typed: Typed, character: u8) -> Typed {
    match (character, typed) {
        (b'<', _) => Typed::Inside(None),
        (b'>', _) => Typed::Outside,
        (_, Typed::Inside(None)) => Typed::Inside(digit_of(character)),
        (_, Typed::Inside(Some(_))) => Typed::Inside(None),
        (_, Typed::Outside) => Typed::Outside,
    }
}

// What a character between < and > asks for: the second digit of a byte has the byte written.
fn asked_inside(first: Option<u8>, character: u8) -> Action {
    match (first, digit_of(character)) {
        (Some(high), Some(low)) => Action::Write(high << 4 | low),
        _ => Action::Rest,
    }
}

// What a character that is not between < and > asks for: what its sign stands for, or to be written out.
fn asked_outside(out: Stdout, character: u8) -> Action {
    match character {
        b'<' => Action::Put(line::events::reset()),
        b'?' => Action::ReadByte(true),
        b'_' => Action::ReadByte(false),
        b'.' => Action::ReadSlot,
        b'!' => Action::Put(line::events::power_on()),
        b'~' => Action::Put(line::events::outside(0, 2)),
        _ => {
            text::say(out, &[character]);
            Action::Rest
        }
    }
}

// What a character of a script asks for.
fn asked(out: Stdout, typed: Typed, character: u8) -> Action {
    match typed {
        Typed::Inside(first) => asked_inside(first, character),
        Typed::Outside => asked_outside(out, character),
    }
}

// A script, played on the line at the bench.
pub fn play(bench: &mut Bench, script: &[u8]) {
    let mut typed = Typed::Outside;
    for character in script {
        bench.act(asked(bench.out, typed, *character));
        typed = after(typed, *character);
    }
}

// A script, played on a line of its own that is set up from a card.
pub fn run(bench: &mut Bench, card: &[u8], script: &[u8]) {
    bench.set_up(card);
    play(bench, script);
}
