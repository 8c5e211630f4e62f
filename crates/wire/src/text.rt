// The characters of events and of answers.
use line::{Event, Refusal};

// What has come of event 4: its first character, or its chip too.
#[derive(Clone, Copy, PartialEq, Eq)]
pub enum Begun {
    Event,
    Chip(u32),
}

// The number of a hexadecimal digit of either case. Another character has a number that no chip and no outside levels have.
// Stays a number where a digit is none: the line refuses it (7), as event 5 below (6); an `Option` would need that refusal here again.
fn hex_digit(b: u8) -> u32 {
    (b as char).to_digit(16).unwrap_or(u32::MAX)
}

// An event that names no chip, by its number.
fn plain(number: u32) -> Option<Event> {
    Some(line::events::numbered(number, 0, 0))
}

// A space or a line end.
pub fn is_space(b: u8) -> bool {
    matches!(b, b' ' | b'\n' | b'\r')
}

// A slot.
pub fn is_slot(b: u8) -> bool {
    matches!(b, b'0' | b'1')
}

// The event that a character ends, if it ends one, and what has come of event 4. A character that begins no event is the event 5.
pub fn read_char(begun: &mut Option<Begun>, b: u8) -> Option<Event> {
    match begun.take() {
        None => match b {
            b'0'..=b'3' => plain((b - b'0') as u32),
            b'4' => {
                *begun = Some(Begun::Event);
                None
            }
            _ => plain(5),
        },
        Some(Begun::Event) => {
            *begun = Some(Begun::Chip(hex_digit(b)));
            None
        }
        Some(Begun::Chip(chip)) => Some(line::events::outside(chip, hex_digit(b))),
    }
}

// The letter of a refusal: A for 1, and so on.
fn refusal_letter(r: Refusal) -> u8 {
    let number = line::number_of(r);
    if number < 27 { b'@' + number } else { b'?' }
}

// The character of an answer.
pub fn letter(answer: Result<bool, Refusal>) -> u8 {
    match answer {
        Ok(b) => if b { b'1' } else { b'0' },
        Err(r) => refusal_letter(r),
    }
}
