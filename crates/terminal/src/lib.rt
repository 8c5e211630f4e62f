// What the programs on a line share: the room that a table needs, the line that says why a card was refused, and the line of a
// code.
#![tactic(auto)]

ghost use Rattle.std.specs.Prelude.{◌≡◌, length, replicate};
ghost use Rattle.line.specs.Layout.{images_most, pads_most};
ghost use Rattle.card.specs.Card.{carded};
ghost use Rattle.terminal.specs.Words.{is_refused, word_of, code_digits};

use card::Refused;
use crc::CodeCheck;
use line::{IMAGES_MOST, PADS_MOST};
use numerals::hex;
use std::io::Stdout;

// A word: as many places as it has letters.
// Stays an enum of letters: `terminal_word` of coincide says that the contract of `word` permits one word, and no contract gives the address
// that a `&'static str` carries.
#[derive(Clone, Copy, Debug, PartialEq, Eq)]
pub enum Letters {
    Two(u8, u8),
    Four(u8, u8, u8, u8),
}

// Writes words as they are. What cannot be written is left.
pub fn say(out: Stdout, words: &[u8]) {
    let _ = out.write_all(words);
}

// Writes a number, in decimal digits.
pub fn say_number(out: Stdout, n: u64) {
    let _ = out.print(n);
}

// Writes `refused R at P`.
// Stays in parts, as the line of a code does: each part is tried even where one before it was not written, and a `write!` would leave the rest.
pub fn say_refused(out: Stdout, number: u8, at: u64) {
    say(out, b"refused ");
    say_number(out, number as u64);
    say(out, b" at ");
    say_number(out, at);
    say(out, b"\n");
}

// Whether a card was refused; if so, the line that says so is written.
pub fn refused_card(out: Stdout, answer: Result<usize, Refused>) -> bool
    ensures { result ≡ is_refused (carded answer) }
{
    let Err(refused) = answer else {
        return false;
    };
    say_refused(out, u8::from(refused.fault), refused.at as u64);
    true
}

// The word for the check of a code.
pub fn word(check: CodeCheck) -> Letters
    ensures { result ≡ word_of check }
{
    match check {
        CodeCheck::Good => Letters::Two(b'o', b'k'),
        CodeCheck::Bad => Letters::Two(b'n', b'o'),
        CodeCheck::AllZeros => Letters::Four(b'z', b'e', b'r', b'o'),
    }
}

// Writes a word.
pub fn say_word(out: Stdout, word: Letters) {
    match word {
        Letters::Two(a, b) => {
            say(out, &[a, b]);
        }
        Letters::Four(a, b, c, d) => {
            say(out, &[a, b, c, d]);
        }
    }
}

// The 16 hexadecimal digits of a code, bit 63 first.
pub fn code_digits(code: u64) -> [u8; 16]
    ensures { result ≡ code_digits code }
{
    let mut text = [0u8; 16];
    hex::put_digits(&code.to_be_bytes(), &mut text, 0);
    text
}

// Writes the line of a code.
pub fn write_code(out: Stdout, code: u64) {
    let text = code_digits(code);
    let word = word(crc::check_code(code));
    say(out, &text);
    say(out, b" ");
    say_word(out, word);
    say(out, b"\n");
}

// Writes the lines of the first n codes of a list.
// Stays with n beside the list: the theorem `terminal_write_codes` is of it, and no caller need show that n is within.
pub fn write_codes(out: Stdout, list: &[u64], n: usize) {
    for code in list.iter().take(n) {
        write_code(out, *code);
    }
}

// Room for the images of 16 chips, all FFh.
// Stays beside `pad_room`: coincide has a theorem of each, `terminal_image_room` and `terminal_pad_room`.
pub fn image_room() -> [u8; IMAGES_MOST]
    ensures value { result ≡ replicate images_most 0xFF }
    ensures images_most_value { images_most ≡ length result }
{
    [0xFF; IMAGES_MOST]
}

// Room for the scratchpads of 16 chips.
pub fn pad_room() -> [u8; PADS_MOST]
    ensures value { result ≡ replicate pads_most 0xFF }
    ensures pads_most_value { pads_most ≡ length result }
{
    [0xFF; PADS_MOST]
}
