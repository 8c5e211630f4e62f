// What the program writes: words, and numbers in capital hexadecimal digits.
use numerals::hex;
use std::io::Stdout;

// Writes words as they are.
pub fn say(out: Stdout, words: &[u8]) {
    terminal::say(out, words);
}

// Writes that something was refused, with the refusal's number.
pub fn refused(out: Stdout, number: u64) {
    say(out, b", refused ");
    terminal::say_number(out, number);
}

// Writes the two digits of a byte.
pub fn say_digits(out: Stdout, byte: u8) {
    say(out, &[hex::digit_of(byte / 16), hex::digit_of(byte)]);
}

// Writes a space and the two digits of a byte.
pub fn say_byte(out: Stdout, byte: u8) {
    say(out, b" ");
    say_digits(out, byte);
}

// Writes a space and a bit.
pub fn say_bit(out: Stdout, bit: bool) {
    say(out, if bit { b" 1" } else { b" 0" });
}

// Writes a space and the 16 digits of a code, bit 63 first.
pub fn say_code(out: Stdout, code: u64) {
    let digits = terminal::code_digits(code);
    say(out, b" ");
    say(out, &digits);
}

// Writes a comma, a space, a count and what it counts.
pub fn say_count(out: Stdout, count: u64, what: &[u8]) {
    say(out, b", ");
    terminal::say_number(out, count);
    say(out, what);
}
