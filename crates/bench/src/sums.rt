// Case 1: the two check sums, computed and as a chip sends them.
use crate::host::Bench;
use crate::{cards, script, text};
use std::io::Stdout;

// The check sums of 01h, computed; a chip sends the CRC-16 inverted, low byte first.
fn computed(out: Stdout) {
    let [high, low] = crc::crc16(b"\x01").to_be_bytes();
    text::say(out, b"case 1: of 01, CRC-8");
    text::say_byte(out, crc::crc8(b"\x01"));
    text::say(out, b", CRC-16");
    text::say_byte(out, high);
    text::say_digits(out, low);
    text::say(out, b", sent");
    text::say_byte(out, 0xFF - low);
    text::say_byte(out, 0xFF - high);
    text::say(out, b"\n");
}

// Case 1, where a chip sends the CRC-16 of 01h, since 0F 40 04 leaves the check sum 0, and so does each 00 before the 01.
pub fn case_1(bench: &mut Bench) {
    computed(bench.out);
    script::run(
        bench,
        &cards::MEMORY,
        b"case 1: by a chip, write 0440 00 31 times 01<CC 0F 40 04 \
        00 00 00 00 00 00 00 00 00 00 00 00 00 00 00 00 00 00 00 00 00 00 00 00 00 00 00 00 00 00 00 01>, \
        CRC-16 sent??, E/S<CC AA>__?\n",
    );
}
