// Case 8: DS2413 chips, which have neither memory nor scratchpad.
use crate::host::Bench;
use crate::{cards, script};
use std::io::Stdout;

// Case 8: one chip, all open, then latch A 0, then power on and A held low outside; two chips, the second with latch A 0, each
// by Match ROM, and both together by Skip ROM.
pub fn case_8(out: Stdout) {
    let mut images = [0u8; 0];
    let mut pads = [0u8; 0];
    let mut bench = Bench::new(out, &mut images, &mut pads);
    script::run(
        &mut bench,
        &cards::SWITCH,
        b"case 8: all open, status<CC F5>?\n\
        case 8: latch A 0, switch FE 01 answers<CC 5A FE 01>??\n\
        !~case 8: latches open, A held low outside, status<CC F5>?\n",
    );
    script::run(
        &mut bench,
        &cards::TWO_SWITCHES,
        b"case 8: second of two, latch A 0, \
        switch FE 01 answers<55 3A 02 00 00 00 00 00 F1 5A FE 01>??\n\
        case 8: first, second, together, status<55 3A 01 00 00 00 00 00 A8 F5>?, \
        status<55 3A 02 00 00 00 00 00 F1 F5>?, status<CC F5>?\n",
    );
}
