// The slips of document 01 that one DS28EC20 shows, but for that of case 9, and kinds that the family does not tell.
use crate::host::Bench;
use crate::{cards, script};
use std::io::Stdout;

// The whole register page in one Copy, with marks in every control and lock byte and in the first user byte: no byte is
// judged by those that the same Copy sets, and the page is closed only after it.
pub fn register_page(bench: &mut Bench) {
    script::run(
        bench,
        &cards::MEMORY,
        b"register page: write 0A00, 10 control bytes, 20 user bytes, 2 lock bytes<CC 0F 00 0A \
        55 AA 55 AA 55 AA 55 AA 55 AA \
        55 01 02 03 04 05 06 07 08 09 0A 0B 0C 0D 0E 0F 10 11 12 13 \
        55 AA>, copy 00 0A 1F answers<CC 55 00 0A 1F>....\n\
        register page: all at once, memory 0A00<CC F0 00 0A>????????????????????????????????\n\
        register page: closed, write 0A0A 00<CC 0F 0A 0A 00>, \
        copy 0A 0A 0A answers<CC 55 0A 0A 0A>...., memory 0A0A<CC F0 0A 0A>?\n",
    );
}

// A Copy ends at E, whatever the scratchpad has past it.
pub fn past_e(bench: &mut Bench) {
    script::run(
        bench,
        &cards::MEMORY,
        b"past E: write 0000 30 31 32 33 34 35 36 37 38 39<CC 0F 00 00 30 31 32 33 34 35 36 37 38 39>, \
        write 0006 12 34<CC 0F 06 00 12 34>, E/S<CC AA>__?, scratchpad????, \
        copy 06 00 07 answers<CC 55 06 00 07>...., memory 0000<CC F0 00 00>??????????\n",
    );
}

// A record of kind 1 is a DS28EC20, though its family is that of a DS2413.
pub fn kind_1(bench: &mut Bench) {
    script::run(
        bench,
        &cards::MEMORY_3A,
        b"kind 1, family 3A: write 0006 12<55 3A 01 00 00 00 00 00 A8 0F 06 00 12>, \
        copy 06 00 06 answers<55 3A 01 00 00 00 00 00 A8 55 06 00 06>...., \
        memory 0006<55 3A 01 00 00 00 00 00 A8 F0 06 00>?\n",
    );
}

// A record of kind 2 is a DS2413, though its family is that of a DS28EC20.
pub fn kind_2(out: Stdout) {
    let mut images = [0u8; 0];
    let mut pads = [0u8; 0];
    script::run(
        &mut Bench::new(out, &mut images, &mut pads),
        &cards::SWITCH_43,
        b"kind 2, family 43: status<55 43 01 00 00 00 00 00 B7 F5>?\n",
    );
}
