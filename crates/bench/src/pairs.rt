// Two DS28EC20 on one line: Resume, and a chip that takes a byte while the other sends.
use crate::host::Bench;
use crate::{cards, script};
use line::Table;
use std::io::Stdout;

// RC is kept over a reset, so that Resume chooses the chip of the last Match ROM, and no chip after Skip ROM, by which both
// send together.
fn resume(bench: &mut Bench) {
    script::run(
        bench,
        &cards::TWO_MEMORIES,
        b"resume: first of two, write 0000 3C<55 43 01 00 00 00 00 00 B7 0F 00 00 3C>, \
        copy 00 00 00 answers<A5 55 00 00 00>...., memory 0000<A5 F0 00 00>?\n\
        resume: second, write 0000 5A<55 43 02 00 00 00 00 00 EE 0F 00 00 5A>, \
        copy 00 00 00 answers<A5 55 00 00 00>...., memory 0000<A5 F0 00 00>?\n\
        resume: Match ROM of the first, memory 0000<55 43 01 00 00 00 00 00 B7 F0 00 00>?, \
        Resume, memory 0000<A5 F0 00 00>?\n\
        resume: Skip ROM, memory 0000<CC F0 00 00>?, Resume, memory 0000<A5 F0 00 00>?\n",
    );
}

// The first chip of one table, and the second of another.
fn mixed(first: Table, second: Table) -> Table {
    let mut chips = first.chips;
    chips[1] = second.chips[1];
    Table { n: 2, chips }
}

// A table that a caller may lend and that chips reset together never come to: the first chip, with 3C in its memory, as Read
// Memory leaves it, the second as Write Scratchpad does.
fn one_sends(bench: &mut Bench) -> Table {
    bench.set_up(&cards::TWO_MEMORIES);
    script::play(
        bench,
        b"<55 43 01 00 00 00 00 00 B7 0F 00 00 3C><A5 55 00 00 00><CC F0 00 00>",
    );
    let sending = bench.table;
    script::play(bench, b"<CC 0F 00 00>");
    mixed(sending, bench.table)
}

// The second chip takes what the first sends, not the host's FFh.
fn slot_value(bench: &mut Bench) {
    bench.table = one_sends(bench);
    script::play(
        bench,
        b"slot value: first sends, second takes, host FF, line?, \
        second, E/S<55 43 02 00 00 00 00 00 EE AA>__?, scratchpad?\n",
    );
}

// Resume, and the value of a slot.
pub fn two_memories(out: Stdout) {
    let mut images = [0u8; 5248];
    let mut pads = [0u8; 64];
    let mut bench = Bench::new(out, &mut images, &mut pads);
    resume(&mut bench);
    slot_value(&mut bench);
}
