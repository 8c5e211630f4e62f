// Cases 4 to 7 and 9, and that of M-102: one DS28EC20, chosen by Match ROM or Skip ROM.
// Stays a function for each case, here and in the other files: each only calls `script::run` with the words of its case.
use crate::host::Bench;
use crate::{cards, script};

// Case 4: a Copy with what power on leaves, over a byte that it would change.
pub fn case_4(bench: &mut Bench) {
    script::run(
        bench,
        &cards::MEMORY,
        b"case 4: before power on, write 0000 12<CC 0F 00 00 12>, \
        copy 00 00 00 answers<CC 55 00 00 00>...., memory 0000<CC F0 00 00>?\n\
        case 4: after power on!, E/S<CC AA>__?, scratchpad?, \
        copy 00 00 20 answers<CC 55 00 00 20>...., memory 0000<CC F0 00 00>?, E/S<CC AA>__?\n",
    );
}

// Case 5: two bytes written and copied, and a Copy whose E/S is another.
pub fn case_5(bench: &mut Bench) {
    script::run(
        bench,
        &cards::MEMORY,
        b"case 5: two bytes, write 0006 12 34<55 43 01 00 00 00 00 00 B7 0F 06 00 12 34>, \
        E/S<55 43 01 00 00 00 00 00 B7 AA>__?, scratchpad??, \
        copy 06 00 07 answers<55 43 01 00 00 00 00 00 B7 55 06 00 07>...., \
        memory 0006<55 43 01 00 00 00 00 00 B7 F0 06 00>??, \
        E/S<55 43 01 00 00 00 00 00 B7 AA>__?\n",
    );
    script::run(
        bench,
        &cards::MEMORY,
        b"case 5: another E/S, write 0006 12 34<CC 0F 06 00 12 34>, E/S<CC AA>__?, scratchpad??, \
        copy 06 00 06 answers<CC 55 06 00 06>...., memory 0006<CC F0 06 00>??, E/S<CC AA>__?\n",
    );
}

// Case 6: case 5 on a held block, and then with the block lock too.
pub fn case_6(bench: &mut Bench) {
    script::run(
        bench,
        &cards::MEMORY,
        b"case 6: control byte of block 0, write 0A00 55<CC 0F 00 0A 55>, \
        copy 00 0A 00 answers<CC 55 00 0A 00>...., memory 0A00<CC F0 00 0A>?\n\
        case 6: held, write 0006 12 34<CC 0F 06 00 12 34>, E/S<CC AA>__?, scratchpad??, \
        copy 06 00 07 answers<CC 55 06 00 07>...., memory 0006<CC F0 06 00>??, E/S<CC AA>__?\n\
        case 6: block lock, write 0A1E AA<CC 0F 1E 0A AA>, \
        copy 1E 0A 1E answers<CC 55 1E 0A 1E>...., memory 0A1E<CC F0 1E 0A>?\n\
        case 6: held and locked, write 0006 12 34<CC 0F 06 00 12 34>, E/S<CC AA>__?, scratchpad??, \
        copy 06 00 07 answers<CC 55 06 00 07>...., memory 0006<CC F0 06 00>??, E/S<CC AA>__?\n",
    );
}

// Case 7: a byte of a block in EPROM mode only falls.
pub fn case_7(bench: &mut Bench) {
    script::run(
        bench,
        &cards::MEMORY,
        b"case 7: a byte of block 0, write 0006 F0<CC 0F 06 00 F0>, \
        copy 06 00 06 answers<CC 55 06 00 06>...., memory 0006<CC F0 06 00>?\n\
        case 7: control byte of block 0, write 0A00 AA<CC 0F 00 0A AA>, \
        copy 00 0A 00 answers<CC 55 00 0A 00>...., memory 0A00<CC F0 00 0A>?\n\
        case 7: EPROM mode, write 0006 3C<CC 0F 06 00 3C>, E/S<CC AA>__?, scratchpad?, \
        copy 06 00 06 answers<CC 55 06 00 06>...., memory 0006<CC F0 06 00>?, E/S<CC AA>__?\n",
    );
}

// Case 9: an address alone, and again where the block is held and the scratchpad has another byte.
pub fn case_9(bench: &mut Bench) {
    script::run(
        bench,
        &cards::MEMORY,
        b"case 9: address only, write 0000 77 66<CC 0F 00 00 77 66>, write 0120<CC 0F 20 01>, \
        E/S<CC AA>__?, scratchpad??, \
        copy 20 01 00 answers<CC 55 20 01 00>...., memory 0120<CC F0 20 01>??, E/S<CC AA>__?\n\
        case 9: control byte of block 1, write 0A01 55<CC 0F 01 0A 55>, \
        copy 01 0A 01 answers<CC 55 01 0A 01>...., memory 0A01<CC F0 01 0A>?\n\
        case 9: held, the scratchpad not trusted, write 0000 99 88<CC 0F 00 00 99 88>, \
        write 0120<CC 0F 20 01>, E/S<CC AA>__?, scratchpad??, \
        copy 20 01 00 answers<CC 55 20 01 00>...., memory 0120<CC F0 20 01>??, E/S<CC AA>__?\n",
    );
}

// M-102: case 5's write, then a Write Scratchpad that the next reset cuts after 8 bits of its address; and one that it
// cuts before the first, after a copy that was carried out.
pub fn short_address(bench: &mut Bench) {
    script::run(
        bench,
        &cards::MEMORY,
        b"short address: write 0006 12 34<CC 0F 06 00 12 34>, write 20 cut<CC 0F 20>, registers<CC AA>???, \
        copy 06 00 27 answers<CC 55 06 00 27>...., memory 0006<CC F0 06 00>??, E/S<CC AA>__?\n",
    );
    script::run(
        bench,
        &cards::MEMORY,
        b"short address: none of it, after a copy, write 0006 12 34<CC 0F 06 00 12 34>, \
        copy 06 00 07 answers<CC 55 06 00 07>...., write cut<CC 0F>, registers<CC AA>???, \
        copy 06 00 A7 answers<CC 55 06 00 A7>...., memory 0006<CC F0 06 00>??, E/S<CC AA>__?\n",
    );
}
