// The nine bench cases of document 01, the case of M-102 and the slips that document 01 names, run on the line as a host
// runs them at a terminal.
//
// A line of the output is a label and parts with commas between them. All numbers are hexadecimal, but for counts:
//   write 0006 12 34                 Write Scratchpad: the address, and the data bytes that the host wrote
//   write 20 cut                     Write Scratchpad that the next reset cuts: the bits of its address that the host wrote
//   registers 06 00 27               the first three bytes that Read Scratchpad sent: TA1, TA2 and E/S
//   E/S 07                           the third byte that Read Scratchpad sent
//   scratchpad 12 34                 the bytes that Read Scratchpad sent after E/S
//   copy 06 00 07 answers 0 1 0 1    Copy: the three bytes that the host wrote, and the four slots that it read after them
//   memory 0006 12 34                Read Memory: the address, and the bytes that the chip sent
//   status 0F                        PIO Access Read: the byte that the DS2413 sent
//   switch FE 01 answers AA 3C       PIO Access Write: the pair that the host wrote, and the two bytes that it read after it
// The label, what the host wrote and the addresses are words of the script; all else was computed, or read on the line.
// A card, a reset, a power on or outside levels that are refused write `refused` and the refusal's number where it happened.
// A slot is never refused where a reset or a power on was not.
#![tactic(auto)]

mod cards;
mod host;
mod listing;
mod memories;
mod pairs;
mod script;
mod slips;
mod sums;
mod switches;
mod text;

use host::Bench;

// Runs each case on a line of its own.
fn main(rt: HostRuntime) {
    let out = rt.stdout();
    let mut image = [0u8; 2624];
    let mut pad = [0u8; 32];
    let mut bench = Bench::new(out, &mut image, &mut pad);
    sums::case_1(&mut bench);
    listing::cases_2_and_3(out);
    memories::case_4(&mut bench);
    memories::case_5(&mut bench);
    memories::case_6(&mut bench);
    memories::case_7(&mut bench);
    switches::case_8(out);
    memories::case_9(&mut bench);
    memories::short_address(&mut bench);
    slips::register_page(&mut bench);
    slips::past_e(&mut bench);
    slips::kind_1(&mut bench);
    slips::kind_2(out);
    pairs::two_memories(out);
}
