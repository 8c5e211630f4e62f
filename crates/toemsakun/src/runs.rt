// A run of slots on a table that is lent as bytes: judged once, then slot by slot in place, eight to a byte.
ghost use Rattle.std.specs.Prelude.{◌≡◌, ◌≤◌, length};
ghost use Rattle.line.specs.Slots.{bits_of, host_bits, number_from, bytes_from, run_on, bytes_asked, run_fits, slotted};
ghost use Rattle.packed.specs.Places.{Table16};
ghost use Rattle.toemsakun.specs.Answers.{slots_put};
ghost use Rattle.toemsakun.specs.Library.{slots_left, slots_number, slots_bytes};
ghost use Rattle.toemsakun.specs.Slots.{Lined, line_in, Outside};
ghost use Rattle.toemsakun.specs.Verdicts.{refused8, verdict_bytes};

use crate::slots::Range;
use crate::{loops, slots};
use line::{Refusal, Survey};

// What a run is judged to on bytes and their buffers, with bits and answers of two sizes.
fn verdict_bytes(
    table: &[u8],
    slots: usize,
    bits: usize,
    answers: usize,
    ms: &[u8],
    ss: &[u8],
) -> Result<(), Refusal>
    ensures { result ≡ verdict_bytes table.now ms.now ss.now (run_fits slots bits answers) }
{
    let Some(survey) = loops::judge(table, 0) else {
        return Err(Refusal::OutOfRange);
    };
    let n = survey.spot.place;
    line::carrier::run_verdict_by(survey, n, ms.len(), ss.len(), slots, bits, answers)
}

// Up to eight slots, whose host bits are the first of a byte: the bits on the bus as a byte.
fn run_byte(table: &mut [u8], g: Range, bits: u8, count: usize, ms: &mut [u8], ss: &mut [u8]) -> u8
    requires lined { Lined table.old ms.old ss.old × Outside g table.old }
    requires count_bound { count ≤ 8 }
    ensures value { result ≡ number_from 1 (run_on (bits_of count bits) (line_in table.old ms.old ss.old)).bits }
    ensures ss_after { line_in table.new ms.new ss.new ≡ (run_on (bits_of count bits) (line_in table.old ms.old ss.old)).line }
    ensures lined_2 { Lined table.new ms.new ss.new × Outside g table.new }
{
    let mut host = bits;
    let mut sum: u16 = 0;
    let mut worth: u16 = 1;
    for i in 0..count {
        let value = slots::slot(table, g, host % 2 == 1, ms, ss);
        let more = line::carrier::with_bit(sum, value, worth);
        sum = more as u16;
        host = host / 2;
        worth = 2 * worth;
    }
    sum as u8
}

// The range without the chips at its ends that wait.
fn narrow(table: &[u8], g: Range) -> Range
    requires { Table16 table.now × Outside g table.now }
    ensures { Outside result table.now }
{
    let r = slots::front(table, g);
    slots::back(table, r)
}

// All slots of a run, on a table and buffers that stand well, with bits and answers of the sizes that they ask.
fn run_all(
    table: &mut [u8],
    bits: &[u8],
    answers: &mut [u8],
    slots: usize,
    ms: &mut [u8],
    ss: &mut [u8],
)
    requires lined { Lined table.old ms.old ss.old }
    requires slots_bound { (slots ≤ 65535) × (length bits.now ≡ bytes_asked slots) × (length answers.old ≡ bytes_asked slots) }
    ensures answers_after { answers.new ≡ bytes_from (length answers.old) (run_on (host_bits slots bits.now) (line_in table.old ms.old ss.old)).bits }
    ensures ss_after { line_in table.new ms.new ss.new ≡ (run_on (host_bits slots bits.now) (line_in table.old ms.old ss.old)).line }
    ensures lined_2 { Lined table.new ms.new ss.new }
{
    let mut g = slots::whole(table);
    let mut left = slots;
    for at in 0..bits.len() {
        let count = line::carrier::next_count(left);
        g = narrow(table, g);
        let byte = run_byte(table, g, bits[at], count, ms, ss);
        answers[at] = byte;
        left -= count;
    }
}

// The slots of a run by its verdict.
fn run_by(
    judged: Result<(), Refusal>,
    table: &mut [u8],
    bits: &[u8],
    answers: &mut [u8],
    slots: usize,
    ms: &mut [u8],
    ss: &mut [u8],
) -> Result<usize, Refusal>
    requires { judged ≡ verdict_bytes table.old ms.old ss.old (run_fits slots (length bits.now) (length answers.old)) }
    ensures ss_after { slots_left (slots_number (slotted result)) answers.new table.new ms.new ss.new
        ≡ slots_bytes table.old bits.now answers.old slots ms.old ss.old }
    ensures most { slots_put result ≤ 65535 }
{
    match judged {
        Ok(()) => {
            run_all(table, bits, answers, slots, ms, ss);
            Ok(slots)
        }
        Err(r) => Err(r),
    }
}

// A run of slots: its refusals in their order (`line::take_slots`), each with nothing changed; else how many were put on
// the line.
pub fn take_slots(
    table: &mut [u8],
    bits: &[u8],
    answers: &mut [u8],
    slots: usize,
    ms: &mut [u8],
    ss: &mut [u8],
) -> Result<usize, Refusal>
    ensures ss_after { slots_left (slots_number (slotted result)) answers.new table.new ms.new ss.new
        ≡ slots_bytes table.old bits.now answers.old slots ms.old ss.old }
    ensures most { slots_put result ≤ 65535 }
{
    let judged = verdict_bytes(table, slots, bits.len(), answers.len(), ms, ss);
    run_by(judged, table, bits, answers, slots, ms, ss)
}
