// A run of slots on the table by value: judged once, then slot by slot, eight to a byte.
ghost use Rattle.std.specs.Prelude.{◌≡◌, ◌≤◌, length};
ghost use Rattle.line.specs.Layout.{lent, line_of, lent_from};
ghost use Rattle.line.specs.Event.{Fits};
ghost use Rattle.line.specs.Slots.{bits_of, number_from, run_on, slotted, run_outcome, run_verdict, run_by, slots_of, host_bits, bytes_from, bytes_asked};

use crate::{ByteRan, Plan, Ran, Refusal, Table, carrier, chips};

// Up to eight slots, whose host bits are the first of a byte.
fn run_byte(t: Table, bits: u8, count: usize, ms: &mut [u8], ss: &mut [u8]) -> ByteRan
    requires fits { Fits t.n t.chips ms.old ss.old }
    requires count_bound { count ≤ 8 }
    ensures byte_value { result.byte ≡ number_from 1 (run_on (bits_of count bits) (line_of t.n t.chips ms.old ss.old)).bits }
    ensures ss_after { (lent result.table.chips ms.new ss.new ≡ lent_from t.n t.chips (run_on (bits_of count bits) (line_of t.n t.chips ms.old ss.old)).line) × (result.table.n ≡ t.n) }
{
    let mut table = t;
    let mut host = bits;
    let mut sum: u16 = 0;
    let mut worth: u16 = 1;
    for i in 0..count {
        let value = chips::carry_out(&mut table, Plan::Slot(host % 2 == 1), ms, ss);
        sum = carrier::with_bit(sum, value, worth) as u16;
        host /= 2;
        worth = 2 * worth;
    }
    ByteRan {
        byte: sum as u8,
        table: table,
    }
}

// All slots of a run, on a table and buffers that stand well, with bits and answers of the sizes that they ask.
fn run_all(
    t: Table,
    bits: &[u8],
    slots: usize,
    answers: &mut [u8],
    ms: &mut [u8],
    ss: &mut [u8],
) -> Table
    requires fits { Fits t.n t.chips ms.old ss.old }
    requires slots_bound { (slots ≤ 65535) × (length bits.now ≡ bytes_asked slots) × (length answers.old ≡ bytes_asked slots) }
    ensures answers_after { answers.new ≡ bytes_from (length answers.old) (run_on (host_bits slots bits.now) (line_of t.n t.chips ms.old ss.old)).bits }
    ensures ss_after { (lent result.chips ms.new ss.new ≡ lent_from t.n t.chips (run_on (host_bits slots bits.now) (line_of t.n t.chips ms.old ss.old)).line) × (result.n ≡ t.n) }
{
    let mut table = t;
    let mut left = slots;
    let mut at: usize = 0;
    // Stays a `while`: what is left says how many slots the next byte has, and a range would count them beside it.
    while 0 < left {
        let count = carrier::next_count(left);
        let host = bits[at];
        let r = run_byte(table, host, count, ms, ss);
        let after = r.table;
        answers[at] = r.byte;
        table = after;
        left -= count;
        at += 1;
    }
    table
}

// The slots of a run by its verdict.
fn run_by(
    judged: Result<(), Refusal>,
    t: Table,
    bits: &[u8],
    slots: usize,
    answers: &mut [u8],
    ms: &mut [u8],
    ss: &mut [u8],
) -> Ran
    requires { judged ≡ run_verdict t.n t.chips slots bits.now answers.old ms.old ss.old }
    ensures { run_outcome (slotted result.answer) answers.new result.table.n (lent result.table.chips ms.new ss.new)
        ≡ run_by judged t.n t.chips slots bits.now answers.old ms.old ss.old }
{
    match judged {
        Ok(()) => Ran {
            table: run_all(t, bits, slots, answers, ms, ss),
            answer: Ok(slots),
        },
        Err(r) => Ran {
            answer: Err(r),
            table: t,
        },
    }
}

// A run of slots, whose host bits and answers stand in bytes, least significant bit first: refusals 8 and 5 in this order,
// with nothing changed; else how many slots were put on the line.
pub fn take_slots(
    t: Table,
    bits: &[u8],
    slots: usize,
    answers: &mut [u8],
    ms: &mut [u8],
    ss: &mut [u8],
) -> Ran
    ensures { run_outcome (slotted result.answer) answers.new result.table.n (lent result.table.chips ms.new ss.new)
        ≡ slots_of t.n t.chips slots bits.now answers.old ms.old ss.old }
{
    let survey = chips::survey(&t, 0);
    let judged = carrier::run_verdict_by(
        survey,
        t.n,
        ms.len(),
        ss.len(),
        slots,
        bits.len(),
        answers.len(),
    );
    run_by(judged, t, bits, slots, answers, ms, ss)
}
