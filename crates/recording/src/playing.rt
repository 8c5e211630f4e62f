// The events of a recording put on a line, and their answers written as characters.
ghost use Rattle.std.specs.Prelude.{◌≡◌, ◌+◌, ◌*◌, ◌≤◌, length};
ghost use Rattle.line.specs.Attached.{attached};
ghost use Rattle.line.specs.Slots.{host_bits, bytes_asked, slotted};
ghost use Rattle.line.specs.Event.{answered};
ghost use Rattle.recording.specs.Playing.{digit, ends_of, event_step, slots_step, record_step, play_all, handed, handed_from, play_of, put_digits};
ghost use Rattle.recording.specs.Putting.{put, put_from, written_by, written_in, written_run, ends_after, RecordFits, answers_most};

use crate::{Ending, Fault, Found, Played, RUN_BYTES, Record, cards, joining, reading};
use line::{Event, Refusal, Table};

// What a record's events answer, how many answers were written or a refusal, and the table that they leave.
#[derive(Clone, Copy)]
pub struct RecordPut {
    pub answer: Result<usize, Refusal>,
    pub table: Table,
}

// The character of an answer.
// Stays an `if`, which shows both characters; a sum with `u8::from` is no plainer.
fn digit_of(b: bool) -> u8
    ensures { result ≡ digit b }
{
    if b { b'1' } else { b'0' }
}

// The characters of the first n packed answers put into the text from a place on.
fn put_digits(answers: &[u8], n: usize, out: &mut [u8], place: usize)
    requires { (n ≤ 8 * length answers.now) × (place + n ≤ length out.old) }
    ensures { out.new ≡ put_digits (host_bits n answers.now) place out.old }
{
    for i in 0..n {
        base::put_at(out, place + i, digit_of(line::slot_bit(answers, i)));
    }
}

// The refusal in the answer of an event; a bit has none, and counts as one answer.
fn refused_event(answer: Result<bool, Refusal>) -> Result<usize, Refusal>
    ensures { written_by result ≡ written_in (answered answer) }
{
    answer?;
    Ok(1)
}

// The refusal in the answer of a record, by which playing ends.
fn refused_record(answer: Result<usize, Refusal>) -> Result<Ending, Fault>
    ensures { ends_of result ≡ ends_after (written_by answer) }
{
    answer?;
    Ok(Ending::Part)
}

// An event, with its answer put into the text at a place.
fn put_event(
    t: Table,
    e: Event,
    out: &mut [u8],
    place: usize,
    ms: &mut [u8],
    ss: &mut [u8],
) -> RecordPut
    ensures { put (written_by result.answer) out.new (attached result.table.n result.table.chips ms.new ss.new)
        ≡ put_from place out.old (event_step e (attached t.n t.chips ms.old ss.old)) }
{
    let happened = line::take_event(t, e, ms, ss);
    let table = happened.table;
    let Ok(b) = happened.answer else {
        return RecordPut {
            answer: refused_event(happened.answer),
            table,
        };
    };
    base::put_at(out, place, digit_of(b));
    RecordPut {
        answer: Ok(1),
        table,
    }
}

// A run of slots whose host bits are given, with its answers put into the text from a place on.
fn put_slots(
    t: Table,
    bits: &[u8],
    count: u16,
    packed: &mut [u8; RUN_BYTES],
    out: &mut [u8],
    place: usize,
    ms: &mut [u8],
    ss: &mut [u8],
) -> RecordPut
    requires { (length bits.now ≡ bytes_asked count) × (place + count ≤ length out.old) }
    ensures { put (written_by result.answer) out.new (attached result.table.n result.table.chips ms.new ss.new)
        ≡ put_from place out.old (slots_step count bits.now (attached t.n t.chips ms.old ss.old)) }
{
    if count == 0 {
        return RecordPut {
            answer: Ok(0),
            table: t,
        };
    }
    let bytes = bits.len();
    let ran = line::take_slots(t, bits, count as usize, &mut packed[..bytes], ms, ss);
    let table = ran.table;
    let Ok(n) = ran.answer else {
        return RecordPut {
            answer: ran.answer,
            table,
        };
    };
    put_digits(packed, n, out, place);
    RecordPut {
        answer: Ok(n),
        table,
    }
}

// The events of a record, with their answers put into the text from a place on.
fn put_record(
    t: Table,
    taken: Record,
    s: &[u8],
    packed: &mut [u8; RUN_BYTES],
    out: &mut [u8],
    place: usize,
    ms: &mut [u8],
    ss: &mut [u8],
) -> RecordPut
    requires { (RecordFits s.now taken) × (place + answers_most taken ≤ length out.old) }
    ensures { put (written_by result.answer) out.new (attached result.table.n result.table.chips ms.new ss.new)
        ≡ put_from place out.old (record_step s.now taken (attached t.n t.chips ms.old ss.old)) }
{
    match taken {
        Record::Chip { .. } => RecordPut {
            answer: Ok(0),
            table: t,
        },
        Record::Slots { count, from, to } => {
            put_slots(t, &s[from..to], count, packed, out, place, ms, ss)
        }
        Record::Event(e) => put_event(t, e, out, place, ms, ss),
    }
}

// Playing that ends at an offset, with so many answers written.
fn played(ending: Result<Ending, Fault>, at: usize, answers: usize, table: Table) -> Played
    ensures { result ≡ record { ending = ending; at = at; answers = answers; table = table } }
{
    Played {
        ending,
        at,
        answers,
        table,
    }
}

// All records of what is there, on a text with room for their answers.
fn play_all(t: Table, s: &[u8], more: bool, out: &mut [u8], ms: &mut [u8], ss: &mut [u8]) -> Played
    requires { length out.old ≡ 8 * length s.now }
    ensures { handed (ends_of result.ending) result.at result.answers out.new (attached result.table.n result.table.chips ms.new ss.new)
        ≡ handed_from out.old (play_all more s.now (attached t.n t.chips ms.old ss.old)) }
{
    let mut packed = [0; RUN_BYTES];
    let mut host = [0; RUN_BYTES];
    let mut table = t;
    let mut at: usize = 0;
    let mut place: usize = 0;
    // Stays a loop over offsets: each record, or run of records, says where the next one begins.
    loop {
        let room = cards::room_for(table.n);
        let found = reading::record_at(s, at, room, true, more);
        let Ok(Found::Record(taken, next)) = found else {
            return played(cards::stopped_by(found), at, place, table);
        };
        let joined = joining::with_next_runs(taken, s, next, room, more, &mut host);
        let put = put_record(table, joined.record, &host, &mut packed, out, place, ms, ss);
        table = put.table;
        let Ok(n) = put.answer else {
            return played(refused_record(put.answer), at, place, table);
        };
        place += n;
        at = joined.next;
    }
}

// The player: the records of what is there of a recording, after its card, on a table and its buffers, where more of it may
// come or not. The text has eight places for each byte, one for each answer that there may be; else refusal 5, with nothing
// changed. The first refusal ends it, before the record at fault.
pub fn play(t: Table, s: &[u8], more: bool, out: &mut [u8], ms: &mut [u8], ss: &mut [u8]) -> Played
    ensures { handed (ends_of result.ending) result.at result.answers out.new (attached result.table.n result.table.chips ms.new ss.new)
        ≡ play_of more s.now out.old (attached t.n t.chips ms.old ss.old) }
{
    let places = out.len();
    if places % 8 == 0 && places / 8 == s.len() {
        return play_all(t, s, more, out, ms, ss);
    }
    played(Err(Fault::OnLine(Refusal::WrongSize)), 0, 0, t)
}
