// The record at an offset of a recording.
ghost use Rattle.std.specs.Prelude.{◌≡◌, ◌+◌, ◌≤◌, length, drop};
ghost use Rattle.line.specs.Slots.{bits_of, bytes_asked};
ghost use Rattle.records.specs.Numbers.{number_at};
ghost use Rattle.recording.specs.Reading.{is_event, length_asked, cut_off, may_be_right, cut_record, chip_record, card_record, none_set, unused_clear, slots_record, event_in, event_record, whole_record, at_end, found_at, starts_event};

use crate::{Fault, Found, Record};
use card::{ENTRY_LENGTH, Entry};
use line::Event;
use records::Head;

// One of kinds 16 to 19.
// Stays a number, here and below: so it is for `is_event`, `length_asked` and `event_in`, and refusal 2 is of kinds that no enum names.
fn is_event(kind: u16) -> bool
    ensures { result ≡ is_event kind }
{
    matches!(kind, 16..=19)
}

// The length that a record of these kinds has, where its body starts.
fn length_asked(s: &[u8], body: usize, kind: u16) -> usize
    ensures { result ≡ length_asked s.now body kind }
{
    if kind == 16 {
        let count = records::pair_at(s, body);
        let bytes = line::bytes_asked(count as usize);
        return 4 + bytes;
    }
    if kind == 19 {
        return 4;
    }
    2
}

// A record that is not all there, and may still be right or not.
fn cut_off(right: bool, more: bool) -> Result<Found, Fault>
    ensures { result ≡ cut_off right more }
{
    if right && more {
        Ok(Found::Part)
    } else {
        Err(Fault::OnCard(card::Fault::WrongLength))
    }
}

// A record of one of kinds 16 to 19 that is not all there may still be right.
fn may_be_right(s: &[u8], at: usize, size: u16, kind: u16) -> bool
    requires { at + 4 ≤ length s.now }
    ensures { result ≡ may_be_right s.now at size kind }
{
    let left = s.len() - at;
    let asked = length_asked(s, at + 4, kind);
    (kind == 16 && left < 6) || usize::from(size) == asked
}

// A record that is there up to its kind, and not whole.
fn cut_record(s: &[u8], at: usize, more: bool, size: u16, kind: u16) -> Result<Found, Fault>
    requires { at + 4 ≤ length s.now }
    ensures { result ≡ cut_record s.now at more size kind }
{
    if is_event(kind) {
        let right = may_be_right(s, at, size, kind);
        return cut_off(right, more);
    }
    if card::is_known(kind) {
        return cut_off(size == ENTRY_LENGTH, more);
    }
    Err(Fault::OnCard(card::Fault::UnknownKind))
}

// A chip of the card, where a record of one of kinds 16 to 19 came before or not.
fn chip_record(over: bool, code: u64, kind: u8, next: usize) -> Result<Found, Fault>
    ensures { result ≡ chip_record over code kind next }
{
    if over {
        return Err(Fault::CardAfterEvent);
    }
    Ok(Found::Record(Record::Chip { code, kind }, next))
}

// A whole record of the card, by what the card makes of it.
fn card_record(over: bool, entry: Result<Option<Entry>, card::Fault>) -> Result<Found, Fault>
    ensures { result ≡ card_record over entry }
{
    match entry? {
        None => Ok(Found::End),
        Some(e) => chip_record(over, e.code, e.kind, e.next),
    }
}

// The bits of a byte from a place on are 0.
fn are_clear(byte: u8, place: u8) -> bool
    ensures { result ≡ none_set (drop place (bits_of 8 byte)) }
{
    if place < 8 {
        return byte >> place == 0;
    }
    true
}

// The bits of a run past its slots are 0: those of its last byte, unless all of that are used.
fn unused_clear(bytes: &[u8], count: u16) -> bool
    requires { length bytes.now ≡ bytes_asked count }
    ensures { result ≡ unused_clear count bytes.now }
{
    let place = (count % 8) as u8;
    if place == 0 {
        return true;
    }
    let last = base::byte_at(bytes, (count as usize) / 8);
    are_clear(last, place)
}

// A run of slots of the length that its count asks.
fn slots_record(s: &[u8], body: usize, next: usize) -> Result<Found, Fault>
    requires { (body + (2 + bytes_asked (number_at s.now body 2)) ≡ next) × (next ≤ length s.now) }
    ensures { result ≡ slots_record s.now body next }
{
    let count = records::pair_at(s, body);
    let from = body + 2;
    if unused_clear(&s[from..next], count) {
        let taken = Record::Slots {
            count,
            from,
            to: next,
        };
        return Ok(Found::Record(taken, next));
    }
    Err(Fault::UnusedBits)
}

// The event of a record of kinds 17 to 19.
fn event_in(s: &[u8], body: usize, kind: u16) -> Event
    requires { body ≤ length s.now }
    ensures { result ≡ event_in s.now body kind }
{
    if kind == 17 {
        return line::events::reset();
    }
    if kind == 18 {
        return line::events::power_on();
    }
    let chip = base::byte_at(s, body);
    let outside = base::byte_at(s, body + 1);
    line::events::outside(chip as u32, outside as u32)
}

// A whole record of one of kinds 16 to 19.
// Stays: what is asked of a body and of the next record stands at three functions, each of which asks another part of it, so that a
// struct for a whole record, with all of it as its invariant, would not be plainer.
fn event_record(s: &[u8], size: u16, kind: u16, body: usize, next: usize) -> Result<Found, Fault>
    requires { (body + size ≡ next + 2) × (next ≤ length s.now) }
    ensures { result ≡ event_record s.now size kind body next }
{
    let asked = length_asked(s, body, kind);
    if size as usize == asked {
        if kind == 16 {
            return slots_record(s, body, next);
        }
        let event = event_in(s, body, kind);
        return Ok(Found::Record(Record::Event(event), next));
    }
    Err(Fault::OnCard(card::Fault::WrongLength))
}

// A whole record.
fn whole_record(
    s: &[u8],
    at: usize,
    room: usize,
    over: bool,
    size: u16,
    kind: u16,
    body: usize,
    next: usize,
) -> Result<Found, Fault>
    requires { (body + size ≡ next + 2) × (next ≤ length s.now) }
    ensures { result ≡ whole_record s.now at room over size kind body next }
{
    if is_event(kind) {
        return event_record(s, size, kind, body, next);
    }
    card_record(over, card::entry_at(s, at, room))
}

// The end of what is there.
fn at_end(more: bool) -> Result<Found, Fault>
    ensures { result ≡ at_end more }
{
    Ok(if more { Found::Part } else { Found::End })
}

// What stands at an offset, where room more chips may come, a record of one of kinds 16 to 19 came before or not, and more of
// the recording may come or not.
pub fn record_at(s: &[u8], at: usize, room: usize, over: bool, more: bool) -> Result<Found, Fault>
    ensures { result ≡ found_at s.now at room over more }
{
    match records::head_at(s, at) {
        Head::End => at_end(more),
        Head::Short => cut_off(true, more),
        Head::Cut { length, kind } => cut_record(s, at, more, length, kind),
        Head::Whole {
            length,
            kind,
            body,
            next,
        } => whole_record(s, at, room, over, length, kind, body, next),
    }
}

// A record of one of kinds 16 to 19 starts at an offset, whatever is wrong with it.
pub fn starts_event(s: &[u8], at: usize) -> bool
    ensures { result ≡ starts_event s.now at }
{
    match records::head_at(s, at) {
        Head::End | Head::Short => false,
        Head::Cut { kind, .. } | Head::Whole { kind, .. } => is_event(kind),
    }
}
