// Up to 16 chips on one line: the table by value, and the event with its refusals.
#![tactic(auto)]

pub mod events;
mod judged;
mod packing;

pub use judged::{images_asked, pads_asked};

pub mod carrier;
mod chips;
mod loops;
mod runs;
mod steps;
pub mod tables;

ghost use Rattle.std.specs.Prelude.{◌≡◌, ◌≤◌, length};
ghost use Rattle.line.specs.Layout.{lent, capped};
ghost use Rattle.line.specs.Event.{number_of, answered, outcome, verdict_of, event_of};
ghost use Rattle.line.specs.Slots.{bytes_asked, slot_bit, with_slot_bit};

use chip::Chip;
use chips::Slice;
pub use loops::{act_at, bit_at};
pub use runs::take_slots;

// The most bytes of images that a table asks for.
pub const IMAGES_MOST: usize = 41984;

// The most bytes of scratchpads that a table asks for.
pub const PADS_MOST: usize = 512;

// The most slots of a run.
pub const SLOTS_MOST: usize = 65535;

// The table: the first n places hold the attached chips.
// Stays an array with a number: n may be 17, for which every call refuses the table, in fixed memory.
#[derive(Clone, Copy)]
pub struct Table {
    pub n: usize,
    pub chips: [Chip; 16],
}

// An event by its number, with the chip and the outside levels that event 4 names.
// Stays with a number: C hands it over, and refusal 6 is of every number but 0 to 4, which no enum names.
#[derive(Clone, Copy)]
pub struct Event {
    pub number: u32,
    pub chip: u32,
    pub outside: u32,
}

// A refusal of an event.
#[derive(Clone, Copy, PartialEq, Eq)]
pub enum Refusal {
    // refusal 8
    OutOfRange,
    // refusal 5
    WrongSize,
    // refusal 6
    NoSuchEvent,
    // refusal 7
    NoSuchOutside,
}

// What an event answers, the bus bit or a refusal, and the table that it leaves.
#[derive(Clone, Copy)]
pub struct Happened {
    pub answer: Result<bool, Refusal>,
    pub table: Table,
}

// What a run of slots answers, how many were put on the line or a refusal, and the table that it leaves.
#[derive(Clone, Copy)]
pub struct Ran {
    pub answer: Result<usize, Refusal>,
    pub table: Table,
}

// Up to eight slots of a run: the bits on the bus as a byte, and the table that they leave.
#[derive(Clone, Copy)]
pub struct ByteRan {
    pub byte: u8,
    pub table: Table,
}

// What every chip does at once: take a slot's value, be reset, or be powered on.
// Stays an enum: the definition `act_of` and the theorem `line_act_at` are of it.
#[derive(Clone, Copy)]
pub enum Act {
    Take(bool),
    Reset,
    PowerOn,
}

// What an event that is not refused comes to on a table.
#[derive(Clone, Copy, PartialEq, Eq)]
pub enum Plan {
    // a slot, with the host's bit
    Slot(bool),
    Reset,
    PowerOn,
    // new outside levels of one chip
    Outside { chip: usize, outside: u8 },
}

// Where the next chip of a table stands: its number, and where its parts of the buffers begin.
#[derive(Clone, Copy)]
pub struct Spot {
    pub place: usize,
    pub image: usize,
    pub pad: usize,
}

// What is known of the chips so far: whether all are in range, the kind of the chip that an event names, and where the
// next one stands, which is also the sizes that they ask.
// Stays with a number for the kind, 0 before the chip is seen: so do the definitions `first_survey` and `survey_chip`.
#[derive(Clone, Copy)]
pub struct Survey {
    pub within: bool,
    pub kind: u8,
    pub spot: Spot,
}

// The bit on the bus so far.
#[derive(Clone, Copy)]
pub struct Bus {
    pub value: bool,
    pub spot: Spot,
}

// A chip after its turn, and where the next one stands.
#[derive(Clone, Copy)]
pub struct Turned {
    pub chip: Chip,
    pub spot: Spot,
}

// The number of a refusal.
// Stays a function: the theorem `line_number_of` of the crate `coincide` is of it.
pub fn number_of(r: Refusal) -> u8
    ensures { result ≡ number_of r }
{
    match r {
        Refusal::OutOfRange => 8,
        Refusal::WrongSize => 5,
        Refusal::NoSuchEvent => 6,
        Refusal::NoSuchOutside => 7,
    }
}

// The places of a list or a table that can be used.
pub fn used_places(places: usize) -> usize
    ensures value { result ≡ capped places }
    ensures most { (result ≤ 16) × (result ≤ places) }
{
    if places < 16 { places } else { 16 }
}

// How many bytes the bits of so many slots ask.
pub fn bytes_asked(slots: usize) -> usize
    ensures { result ≡ bytes_asked slots }
{
    if slots % 8 == 0 {
        return slots / 8;
    }
    slots / 8 + 1
}

// The bit of a slot in packed bits, 0 past their end.
pub fn slot_bit(bits: &[u8], slot: usize) -> bool
    ensures { result ≡ slot_bit bits.now slot }
{
    let byte = base::byte_at(bits, slot / 8);
    base::bit_of(byte as u64, (slot % 8) as u8)
}

// The bit of a slot put into packed bits after those before it, and none after it in its byte; past their end nothing changes.
pub fn put_slot_bit(bits: &mut [u8], slot: usize, bit: bool)
    ensures { bits.new ≡ with_slot_bit bits.old slot bit }
{
    let byte = base::byte_at(bits, slot / 8);
    let more = packing::byte_with(byte, (slot % 8) as u8, bit);
    base::put_at(bits, slot / 8, more);
}

// How a table and its buffers stand: refusal 8, then 5.
pub fn how_stands(t: Table, ms: &[u8], ss: &[u8]) -> Result<(), Refusal>
    ensures { result ≡ verdict_of t.n t.chips ms.now ss.now }
{
    carrier::verdict_by(chips::survey(&t, 0), t.n, ms.len(), ss.len())
}

// One event: refusals 8, 5, 6 and 7 in this order, each with nothing changed; else the bus bit.
// Stays with images and scratchpads side by side, here and in the crates above: C lends them apart, and each clause speaks of each.
pub fn take_event(t: Table, e: Event, ms: &mut [u8], ss: &mut [u8]) -> Happened
    ensures { outcome (answered result.answer) result.table.n (lent result.table.chips ms.new ss.new)
        ≡ event_of t.n t.chips e ms.old ss.old }
{
    let mut table = t;
    let answer = chips::take_event(&mut table, e, ms, ss);
    Happened { answer, table }
}

// The same event on chips that stand in a lent slice.
pub fn take_lent_event(
    chips: &mut [Chip],
    e: Event,
    ms: &mut [u8],
    ss: &mut [u8],
) -> Result<bool, Refusal>
    ensures { outcome (answered result) (length chips.new) (lent chips.new ms.new ss.new)
        ≡ event_of (length chips.old) chips.old e ms.old ss.old }
{
    chips::take_event(&mut Slice { chips }, e, ms, ss)
}
