// The memory of a part by its map: what a slot looks at, what it sees by it, and the rule of a byte. Where the bytes stand
// is a layout's to know; `flat` is one.
#![tactic(auto)]

pub mod flat;

ghost use Rattle.std.specs.Prelude.{◌≡◌};
ghost use Rattle.scratchpad.specs.Map.{rule_by};
ghost use Rattle.memory.specs.Part.{map_of};
ghost use Rattle.memory.specs.Memory.{look_of, sight, sight_by, span_of};

use scratchpad::{Hand, Sight};

// A part that has the scratchpad commands.
// Stays an enum with a match in each function below, no trait: the part is known at run time only, so that a trait would
// need the same match where a slot looks, sees and does.
#[derive(Clone, Copy, PartialEq, Eq)]
pub enum Part {
    Ds28ec20,
}

// Which bytes a slot looks at: none, two of the memory, or one of the scratchpad.
#[derive(Clone, Copy, PartialEq, Eq)]
pub enum Look {
    Nothing,
    Memory { first: usize, second: usize },
    Pad { offset: usize },
}

// The bytes that were looked at; 0 where there is none.
#[derive(Clone, Copy, PartialEq, Eq)]
pub struct Seen {
    pub first: u8,
    pub second: u8,
}

// The last address that Read Memory reads.
#[tactic(auto, using(crate::specs::Laws::map_ds28ec20), unfolding(ds28ec20::specs::Map::ds28ec20))]
pub fn last_address(part: Part) -> u16
    ensures { result ≡ (map_of part).last }
{
    match part {
        Part::Ds28ec20 => ds28ec20::LAST_ADDRESS,
    }
}

// Where the control byte of an address stands.
#[tactic(auto, using(crate::specs::Laws::map_ds28ec20), unfolding(ds28ec20::specs::Map::ds28ec20))]
pub fn control_address(part: Part, a: usize) -> usize
    ensures { result ≡ (map_of part).control a }
{
    match part {
        Part::Ds28ec20 => ds28ec20::control_address(a),
    }
}

// Where the lock byte of a page stands.
#[tactic(auto, using(crate::specs::Laws::map_ds28ec20), unfolding(ds28ec20::specs::Map::ds28ec20))]
pub fn lock_address(part: Part, page: usize) -> usize
    ensures { result ≡ (map_of part).lock page }
{
    match part {
        Part::Ds28ec20 => ds28ec20::lock_address(page),
    }
}

// An address is held, by its byte and its control byte.
#[tactic(auto, using(crate::specs::Laws::map_ds28ec20), unfolding(ds28ec20::specs::Map::ds28ec20))]
pub fn is_held(part: Part, a: usize, byte: u8, control: u8) -> bool
    ensures { result ≡ (map_of part).held a byte control }
{
    match part {
        Part::Ds28ec20 => ds28ec20::is_held(a, byte, control),
    }
}

// An address only falls, by its control byte.
#[tactic(auto, using(crate::specs::Laws::map_ds28ec20), unfolding(ds28ec20::specs::Map::ds28ec20))]
pub fn only_falls(part: Part, a: usize, control: u8) -> bool
    ensures { result ≡ (map_of part).falls a control }
{
    match part {
        Part::Ds28ec20 => ds28ec20::only_falls(a, control),
    }
}

// A page is closed to copying, by its control byte and its lock byte.
#[tactic(auto, using(crate::specs::Laws::map_ds28ec20), unfolding(ds28ec20::specs::Map::ds28ec20))]
pub fn is_closed(part: Part, page: usize, control: u8, lock: u8) -> bool
    ensures { result ≡ (map_of part).closed page control lock }
{
    match part {
        Part::Ds28ec20 => ds28ec20::is_closed(page, control, lock),
    }
}

// The last offset that Read Scratchpad sends.
#[tactic(auto, using(crate::specs::Laws::map_ds28ec20), unfolding(ds28ec20::specs::Map::ds28ec20))]
pub fn pad_end(part: Part, es: u8) -> u8
    ensures { result ≡ (map_of part).end es }
{
    match part {
        Part::Ds28ec20 => ds28ec20::pad_end(es),
    }
}

// Whether a reset inside the address of a write sets PF.
#[tactic(auto, using(crate::specs::Laws::map_ds28ec20), unfolding(ds28ec20::specs::Map::ds28ec20))]
pub fn cut_sets_pf(part: Part) -> bool
    ensures { result ≡ (map_of part).cut_sets_pf }
{
    match part {
        Part::Ds28ec20 => ds28ec20::CUT_SETS_PF,
    }
}

// A byte sent to an address, by the byte and the control byte that stand in the memory.
#[tactic(auto, unfolding(scratchpad::specs::Map::rule_by))]
pub fn rule(part: Part, a: usize, byte: u8, control: u8, sent: u8) -> u8
    ensures { result ≡ rule_by (map_of part) a byte control sent }
{
    let held = is_held(part, a, byte, control);
    let falls = only_falls(part, a, control);
    scratchpad::rule_of_byte(held, falls, byte, sent)
}

// Two bytes of the memory to look at.
pub fn two(a: usize, b: usize) -> Look
    ensures { result ≡ Look.Memory a b }
{
    Look::Memory {
        first: a,
        second: b,
    }
}

// Which bytes a slot looks at.
pub fn looks(part: Part, h: Hand) -> Look
    ensures { result ≡ look_of (map_of part) h }
{
    match h {
        Hand::Nothing => Look::Nothing,
        Hand::Byte { address } => two(address, control_address(part, address)),
        Hand::Page { start } => two(control_address(part, start), lock_address(part, start)),
        Hand::Pad { offset } => Look::Pad { offset },
        Hand::Memory { address } => two(address, address),
    }
}

// A sight: what was seen, with the part's own bounds.
pub fn sees(part: Part, es: u8, memory: u8, held: bool, falls: bool, closed: bool, pad: u8) -> Sight
    ensures { result ≡ sight (map_of part) es memory held falls closed pad }
{
    Sight {
        memory,
        held,
        falls,
        closed,
        pad,
        last: last_address(part),
        end: pad_end(part, es),
    }
}

// What a slot sees, by the bytes that it looked at.
pub fn sight(part: Part, es: u8, seen: Seen, h: Hand) -> Sight
    ensures { result ≡ sight_by (map_of part) es seen h }
{
    let Seen { first, second } = seen;
    let nothing = sees(part, es, 0, false, false, false, 0);
    match h {
        Hand::Nothing => nothing,
        Hand::Byte { address } => Sight {
            memory: first,
            held: is_held(part, address, first, second),
            falls: only_falls(part, address, second),
            ..nothing
        },
        Hand::Page { start } => Sight {
            closed: is_closed(part, start, first, second),
            ..nothing
        },
        Hand::Pad { .. } => Sight {
            pad: first,
            ..nothing
        },
        Hand::Memory { .. } => Sight {
            memory: first,
            ..nothing
        },
    }
}

// How many offsets there are from T mod 32 to E.
#[tactic(auto, unfolding(crate::specs::Memory::span_of))]
pub fn span(t: u16, e: u8) -> u8
    ensures { result ≡ span_of t e }
{
    (e % 32 + 1).saturating_sub((t % 32) as u8)
}
