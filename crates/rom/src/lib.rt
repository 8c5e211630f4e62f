// The ROM level of a chip, over its code and RC. It knows no part.
#![tactic(auto)]

ghost use Rattle.std.specs.Prelude.{◌≡◌};
ghost use Rattle.rom.specs.Rom.{command_of, command_bit, read_bit, match_bit, search_bit, rom_takes, search_sends, rom_sends, rom_in_range};

use base::Register;

// A step of the ROM level, with what it needs to go on.
#[derive(Clone, Copy, PartialEq, Eq)]
pub enum RomStep {
    // the ROM command: bits taken so far, and the register that they fill
    Command { count: u8, bits: u8 },
    // Read ROM: the place of the bit to send
    Read { place: u8 },
    // Match ROM: the place of the bit to take
    Match { place: u8 },
    // Search ROM: the place, and at it 0 the bit, 1 its complement, 2 the bit to take
    Search { place: u8, slot: u8 },
}

// Where a slot leads from a step.
#[derive(Clone, Copy, PartialEq, Eq)]
pub enum RomNext {
    Wait,
    Step(RomStep),
    Function,
}

// Where a slot leads, and RC.
#[derive(Clone, Copy, PartialEq, Eq)]
pub struct RomResult {
    pub next: RomNext,
    pub rc: bool,
}

// What a chip knows of the ROM commands that not every chip knows: Resume.
#[derive(Clone, Copy, PartialEq, Eq)]
pub struct Knows {
    pub resume: bool,
}

// What a ROM command does, once its eight bits are in.
#[tactic(auto, using(base::specs::Rules::cases), unfolding(crate::specs::Rom::command_of, base::specs::Bits::both, base::specs::Pick::pick))]
pub fn command(knows: Knows, rc: bool, b: u8) -> RomResult
    ensures { result ≡ command_of knows rc b }
{
    let (next, rc) = match b {
        0x33 => (RomNext::Step(RomStep::Read { place: 0 }), false),
        0x55 => (RomNext::Step(RomStep::Match { place: 0 }), false),
        0xF0 => (RomNext::Step(RomStep::Search { place: 0, slot: 0 }), false),
        0xCC => (RomNext::Function, false),
        0xA5 if knows.resume && rc => (RomNext::Function, rc),
        _ => (RomNext::Wait, rc),
    };
    RomResult { next, rc }
}

// A bit of the ROM command.
#[tactic(auto, using(base::specs::Rules::cases), unfolding(crate::specs::Rom::command_bit))]
pub fn command_bit(knows: Knows, rc: bool, count: u8, bits: u8, v: bool) -> RomResult
    ensures { result ≡ command_bit knows rc count bits v }
{
    let bits = bits.filled(v);
    if count < 7 {
        let next = RomNext::Step(RomStep::Command {
            count: count + 1,
            bits,
        });
        RomResult { next, rc }
    } else {
        command(knows, rc, bits)
    }
}

// A bit of the code was sent.
#[tactic(auto, using(base::specs::Rules::cases), unfolding(crate::specs::Rom::read_bit))]
pub fn read_bit(rc: bool, place: u8) -> RomResult
    ensures { result ≡ read_bit rc place }
{
    let next = if place < 63 {
        RomNext::Step(RomStep::Read { place: place + 1 })
    } else {
        RomNext::Function
    };
    RomResult { next, rc }
}

// A bit of Match ROM.
#[tactic(auto, using(base::specs::Rules::cases), unfolding(crate::specs::Rom::match_bit, base::specs::Bits::same, base::specs::Pick::pick))]
pub fn match_bit(code: u64, rc: bool, place: u8, v: bool) -> RomResult
    ensures { result ≡ match_bit code rc place v }
{
    let (next, rc) = if base::bit_of(code, place) != v {
        (RomNext::Wait, rc)
    } else if place < 63 {
        (RomNext::Step(RomStep::Match { place: place + 1 }), rc)
    } else {
        (RomNext::Function, true)
    };
    RomResult { next, rc }
}

// A slot of Search ROM.
#[tactic(auto, using(base::specs::Rules::cases), unfolding(crate::specs::Rom::search_bit, base::specs::Bits::same, base::specs::Pick::pick))]
pub fn search_bit(code: u64, rc: bool, place: u8, slot: u8, v: bool) -> RomResult
    ensures { result ≡ search_bit code rc place slot v }
{
    let (next, rc) = if slot < 2 {
        let slot = slot + 1;
        (RomNext::Step(RomStep::Search { place, slot }), rc)
    } else if base::bit_of(code, place) != v {
        (RomNext::Wait, rc)
    } else if place < 63 {
        let place = place + 1;
        (RomNext::Step(RomStep::Search { place, slot: 0 }), rc)
    } else {
        (RomNext::Function, true)
    };
    RomResult { next, rc }
}

// What a slot of the value v does at a step.
#[tactic(auto, using(crate::specs::Step::takes_at))]
pub fn takes(code: u64, rc: bool, v: bool, knows: Knows, s: RomStep) -> RomResult
    ensures { result ≡ rom_takes code rc v knows s }
{
    match s {
        RomStep::Command { count, bits } => command_bit(knows, rc, count, bits, v),
        RomStep::Read { place } => read_bit(rc, place),
        RomStep::Match { place } => match_bit(code, rc, place, v),
        RomStep::Search { place, slot } => search_bit(code, rc, place, slot, v),
    }
}

// What Search ROM sends: the bit, its complement, and nothing while the chip takes one.
#[tactic(auto, using(base::specs::Rules::cases), unfolding(crate::specs::Rom::search_sends))]
pub fn search_sends(code: u64, place: u8, slot: u8) -> bool
    ensures { result ≡ search_sends code place slot }
{
    match slot {
        0 => base::bit_of(code, place),
        1 => !base::bit_of(code, place),
        _ => true,
    }
}

// What a chip sends in a slot at a step.
pub fn sends(code: u64, s: RomStep) -> bool
    ensures { result ≡ rom_sends code s }
{
    match s {
        RomStep::Command { .. } | RomStep::Match { .. } => true,
        RomStep::Read { place } => base::bit_of(code, place),
        RomStep::Search { place, slot } => search_sends(code, place, slot),
    }
}

// Whether a step's count and places lie inside it.
#[tactic(auto, unfolding(base::specs::Bits::both, base::specs::Pick::pick))]
pub fn in_range(s: RomStep) -> bool
    ensures { result ≡ rom_in_range s }
{
    match s {
        RomStep::Command { count, .. } => count < 8,
        RomStep::Read { place } | RomStep::Match { place } => place < 64,
        RomStep::Search { place, slot } => place < 64 && slot < 3,
    }
}
