// One chip of any kind: its record, what it sends in a slot, and what each event does to it.
#![tactic(auto)]

pub mod kinds;
mod parts;
pub mod range;

ghost use Rattle.std.specs.Prelude.{◌≡◌};
ghost use Rattle.chip.specs.Chip.{whole, looks_of, takes_by, sends_by, takes_of, sends_of, level_reset, reset_chip, power_on_chip, power_on_pad, outside_chip, set_up_chip};

use ds2413::{Switch, SwitchPhase};
use memory::{Look, Seen};
use rom::RomStep;
use scratchpad::{Deed, MemoryPhase, Registers};

// The level of a chip, with what it needs to go on.
#[derive(Clone, Copy, PartialEq, Eq)]
pub enum Level {
    // until the next reset
    Waiting,
    // from a reset on: the ROM command with its bit count, and the steps that it begins
    Rom(RomStep),
    // the function command: bits taken so far, and the register that they fill
    FunctionCommand { count: u8, bits: u8 },
    // a function of a DS28EC20
    Memory(MemoryPhase),
    // a function of a DS2413
    Pio(SwitchPhase),
}

// A chip's record. The registers of T and E/S are a DS28EC20's, the latches and outside levels a DS2413's.
// Stays a number: the kind, since a table from C may hold one that names no kind, which `range::is_in_range` finds.
#[derive(Clone, Copy, PartialEq, Eq)]
pub struct Chip {
    pub code: u64,
    pub kind: u8,
    pub rc: bool,
    pub level: Level,
    pub registers: Registers,
    pub switch: Switch,
}

// Where a slot leaves a chip, and what is to be done to its memory and scratchpad.
#[derive(Clone, Copy, PartialEq, Eq)]
pub struct ChipAfter {
    pub chip: Chip,
    pub deed: Deed,
}

// Which bytes a slot looks at.
#[tactic(auto, unfolding(crate::specs::Chip::looks_of))]
pub fn looks(c: Chip) -> Look
    ensures { result ≡ looks_of c }
{
    match c.level {
        Level::Memory(phase) => parts::memory_looks(c, phase),
        Level::Waiting | Level::Rom(_) | Level::FunctionCommand { .. } | Level::Pio(_) =>
            Look::Nothing,
    }
}

// Where a slot of the value v leaves a chip, by what it saw.
#[tactic(auto, unfolding(crate::specs::Chip::takes_by))]
pub fn takes_by(c: Chip, v: bool, seen: Seen) -> ChipAfter
    ensures { result ≡ takes_by c v seen }
{
    match c.level {
        Level::Waiting => parts::still(c),
        Level::Rom(step) => parts::still(parts::rom_slot(c, step, v)),
        Level::FunctionCommand { count, bits } => parts::function_slot(c, count, bits, v),
        Level::Memory(phase) => parts::memory_slot(c, phase, v, seen),
        Level::Pio(phase) => parts::still(parts::switch_slot(c, phase, v)),
    }
}

// The bit that a chip sends in a slot, by what it saw.
#[tactic(auto, unfolding(crate::specs::Chip::sends_by))]
pub fn sends_by(c: Chip, seen: Seen) -> bool
    ensures { result ≡ sends_by c seen }
{
    match c.level {
        Level::Waiting | Level::FunctionCommand { .. } => true,
        Level::Rom(step) => rom::sends(c.code, step),
        Level::Memory(phase) => parts::memory_sends(c, phase, seen),
        Level::Pio(phase) => ds2413::sends(phase),
    }
}

// What a slot of the value v does to a chip, its memory and its scratchpad.
pub fn takes(c: Chip, v: bool, m: &mut [u8], s: &mut [u8]) -> Chip
    ensures { whole result m.new s.new ≡ takes_of v (whole c m.old s.old) }
{
    let look = looks(c);
    let seen = memory::flat::fetch(look, m, s);
    let to = takes_by(c, v, seen);
    let part = kinds::part_of(c.kind);
    memory::flat::carry_out(part, to.deed, m, s);
    to.chip
}

// The bit that a chip sends in a slot.
pub fn sends(c: Chip, m: &[u8], s: &[u8]) -> bool
    ensures { result ≡ sends_of (whole c m.now s.now) }
{
    let look = looks(c);
    let seen = memory::flat::fetch(look, m, s);
    sends_by(c, seen)
}

// T and E/S after a reset at a level.
pub fn registers_after_reset(c: Chip, level: Level) -> Registers
    ensures { result ≡ level_reset c level }
{
    match level {
        Level::Memory(phase) => parts::memory_after_reset(c, phase),
        Level::Waiting | Level::Rom(_) | Level::FunctionCommand { .. } | Level::Pio(_) =>
            c.registers,
    }
}

// A reset.
#[tactic(auto, unfolding(crate::specs::Chip::reset_chip))]
pub fn reset(c: Chip) -> Chip
    ensures { result ≡ reset_chip c }
{
    Chip {
        level: Level::Rom(RomStep::Command { count: 0, bits: 0 }),
        registers: registers_after_reset(c, c.level),
        ..c
    }
}

// Power on, with what it does to the scratchpad.
#[tactic(auto, unfolding(crate::specs::Chip::power_on_chip))]
pub fn power_on(c: Chip, s: &mut [u8]) -> Chip
    ensures { (result ≡ power_on_chip c) × (s.new ≡ power_on_pad c.kind s.old) }
{
    parts::fill_pad(c.kind, s);
    Chip {
        rc: false,
        level: Level::Waiting,
        registers: parts::registers_after_power_on(c),
        switch: parts::switch_after_power_on(c),
        ..c
    }
}

// New outside levels.
#[tactic(auto, unfolding(crate::specs::Chip::outside_chip))]
pub fn set_outside(c: Chip, outside: u8) -> Chip
    ensures { result ≡ outside_chip outside c }
{
    Chip {
        switch: parts::switch_with_outside(c, outside),
        ..c
    }
}

// A chip as set-up leaves it: as after power on, with every field written.
#[tactic(auto, unfolding(crate::specs::Chip::set_up_chip))]
pub fn set_up(code: u64, kind: u8) -> Chip
    ensures { result ≡ set_up_chip code kind }
{
    Chip {
        code,
        kind,
        rc: false,
        level: Level::Waiting,
        registers: scratchpad::power_on(),
        switch: ds2413::set_up(),
    }
}
