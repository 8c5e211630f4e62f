// A slot at each level, put together from the parts.
ghost use Rattle.std.specs.Prelude.{◌≡◌};
ghost use Rattle.base.specs.Pick.{pick};
ghost use Rattle.scratchpad.specs.Registers.{power_on_registers};
ghost use Rattle.scratchpad.specs.Scratchpad.{memory_begins, memory_sends, memory_reset};
ghost use Rattle.ds2413.specs.Switch.{switch_begins, switch_power_on, switch_outside};
ghost use Rattle.chip.specs.Kinds.{has_registers, has_switch, takes_outside};
ghost use Rattle.chip.specs.Chip.{chip_map, left, level_of, rom_slot, after_memory, after_switch, function_in, function_slot, memory_look, memory_sight, memory_slot, switch_slot, power_on_pad};

use crate::{Chip, ChipAfter, Level, kinds};
use base::Register;
use ds2413::{Switch, SwitchAfter, SwitchPhase};
use memory::{Look, Seen};
use rom::{RomNext, RomStep};
use scratchpad::{Deed, MemoryAfter, MemoryPhase, Registers, Sight};

// A chip, and nothing to be done.
pub fn still(c: Chip) -> ChipAfter
    ensures { result ≡ left c Deed.Nothing }
{
    ChipAfter {
        chip: c,
        deed: Deed::Nothing,
    }
}

// Where the ROM level leads.
pub fn level_of(next: RomNext) -> Level
    ensures { result ≡ level_of next }
{
    match next {
        RomNext::Wait => Level::Waiting,
        RomNext::Step(step) => Level::Rom(step),
        RomNext::Function => Level::FunctionCommand { count: 0, bits: 0 },
    }
}

// A slot at the ROM level.
#[tactic(auto, using(base::specs::Rules::cases), unfolding(crate::specs::Chip::rom_slot))]
pub fn rom_slot(c: Chip, step: RomStep, v: bool) -> Chip
    ensures { result ≡ rom_slot c step v }
{
    let to = rom::takes(c.code, c.rc, v, kinds::knows_of(c.kind), step);
    Chip {
        rc: to.rc,
        level: level_of(to.next),
        ..c
    }
}

// A chip after a slot of its memory.
pub fn after_memory(c: Chip, to: MemoryAfter) -> ChipAfter
    ensures { result ≡ after_memory c to }
{
    let chip = Chip {
        level: Level::Memory(to.phase),
        registers: to.registers,
        ..c
    };
    ChipAfter {
        chip,
        deed: to.deed,
    }
}

// A chip after a slot of its switch.
pub fn after_switch(c: Chip, to: SwitchAfter) -> Chip
    ensures { result ≡ after_switch c to }
{
    Chip {
        level: Level::Pio(to.phase),
        switch: to.switch,
        ..c
    }
}

// A function command of a memory.
pub fn memory_begins(c: Chip, b: u8) -> ChipAfter
    ensures { result ≡ after_memory c (memory_begins c.registers b) }
{
    after_memory(c, scratchpad::begins(c.registers, b))
}

// A function command of a switch.
pub fn switch_begins(c: Chip, b: u8) -> Chip
    ensures { result ≡ after_switch c (switch_begins c.switch b) }
{
    after_switch(c, ds2413::begins(c.switch, b))
}

// A function command, by the kind of the chip.
#[tactic(auto, using(base::specs::Rules::cases), unfolding(crate::specs::Chip::function_in))]
pub fn function_in(c: Chip, b: u8) -> ChipAfter
    ensures { result ≡ function_in c b }
{
    if kinds::has_memory(c.kind) {
        memory_begins(c, b)
    } else if kinds::has_switch(c.kind) {
        still(switch_begins(c, b))
    } else {
        still(Chip {
            level: Level::Waiting,
            ..c
        })
    }
}

// A bit of the function command.
#[tactic(auto, using(base::specs::Rules::cases), unfolding(crate::specs::Chip::function_slot))]
pub fn function_slot(c: Chip, count: u8, bits: u8, v: bool) -> ChipAfter
    ensures { result ≡ function_slot c count bits v }
{
    let bits = bits.filled(v);
    if count < 7 {
        let count = count + 1;
        still(Chip {
            level: Level::FunctionCommand { count, bits },
            ..c
        })
    } else {
        function_in(c, bits)
    }
}

// What a memory looks at, at a phase.
#[tactic(auto, using(base::specs::Rules::cases), unfolding(crate::specs::Chip::memory_look))]
pub fn memory_looks(c: Chip, phase: MemoryPhase) -> Look
    ensures { result ≡ memory_look c phase }
{
    let hand = scratchpad::at_hand(c.registers.t, phase);
    memory::looks(kinds::part_of(c.kind), hand)
}

// What a memory sees, at a phase.
#[tactic(auto, using(base::specs::Rules::cases), unfolding(crate::specs::Chip::memory_sight))]
pub fn memory_sight(c: Chip, phase: MemoryPhase, seen: Seen) -> Sight
    ensures { result ≡ memory_sight c phase seen }
{
    let hand = scratchpad::at_hand(c.registers.t, phase);
    memory::sight(kinds::part_of(c.kind), c.registers.es, seen, hand)
}

// A slot at a phase of a memory.
#[tactic(auto, using(base::specs::Rules::cases), unfolding(crate::specs::Chip::memory_slot))]
pub fn memory_slot(c: Chip, phase: MemoryPhase, v: bool, seen: Seen) -> ChipAfter
    ensures { result ≡ memory_slot c phase v seen }
{
    let see = memory_sight(c, phase, seen);
    after_memory(c, scratchpad::takes(c.registers, v, see, phase))
}

// What a memory sends in a slot at a phase.
pub fn memory_sends(c: Chip, phase: MemoryPhase, seen: Seen) -> bool
    ensures { result ≡ memory_sends c.registers (memory_sight c phase seen) phase }
{
    let see = memory_sight(c, phase, seen);
    scratchpad::sends(c.registers, see, phase)
}

// A slot at a phase of a DS2413.
#[tactic(auto, using(base::specs::Rules::cases), unfolding(crate::specs::Chip::switch_slot))]
pub fn switch_slot(c: Chip, phase: SwitchPhase, v: bool) -> Chip
    ensures { result ≡ switch_slot c phase v }
{
    after_switch(c, ds2413::takes(c.switch, v, phase))
}

// T and E/S of a memory after a reset at a phase.
pub fn memory_after_reset(c: Chip, phase: MemoryPhase) -> Registers
    ensures { result ≡ memory_reset c.registers (chip_map c).cut_sets_pf phase }
{
    let cut = memory::cut_sets_pf(kinds::part_of(c.kind));
    scratchpad::reset(c.registers, cut, phase)
}

// T and E/S after power on, of a kind that has them.
#[tactic(auto, using(base::specs::Rules::cases))]
pub fn registers_after_power_on(c: Chip) -> Registers
    ensures { result ≡ pick (has_registers c.kind) power_on_registers c.registers }
{
    if kinds::has_registers(c.kind) {
        scratchpad::power_on()
    } else {
        c.registers
    }
}

// The latches after power on, of a kind that has them.
#[tactic(auto, using(base::specs::Rules::cases))]
pub fn switch_after_power_on(c: Chip) -> Switch
    ensures { result ≡ pick (has_switch c.kind) (switch_power_on c.switch) c.switch }
{
    if kinds::has_switch(c.kind) {
        ds2413::power_on(c.switch)
    } else {
        c.switch
    }
}

// The switch with new outside levels, of a kind that takes them.
#[tactic(auto, using(base::specs::Rules::cases))]
pub fn switch_with_outside(c: Chip, outside: u8) -> Switch
    ensures { result ≡ pick (takes_outside c.kind) (switch_outside outside c.switch) c.switch }
{
    if kinds::takes_outside(c.kind) {
        ds2413::set_outside(c.switch, outside)
    } else {
        c.switch
    }
}

// The scratchpad after power on, of a kind that has one.
#[tactic(auto, using(base::specs::Rules::cases), unfolding(crate::specs::Chip::power_on_pad))]
pub fn fill_pad(kind: u8, s: &mut [u8])
    ensures { s.new ≡ power_on_pad kind s.old }
{
    if kinds::has_scratchpad(kind) {
        s.fill(0xFF);
    }
}
