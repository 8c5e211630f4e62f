// The ranges of a record.
ghost use Rattle.std.specs.Prelude.{◌≡◌};
ghost use Rattle.chip.specs.Range.{level_in_range, in_range};

use crate::{Chip, Level, kinds};

// A level is one that the kind can be in, with its counts and places inside it.
#[tactic(auto, using(base::specs::Rules::cases), unfolding(base::specs::Bits::both, base::specs::Pick::pick))]
pub fn level_in_range(kind: u8, level: Level) -> bool
    ensures { result ≡ level_in_range kind level }
{
    match level {
        Level::Waiting => true,
        Level::Rom(step) => rom::in_range(step),
        Level::FunctionCommand { count, .. } => count < 8,
        Level::Memory(phase) => {
            let last = memory::last_address(kinds::part_of(kind));
            kinds::has_memory(kind) && scratchpad::in_range(last, phase)
        }
        Level::Pio(phase) => kinds::has_switch(kind) && ds2413::phase_in_range(phase),
    }
}

// Every field of a record lies in its range.
#[tactic(auto, unfolding(crate::specs::Range::in_range, base::specs::Bits::both, base::specs::Pick::pick))]
pub fn is_in_range(c: Chip) -> bool
    ensures { result ≡ in_range c }
{
    kinds::is_known(c.kind)
        && scratchpad::registers_in_range(c.registers)
        && ds2413::in_range(c.switch)
        && level_in_range(c.kind, c.level)
}
