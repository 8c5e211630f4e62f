// The line over what a caller lends: a slice of chips with images and scratchpads, and one chip's record by `&mut`.
#![tactic(auto)]

mod gathered;
pub mod record;

ghost use Rattle.std.specs.Prelude.{◌≡◌, length};
ghost use Rattle.line.specs.Event.{answered, outcome, event_of};
ghost use Rattle.line.specs.Layout.{lent};

use chip::Chip;
pub use gathered::{search_line, set_up};
use line::{Event, Refusal};
use search::{Fault, Resets, Slots};

// What a search answers, how many codes it listed, and what it put on the line.
#[derive(Clone, Copy)]
pub struct Told {
    pub answer: Result<(), Fault>,
    pub listed: usize,
    pub resets: Resets,
    pub slots: Slots,
}

// One event on a lent table: its refusals in their order (`line::take_event`), each with nothing changed; else the bus bit.
pub fn take_event(
    table: &mut [Chip],
    e: Event,
    ms: &mut [u8],
    ss: &mut [u8],
) -> Result<bool, Refusal>
    ensures { outcome (answered result) (length table.new) (lent table.new ms.new ss.new)
        ≡ event_of (length table.old) table.old e ms.old ss.old }
{
    line::take_lent_event(table, e, ms, ss)
}
