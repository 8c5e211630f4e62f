// The events of a line, each made by name.
ghost use Rattle.std.specs.Prelude.{◌≡◌};
ghost use Rattle.line.specs.Events.{event_with, slot_event, reset_event, power_on_event, outside_event};

use crate::Event;

// An event by its number, for a caller that is handed numbers, with the chip and the outside levels that event 4
// names.
pub fn numbered(number: u32, chip: u32, outside: u32) -> Event
    ensures { result ≡ event_with number chip outside }
{
    Event {
        number: number,
        chip: chip,
        outside: outside,
    }
}

// A slot in which the host writes a bit; a read slot is a 1.
pub fn slot(bit: bool) -> Event
    ensures { result ≡ slot_event bit }
{
    if bit {
        return numbered(1, 0, 0);
    }
    numbered(0, 0, 0)
}

// A reset.
pub fn reset() -> Event
    ensures { result ≡ reset_event }
{
    numbered(2, 0, 0)
}

// Power on.
pub fn power_on() -> Event
    ensures { result ≡ power_on_event }
{
    numbered(3, 0, 0)
}

// New outside levels of one DS2413, bit 0 for PIOA and bit 1 for PIOB.
pub fn outside(chip: u32, outside: u32) -> Event
    ensures { result ≡ outside_event chip outside }
{
    numbered(4, chip, outside)
}
