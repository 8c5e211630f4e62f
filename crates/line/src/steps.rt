// The steps of a plan that is carried out, chip by chip: its bit on the bus, what it does, and on to the next.
ghost use Rattle.std.specs.Prelude.{◌≡◌};
ghost use Rattle.chip.specs.Chip.{whole};
ghost use Rattle.line.specs.Line.{host_of};
ghost use Rattle.line.specs.Carrier.{first_bus, puts_at, bus_with, does_at};

use crate::carrier::{first_spot, outside_if, spot_after};
use crate::{Act, Bus, Plan, Spot, loops};
use chip::Chip;

// What the host puts on the bus.
pub fn host_bit(plan: Plan) -> bool
    ensures { result ≡ host_of plan }
{
    match plan {
        Plan::Slot(b) => b,
        _ => true,
    }
}

// Before the first chip puts its bit on the bus.
pub fn first_bus(plan: Plan) -> Bus
    ensures { result ≡ first_bus plan }
{
    let spot = first_spot();
    let host = host_bit(plan);
    Bus {
        value: host,
        spot: spot,
    }
}

// What one chip puts on the bus: in a slot what it sends, 0 at a reset.
pub fn puts_at(c: Chip, p: Spot, plan: Plan, ms: &[u8], ss: &[u8]) -> bool
    ensures { result ≡ puts_at plan c p ms.now ss.now }
{
    match plan {
        Plan::Slot(_) => loops::bit_at(c, p.image, p.pad, ms, ss),
        Plan::Reset => false,
        Plan::PowerOn | Plan::Outside { .. } => true,
    }
}

// The bit on the bus with one chip more.
pub fn bus_with(c: Chip, s: Bus, plan: Plan, ms: &[u8], ss: &[u8]) -> Bus
    ensures { result ≡ bus_with plan c s ms.now ss.now }
{
    let spot = s.spot;
    let bit = puts_at(c, spot, plan, ms, ss);
    let value = base::are_both(bit, s.value);
    let after = spot_after(spot, c.kind);
    Bus {
        value: value,
        spot: after,
    }
}

// What one chip does, once the bit on the bus is known.
pub fn does_at(c: Chip, p: Spot, plan: Plan, value: bool, ms: &mut [u8], ss: &mut [u8]) -> Chip
    ensures { whole result ms.new ss.new ≡ does_at plan value c p ms.old ss.old }
{
    match plan {
        Plan::Slot(_) => loops::act_at(c, Act::Take(value), p.image, p.pad, ms, ss),
        Plan::Reset => loops::act_at(c, Act::Reset, p.image, p.pad, ms, ss),
        Plan::PowerOn => loops::act_at(c, Act::PowerOn, p.image, p.pad, ms, ss),
        Plan::Outside { chip, outside } => outside_if(p.place == chip, c, outside),
    }
}
