// The event, chip by chip, for whoever carries a table, wherever its chips stand: each is surveyed, then the event is
// planned, then each puts its bit on the bus, then each has its turn. A carrier walks its own form and decides nothing. A
// run of slots is judged here too, and its bytes are put together.
ghost use Rattle.std.specs.Prelude.{true, ◌≡◌, ◌+◌, ◌≤◌};
ghost use Rattle.base.specs.Pick.{pick};
ghost use Rattle.chip.specs.Chip.{whole, outside_chip};
ghost use Rattle.line.specs.Event.{judge, table_tests, outside_fits, asked_by, plan_event, plan_by};
ghost use Rattle.line.specs.Slots.{run_fits};
ghost use Rattle.line.specs.Runs.{count_of};
ghost use Rattle.line.specs.Carrier.{first_spot, spot_after, first_survey, survey_chip, verdict_with, verdict_by, run_verdict_by, plan_seen, host_by, first_bus_by, puts_by, bus_by, does_by, turned, turn_by, happens_by, answer_for};

use crate::{Bus, Event, Plan, Refusal, SLOTS_MOST, Spot, Survey, Turned, steps};
use chip::Chip;

// Where the first chip stands.
pub fn first_spot() -> Spot
    ensures { result ≡ first_spot }
{
    Spot {
        place: 0,
        image: 0,
        pad: 0,
    }
}

// Past a chip of a kind; further than any line goes, a spot stays where it is.
pub fn spot_after(p: Spot, kind: u8) -> Spot
    ensures { result ≡ spot_after kind p }
{
    let size = chip::kinds::image_size(kind);
    let room = chip::kinds::pad_size(kind);
    if p.place <= 65535 {
        if p.image <= 65535 {
            if p.pad <= 65535 {
                return Spot {
                    place: p.place + 1,
                    image: p.image + size,
                    pad: p.pad + room,
                };
            }
            return p;
        }
        return p;
    }
    p
}

// Before the first chip is surveyed.
pub fn first_survey() -> Survey
    ensures { result ≡ first_survey }
{
    let spot = first_spot();
    Survey {
        within: true,
        kind: 0,
        spot: spot,
    }
}

// The kind of the chip that an event names, once it is seen.
pub fn kind_seen(named: bool, kind: u8, before: u8) -> u8
    ensures { result ≡ pick named kind before }
{
    if named { kind } else { before }
}

// One chip more is surveyed.
pub fn survey_chip(c: Chip, s: Survey, chip: u32) -> Survey
    ensures { result ≡ survey_chip chip c s }
{
    let spot = s.spot;
    let one = chip::range::is_in_range(c);
    let all = base::are_both(s.within, one);
    let kind = kind_seen(spot.place == chip as usize, c.kind, s.kind);
    let after = spot_after(spot, c.kind);
    Survey {
        within: all,
        kind: kind,
        spot: after,
    }
}

// 8, then 5, by what a table and its buffers are tested for.
fn judged(range: bool, sizes: bool) -> Result<(), Refusal>
    ensures { result ≡ judge (table_tests range sizes) }
{
    if range {
        if sizes {
            return Ok(());
        }
        return Err(Refusal::WrongSize);
    }
    Err(Refusal::OutOfRange)
}

// What a table of n chips is judged to that was surveyed, where more sizes than those of its buffers fit or do not.
fn verdict_with(s: Survey, n: usize, images: usize, pads: usize, more: bool) -> Result<(), Refusal>
    ensures { result ≡ verdict_with s n images pads more }
{
    let spot = s.spot;
    let few = base::are_both(n <= 16, s.within);
    let fit = base::are_both(images == spot.image, pads == spot.pad);
    let sizes = base::are_both(fit, more);
    judged(few, sizes)
}

// What a table of n chips is judged to that was surveyed: 8, then 5.
pub fn verdict_by(s: Survey, n: usize, images: usize, pads: usize) -> Result<(), Refusal>
    ensures { result ≡ verdict_by s n images pads }
{
    verdict_with(s, n, images, pads, true)
}

// A run may have so many slots, and bits and answers are of the sizes that they ask.
pub fn run_fits(slots: usize, bits: usize, answers: usize) -> bool
    ensures { result ≡ run_fits slots bits answers }
{
    if slots <= SLOTS_MOST {
        let asked = crate::bytes_asked(slots);
        return base::are_both(bits == asked, answers == asked);
    }
    false
}

// What a run of slots is judged to on a table of n chips that was surveyed: 8, then 5.
pub fn run_verdict_by(
    s: Survey,
    n: usize,
    images: usize,
    pads: usize,
    slots: usize,
    bits: usize,
    answers: usize,
) -> Result<(), Refusal>
    ensures { result ≡ run_verdict_by s n images pads slots bits answers }
{
    let run = run_fits(slots, bits, answers);
    verdict_with(s, n, images, pads, run)
}

// Event 4 fits n chips, where the one that it names has a kind; any other event does.
pub fn outside_fits(e: Event, n: usize, kind: u8) -> bool
    ensures { result ≡ outside_fits e n kind }
{
    let inside = (e.chip as usize) < n;
    let small = base::are_both(chip::kinds::takes_outside(kind), e.outside <= 3);
    if e.number == 4 {
        return base::are_both(inside, small);
    }
    true
}

// What an event asks, where 4 has outside levels that fit.
fn asked_of(e: Event, n: usize, kind: u8) -> Plan
    requires kind_value { outside_fits e n kind ≡ true }
    requires number_bound { e.number ≤ 4 }
    ensures { result ≡ asked_by e }
{
    let number = e.number;
    if number < 2 {
        return Plan::Slot(number == 1);
    }
    if number == 2 {
        return Plan::Reset;
    }
    if number == 3 {
        return Plan::PowerOn;
    }
    Plan::Outside {
        chip: e.chip as usize,
        outside: e.outside as u8,
    }
}

// What an event comes to on a table of n chips that stands well, where the chip that it names has a kind: 6, then 7.
pub fn plan_event(e: Event, n: usize, kind: u8) -> Result<Plan, Refusal>
    ensures { result ≡ plan_event e n kind }
{
    if e.number > 4 {
        return Err(Refusal::NoSuchEvent);
    }
    if !outside_fits(e, n, kind) {
        return Err(Refusal::NoSuchOutside);
    }
    Ok(asked_of(e, n, kind))
}

// What an event comes to on a table that is judged so.
pub fn plan_by(judged: Result<(), Refusal>, e: Event, n: usize, kind: u8) -> Result<Plan, Refusal>
    ensures { result ≡ plan_by judged (plan_event e n kind) }
{
    judged?;
    plan_event(e, n, kind)
}

// What an event comes to on a table of n chips that was surveyed.
pub fn plan_of(s: Survey, n: usize, e: Event, images: usize, pads: usize) -> Result<Plan, Refusal>
    ensures { result ≡ plan_seen s n e images pads }
{
    plan_by(verdict_by(s, n, images, pads), e, n, s.kind)
}

// Whether anything happens.
pub fn happens(plan: Result<Plan, Refusal>) -> bool
    ensures { result ≡ happens_by plan }
{
    plan.is_ok()
}

// What the host puts on the bus, a 1 where the event is refused.
pub fn host_bit(plan: Result<Plan, Refusal>) -> bool
    ensures { result ≡ host_by plan }
{
    match plan {
        Ok(plan) => steps::host_bit(plan),
        Err(_) => true,
    }
}

// Before the first chip puts its bit on the bus.
pub fn first_bus(plan: Result<Plan, Refusal>) -> Bus
    ensures { result ≡ first_bus_by plan }
{
    match plan {
        Ok(plan) => steps::first_bus(plan),
        Err(_) => Bus {
            value: true,
            spot: first_spot(),
        },
    }
}

// What one chip puts on the bus: in a slot what it sends, 0 at a reset.
pub fn puts_at(c: Chip, p: Spot, plan: Result<Plan, Refusal>, ms: &[u8], ss: &[u8]) -> bool
    ensures { result ≡ puts_by plan c p ms.now ss.now }
{
    match plan {
        Ok(plan) => steps::puts_at(c, p, plan, ms, ss),
        Err(_) => true,
    }
}

// The bit on the bus with one chip more.
pub fn bus_with(c: Chip, s: Bus, plan: Result<Plan, Refusal>, ms: &[u8], ss: &[u8]) -> Bus
    ensures { result ≡ bus_by plan c s ms.now ss.now }
{
    match plan {
        Ok(plan) => steps::bus_with(c, s, plan, ms, ss),
        Err(_) => Bus {
            value: s.value,
            spot: spot_after(s.spot, c.kind),
        },
    }
}

// New outside levels, if this is the chip.
pub fn outside_if(named: bool, c: Chip, outside: u8) -> Chip
    ensures { result ≡ pick named (outside_chip outside c) c }
{
    if named {
        return chip::set_outside(c, outside);
    }
    c
}

// What one chip does, once the bit on the bus is known: nothing where the event is refused.
pub fn does_at(
    c: Chip,
    p: Spot,
    plan: Result<Plan, Refusal>,
    value: bool,
    ms: &mut [u8],
    ss: &mut [u8],
) -> Chip
    ensures { whole result ms.new ss.new ≡ does_by plan value c p ms.old ss.old }
{
    match plan {
        Ok(plan) => steps::does_at(c, p, plan, value, ms, ss),
        Err(_) => c,
    }
}

// A turn: one chip, and on to the next.
pub fn turn(
    c: Chip,
    p: Spot,
    plan: Result<Plan, Refusal>,
    value: bool,
    ms: &mut [u8],
    ss: &mut [u8],
) -> Turned
    ensures { turned result.chip result.spot ms.new ss.new ≡ turn_by plan value c p ms.old ss.old }
{
    let after = does_at(c, p, plan, value, ms, ss);
    let spot = spot_after(p, c.kind);
    Turned {
        chip: after,
        spot: spot,
    }
}

// What is answered.
pub fn answer_of(plan: Result<Plan, Refusal>, value: bool) -> Result<bool, Refusal>
    ensures { result ≡ answer_for plan value }
{
    plan?;
    Ok(value)
}

// How many slots of a run the next byte has, of those that are left.
pub fn next_count(left: usize) -> usize
    ensures { result ≡ count_of left }
{
    if left < 8 { left } else { 8 }
}

// The number of the bits so far with one bit more, which is worth so much.
pub fn with_bit(sum: u16, bit: bool, worth: u16) -> u32
    ensures { result ≡ sum + pick bit worth 0 }
{
    if bit {
        return (sum as u32) + (worth as u32);
    }
    sum as u32
}
