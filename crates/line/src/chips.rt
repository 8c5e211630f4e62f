// Chips at numbered places, in whatever form they are carried, and the walks over them: the look over all of them, the bus,
// the turns, and so an event.
ghost use base.Fml.{GName};
ghost use Rattle.std.specs.Prelude.{ℕ, ◌≡◌, ◌<◌, ◌≤◌, List, length, get_or, set, Option, None, Some};
ghost use Rattle.chip.specs.declared.Chip.{Chip};
ghost use Rattle.chip.specs.With.{no_chip};
ghost use Rattle.line.specs.Event.{answered, outcome, event_of};
ghost use Rattle.line.specs.Layout.{lent, capped};
ghost use Rattle.line.specs.Carrier.{first_spot, surveyed, bus_over, acts};

use crate::{Event, Plan, Refusal, Survey, Table, carrier};
use chip::Chip;

// Who carries chips: how many there are, and what stands at their places.
pub trait Chips {
    ghost number: { Self → ℕ };

    ghost places: { Self → List Chip };

    // Through which reference they are lent, if they are.
    ghost lender: { Self → Option GName };

    fn number(&self) -> usize
        ensures value { result ≡ number self.now }
        ensures placed { number self.now ≤ 16 → number self.now ≤ length (places self.now) };

    fn chip(&self, place: usize) -> Chip
        requires { (place < number self.now) × (place < 16) }
        ensures { result ≡ get_or (places self.now) place no_chip };

    fn put(&mut self, place: usize, c: Chip)
        requires { (place < number self.old) × (place < 16) }
        ensures places_after { places self.new ≡ set (places self.old) place c }
        ensures as_many { number self.new ≡ number self.old }
        ensures as_lent { lender self.new ≡ lender self.old };
}

// The first places of a table.
impl Chips for Table {
    ghost number = { λ t. t.n };

    ghost places = { λ t. t.chips };

    ghost lender = { λ t. None };

    fn number(&self) -> usize {
        self.n
    }

    fn chip(&self, place: usize) -> Chip {
        self.chips[place]
    }

    fn put(&mut self, place: usize, c: Chip) {
        self.chips[place] = c;
    }
}

// A lent slice of chips, all of which count.
#[derive(Drop)]
pub struct Slice<'a> {
    pub chips: &'a mut [Chip],
}

impl Chips for Slice<'_> {
    ghost number = { λ s. length s.chips.now };

    ghost places = { λ s. s.chips.now };

    ghost lender = { λ s. Some s.chips.ghost_name };

    fn number(&self) -> usize {
        self.chips.len()
    }

    fn chip(&self, place: usize) -> Chip {
        self.chips[place]
    }

    fn put(&mut self, place: usize, c: Chip) {
        self.chips[place] = c;
    }
}

// A look over the chips of the line.
pub fn survey<C: Chips>(chips: &C, chip: u32) -> Survey
    ensures { result ≡ surveyed chip (capped (C.number chips.now)) (C.places chips.now) }
{
    let mut survey = carrier::first_survey();
    for i in 0..crate::used_places(chips.number()) {
        survey = carrier::survey_chip(chips.chip(i), survey, chip);
    }
    survey
}

// The AND of what the host and every chip of the line put on the bus.
pub fn bus_value<C: Chips>(chips: &C, plan: Plan, ms: &[u8], ss: &[u8]) -> bool
    ensures { result ≡ (bus_over plan (capped (C.number chips.now)) (C.places chips.now) ms.now ss.now).value }
{
    let mut bus = carrier::first_bus(Ok(plan));
    for i in 0..crate::used_places(chips.number()) {
        bus = carrier::bus_with(chips.chip(i), bus, Ok(plan), ms, ss);
    }
    bus.value
}

// Every chip of the line has its turn.
pub fn all_turn<C: Chips>(chips: &mut C, plan: Plan, value: bool, ms: &mut [u8], ss: &mut [u8])
    ensures ss_after { lent (C.places chips.new) ms.new ss.new
        ≡ acts plan value (capped (C.number chips.old)) 0 first_spot (C.places chips.old) ms.old ss.old }
    ensures as_many { C.number chips.new ≡ C.number chips.old }
    ensures as_lent { C.lender chips.new ≡ C.lender chips.old }
{
    let mut spot = carrier::first_spot();
    for i in 0..crate::used_places(chips.number()) {
        let turned = carrier::turn(chips.chip(i), spot, Ok(plan), value, ms, ss);
        chips.put(i, turned.chip);
        spot = turned.spot;
    }
}

// A plan is carried out, which gives the bus bit.
pub fn carry_out<C: Chips>(chips: &mut C, plan: Plan, ms: &mut [u8], ss: &mut [u8]) -> bool
    ensures value { result ≡ (bus_over plan (capped (C.number chips.old)) (C.places chips.old) ms.old ss.old).value }
    ensures ss_after { lent (C.places chips.new) ms.new ss.new
        ≡ acts plan result (capped (C.number chips.old)) 0 first_spot (C.places chips.old) ms.old ss.old }
    ensures as_many { C.number chips.new ≡ C.number chips.old }
    ensures as_lent { C.lender chips.new ≡ C.lender chips.old }
{
    let value = bus_value(chips, plan, ms, ss);
    all_turn(chips, plan, value, ms, ss);
    value
}

// One event: refusals 8, 5, 6 and 7 in this order, each with nothing changed; else the bus bit.
pub fn take_event<C: Chips>(
    chips: &mut C,
    e: Event,
    ms: &mut [u8],
    ss: &mut [u8],
) -> Result<bool, Refusal>
    ensures event { outcome (answered result) (C.number chips.new) (lent (C.places chips.new) ms.new ss.new)
        ≡ event_of (C.number chips.old) (C.places chips.old) e ms.old ss.old }
    ensures as_lent { C.lender chips.new ≡ C.lender chips.old }
{
    let survey = survey(chips, e.chip);
    let plan = carrier::plan_of(survey, chips.number(), e, ms.len(), ss.len())?;
    let value = carry_out(chips, plan, ms, ss);
    carrier::answer_of(Ok(plan), value)
}
