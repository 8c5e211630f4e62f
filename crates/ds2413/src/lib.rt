// The DS2413: two latches, two pins, and its function level.
#![tactic(auto)]

ghost use Rattle.std.specs.Prelude.{◌≡◌, ◌≤◌};
ghost use Rattle.base.specs.Pick.{pick};
ghost use Rattle.ds2413.specs.Switch.{switch_after, switch_power_on, switch_set_up, switch_outside, pin_of, status_of, switch_function, switch_begins, status_sent, pair_in, pair_bit, confirmed, shown, switch_takes, switch_sends, phase_in_range, switch_in_range};

use base::Register;

// The latches and the outside levels, bit 0 for PIOA and bit 1 for PIOB.
#[derive(Clone, Copy, PartialEq, Eq)]
pub struct Switch {
    pub latches: u8,
    pub outside: u8,
}

// A phase of the function level, with what it needs to go on.
#[derive(Clone, Copy, PartialEq, Eq)]
pub enum SwitchPhase {
    // nothing more to send
    Ones,
    // PIO Access Read: the sampled status, bit by bit
    Status { count: u8, sample: u8 },
    // PIO Access Write: the byte and its complement, bit by bit
    Take { count: u8, bits: u16 },
    // PIO Access Write: AAh, bit by bit
    Confirm { count: u8 },
    // PIO Access Write: the sampled status, bit by bit
    Show { count: u8, sample: u8 },
}

// Where a slot leaves the part.
#[derive(Clone, Copy, PartialEq, Eq)]
pub struct SwitchAfter {
    pub switch: Switch,
    pub phase: SwitchPhase,
}

// Power on: the latches are 1, the outside levels stay.
pub fn power_on(c: Switch) -> Switch
    ensures { result ≡ switch_power_on c }
{
    Switch { latches: 3, ..c }
}

// Set-up: latches and outside levels are 1.
pub fn set_up() -> Switch
    ensures { result ≡ switch_set_up }
{
    Switch {
        latches: 3,
        outside: 3,
    }
}

// New outside levels.
pub fn set_outside(c: Switch, outside: u8) -> Switch
    ensures { result ≡ switch_outside outside c }
{
    Switch { outside, ..c }
}

// The pin at bit k.
#[tactic(auto, unfolding(crate::specs::Switch::pin_of, base::specs::Bits::both, base::specs::Pick::pick))]
pub fn pin(c: Switch, k: u8) -> bool
    ensures { result ≡ pin_of c k }
{
    base::bit_of(c.latches as u64, k) && base::bit_of(c.outside as u64, k)
}

// A bit of the status at its place, where 1 is worth w.
#[tactic(auto, unfolding(base::specs::Pick::pick))]
fn flag_of(w: u8, b: bool) -> u8
    ensures value { result ≡ pick b w 0 }
    ensures small { result ≤ w }
{
    if b { w } else { 0 }
}

// The status byte.
#[tactic(auto, unfolding(crate::specs::Switch::status_of))]
pub fn status(c: Switch) -> u8
    ensures { result ≡ status_of c }
{
    let pin_a = flag_of(1, pin(c, 0));
    let latch_a = flag_of(2, base::bit_of(c.latches as u64, 0));
    let pin_b = flag_of(4, pin(c, 1));
    let latch_b = flag_of(8, base::bit_of(c.latches as u64, 1));
    let low = pin_a + latch_a + pin_b + latch_b;
    low + 16 * (15 - low)
}

// The phase that a function command begins.
#[tactic(auto, using(base::specs::Rules::cases), unfolding(crate::specs::Switch::switch_function))]
pub fn function(c: Switch, b: u8) -> SwitchPhase
    ensures { result ≡ switch_function c b }
{
    match b {
        0xF5 => SwitchPhase::Status {
            count: 0,
            sample: status(c),
        },
        0x5A => SwitchPhase::Take { count: 0, bits: 0 },
        _ => SwitchPhase::Ones,
    }
}

// Where a function command leaves the part at its eighth bit.
#[tactic(auto, unfolding(crate::specs::Switch::switch_begins))]
pub fn begins(c: Switch, b: u8) -> SwitchAfter
    ensures { result ≡ switch_begins c b }
{
    goes_on(c, function(c, b))
}

// A bit of a status byte was sent; after the last, the next is sampled.
#[tactic(auto, using(base::specs::Rules::cases), unfolding(crate::specs::Switch::status_sent))]
pub fn status_sent(c: Switch, count: u8, sample: u8) -> SwitchPhase
    ensures { result ≡ status_sent c count sample }
{
    let (count, sample) = if count < 7 {
        (count + 1, sample)
    } else {
        (0, status(c))
    };
    SwitchPhase::Status { count, sample }
}

// A byte and its complement are in.
#[tactic(auto, using(base::specs::Rules::cases), unfolding(crate::specs::Switch::pair_in))]
pub fn pair_in(c: Switch, pair: u16) -> SwitchAfter
    ensures { result ≡ pair_in c pair }
{
    if pair % 256 + pair / 256 != 0xFF {
        return goes_on(c, SwitchPhase::Ones);
    }
    let latches = (pair % 4) as u8;
    goes_on(Switch { latches, ..c }, SwitchPhase::Confirm { count: 0 })
}

// A bit of a byte or its complement.
#[tactic(auto, using(base::specs::Rules::cases), unfolding(crate::specs::Switch::pair_bit))]
pub fn pair_bit(c: Switch, count: u8, bits: u16, v: bool) -> SwitchAfter
    ensures { result ≡ pair_bit c count bits v }
{
    let bits = bits.filled(v);
    if count < 15 {
        let count = count + 1;
        goes_on(c, SwitchPhase::Take { count, bits })
    } else {
        pair_in(c, bits)
    }
}

// A bit of AAh was sent; at the last, the status is sampled.
#[tactic(auto, using(base::specs::Rules::cases), unfolding(crate::specs::Switch::confirmed))]
pub fn confirm_sent(c: Switch, count: u8) -> SwitchPhase
    ensures { result ≡ confirmed c count }
{
    if count < 7 {
        SwitchPhase::Confirm { count: count + 1 }
    } else {
        SwitchPhase::Show {
            count: 0,
            sample: status(c),
        }
    }
}

// A bit of the status after AAh was sent; then comes the next pair.
#[tactic(auto, using(base::specs::Rules::cases), unfolding(crate::specs::Switch::shown))]
pub fn show_sent(count: u8, sample: u8) -> SwitchPhase
    ensures { result ≡ shown count sample }
{
    if count < 7 {
        let count = count + 1;
        SwitchPhase::Show { count, sample }
    } else {
        SwitchPhase::Take { count: 0, bits: 0 }
    }
}

// Another phase, the latches as they are.
pub fn goes_on(c: Switch, p: SwitchPhase) -> SwitchAfter
    ensures { result ≡ switch_after c p }
{
    SwitchAfter {
        switch: c,
        phase: p,
    }
}

// What a slot of the value v does at a phase.
pub fn takes(c: Switch, v: bool, p: SwitchPhase) -> SwitchAfter
    ensures { result ≡ switch_takes c v p }
{
    let next = match p {
        SwitchPhase::Ones => SwitchPhase::Ones,
        SwitchPhase::Status { count, sample } => status_sent(c, count, sample),
        SwitchPhase::Take { count, bits } => return pair_bit(c, count, bits, v),
        SwitchPhase::Confirm { count } => confirm_sent(c, count),
        SwitchPhase::Show { count, sample } => show_sent(count, sample),
    };
    goes_on(c, next)
}

// What a chip sends in a slot at a phase.
pub fn sends(p: SwitchPhase) -> bool
    ensures { result ≡ switch_sends p }
{
    match p {
        SwitchPhase::Ones | SwitchPhase::Take { .. } => true,
        SwitchPhase::Status { count, sample } | SwitchPhase::Show { count, sample } => base::bit_of(
            sample as u64,
            count,
        ),
        SwitchPhase::Confirm { count } => base::bit_of(0xAA, count),
    }
}

// Whether a phase's count lies inside it.
pub fn phase_in_range(p: SwitchPhase) -> bool
    ensures { result ≡ phase_in_range p }
{
    match p {
        SwitchPhase::Ones => true,
        SwitchPhase::Take { count, .. } => count < 16,
        SwitchPhase::Status { count, .. }
        | SwitchPhase::Confirm { count }
        | SwitchPhase::Show { count, .. } => count < 8,
    }
}

// Whether latches and outside levels are two bits each.
#[tactic(auto, unfolding(crate::specs::Switch::switch_in_range, base::specs::Bits::both, base::specs::Pick::pick))]
pub fn in_range(c: Switch) -> bool
    ensures { result ≡ switch_in_range c }
{
    c.latches <= 3 && c.outside <= 3
}
