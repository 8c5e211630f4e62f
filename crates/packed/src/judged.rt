// Whether bytes are a record whose fields lie in their ranges, judged byte by byte.
ghost use Rattle.std.specs.Prelude.{◌≡◌, get_or};
ghost use Rattle.packed.specs.Packed.{step_at};
ghost use Rattle.packed.specs.Limits.{within, step_stands};
ghost use Rattle.packed.specs.Judged.{stands, fields_stand, are_zero, rest_is_zero, bytes_stand};

use crate::{Limits, RECORD_SIZE, steps};
use ds2413::Switch;
use scratchpad::Registers;

// Kind, RC, E/S, latches and outside levels lie in their ranges.
// Stays with `&`, here and below: by `&&` an event on 16 chips took 3 in 100 more instructions, 1752 for 1695.
#[tactic(auto, using(base::specs::Rules::cases), unfolding(crate::specs::Judged::fields_stand, base::specs::Bits::both))]
fn fields_stand(bytes: &[u8; RECORD_SIZE]) -> bool
    ensures { result ≡ fields_stand bytes.now }
{
    let registers = Registers {
        t: records::pair_at(bytes, 10),
        es: bytes[12],
    };
    let switch = Switch {
        latches: bytes[13],
        outside: bytes[14],
    };
    chip::kinds::is_known(bytes[8])
        & scratchpad::registers_in_range(registers)
        & ds2413::in_range(switch)
        & (bytes[9] <= 1)
}

// Two bytes are 0.
#[tactic(auto, unfolding(crate::specs::Judged::are_zero))]
fn are_zero(low: u8, high: u8) -> bool
    ensures { result ≡ are_zero low high }
{
    records::pair(low, high) == 0
}

// The bytes after the step are 0.
// Stays pair by pair: so does the definition `rest_is_zero`, by which `bytes_judged` is proved.
#[tactic(auto, using(base::specs::Rules::cases), unfolding(crate::specs::Judged::rest_is_zero, base::specs::Bits::both))]
fn rest_is_zero(bytes: &[u8; RECORD_SIZE]) -> bool
    ensures { result ≡ rest_is_zero bytes.now }
{
    are_zero(bytes[21], bytes[22])
        & are_zero(bytes[23], bytes[24])
        & are_zero(bytes[25], bytes[26])
        & are_zero(bytes[27], bytes[28])
        & are_zero(bytes[29], bytes[30])
        & (bytes[31] == 0)
}

// No field of the step is over its limit.
#[tactic(auto, using(base::specs::Rules::cases), unfolding(crate::specs::Limits::within, base::specs::Bits::both))]
fn is_within(bytes: &[u8; RECORD_SIZE], most: Limits) -> bool
    ensures { result ≡ within (step_at bytes.now) most }
{
    let w = records::pair_at(bytes, 16);
    (w <= most.w) & (bytes[18] <= most.a) & (bytes[19] <= most.b) & (bytes[20] <= most.c)
}

// The chip can be in the step, with such fields.
#[tactic(auto, using(base::specs::Rules::cases), unfolding(crate::specs::Limits::step_stands, base::specs::Bits::both))]
fn step_stands(bytes: &[u8; RECORD_SIZE]) -> bool
    ensures { result ≡ step_stands (get_or bytes.now 8 0) (step_at bytes.now) }
{
    let kind = bytes[8];
    let number = bytes[15];
    if number == 0 {
        return is_within(bytes, steps::up_to(0, 0, 0, 0));
    }
    steps::can_be(kind, number) && is_within(bytes, steps::limits_of(kind, number))
}

// Bytes, as many as a record has, stand as one.
#[tactic(auto, using(base::specs::Rules::cases), unfolding(crate::specs::Judged::bytes_stand, base::specs::Bits::both))]
fn bytes_stand(bytes: &[u8; RECORD_SIZE]) -> bool
    ensures { result ≡ bytes_stand bytes.now }
{
    fields_stand(bytes) && rest_is_zero(bytes) && step_stands(bytes)
}

// Bytes are a record, and its fields lie in their ranges.
pub fn stands(r: &[u8]) -> bool
    ensures { result ≡ stands r.now }
{
    match r.as_array::<RECORD_SIZE>() {
        Some(bytes) => bytes_stand(bytes),
        None => false,
    }
}
