// The table of steps by numbers: which chips can be in a step, and the most that its fields then hold.
ghost use Rattle.std.specs.Prelude.{◌≡◌};
ghost use Rattle.packed.specs.Limits.{up_to, any_limits, memory_limits, switch_limits, limits_of, can_be};

use crate::Limits;

// The most of w, a, b and c.
pub fn up_to(w: u16, a: u8, b: u8, c: u8) -> Limits
    ensures { result ≡ up_to w a b c }
{
    Limits {
        w: w,
        a: a,
        b: b,
        c: c,
    }
}

// Steps 1 to 4; else 5.
#[tactic(auto, using(base::specs::Rules::cases), unfolding(crate::specs::Limits::any_limits))]
fn any_limits(number: u8) -> Limits
    ensures { result ≡ any_limits number }
{
    match number {
        2 | 3 => up_to(0, 63, 0, 0),
        4 => up_to(0, 63, 2, 0),
        _ => up_to(0, 7, 255, 0),
    }
}

// Steps 17 to 26 of a memory with a last address; else 16.
#[tactic(auto, using(base::specs::Rules::cases), unfolding(crate::specs::Limits::memory_limits))]
fn memory_limits(last: u16, number: u8) -> Limits
    ensures { result ≡ memory_limits last number }
{
    match number {
        17 | 19 | 22 | 25 => up_to(65535, 15, 0, 0),
        18 => up_to(65535, 31, 7, 255),
        20 => up_to(0, 23, 0, 0),
        21 => up_to(65535, 31, 7, 0),
        23 => up_to(65535, 7, 255, 0),
        24 => up_to(0, 1, 0, 0),
        26 => up_to(last, 7, 0, 0),
        _ => up_to(0, 0, 0, 0),
    }
}

// Steps 33 to 36; else 32.
#[tactic(auto, using(base::specs::Rules::cases), unfolding(crate::specs::Limits::switch_limits))]
fn switch_limits(number: u8) -> Limits
    ensures { result ≡ switch_limits number }
{
    match number {
        33 | 36 => up_to(0, 7, 255, 0),
        34 => up_to(65535, 15, 0, 0),
        35 => up_to(0, 7, 0, 0),
        _ => up_to(0, 0, 0, 0),
    }
}

// The limits of a step that a chip of a kind can be in.
#[tactic(auto, using(base::specs::Rules::cases), unfolding(crate::specs::Limits::limits_of))]
pub fn limits_of(kind: u8, number: u8) -> Limits
    ensures { result ≡ limits_of kind number }
{
    match number {
        0..=5 => any_limits(number),
        6..=26 => memory_limits(memory::last_address(chip::kinds::part_of(kind)), number),
        _ => switch_limits(number),
    }
}

// A chip of a kind can be in a step.
#[tactic(auto, using(base::specs::Rules::cases), unfolding(crate::specs::Limits::can_be, base::specs::Bits::both))]
pub fn can_be(kind: u8, number: u8) -> bool
    ensures { result ≡ can_be kind number }
{
    match number {
        0..=5 => true,
        16..=26 => chip::kinds::has_memory(kind),
        32..=36 => chip::kinds::has_switch(kind),
        _ => false,
    }
}
