// The kinds by name: which kinds there are, and what each has.
ghost use Rattle.std.specs.Prelude.{◌≡◌, ◌≤◌};
ghost use Rattle.chip.specs.Kinds.{named, known_kind, is_ds28ec20, has_memory, has_scratchpad, has_registers, has_switch, takes_outside, part_of, knows_of, image_most, pad_most, image_size, pad_size};

use memory::Part;
use rom::Knows;

// The kinds that the model knows.
#[derive(Clone, Copy)]
enum Kind {
    Ds28ec20,
    Ds2413,
}

// The kind of a number.
#[tactic(auto, using(base::specs::Rules::cases), unfolding(crate::specs::Kinds::named))]
fn named(kind: u8) -> Option<Kind>
    ensures { result ≡ named kind }
{
    match kind {
        1 => Some(Kind::Ds28ec20),
        2 => Some(Kind::Ds2413),
        _ => None,
    }
}

// Kind 1 or 2.
#[tactic(auto, using(base::specs::Rules::cases, base::specs::Pick::pick_of), unfolding(crate::specs::Kinds::named, crate::specs::Kinds::known_kind))]
pub fn is_known(kind: u8) -> bool
    ensures { result ≡ known_kind kind }
{
    named(kind).is_some()
}

// A DS28EC20, which is kind 1.
#[tactic(auto, using(base::specs::Rules::cases, base::specs::Pick::pick_of), unfolding(crate::specs::Kinds::named, crate::specs::Kinds::is_ds28ec20))]
pub fn is_ds28ec20(kind: u8) -> bool
    ensures { result ≡ is_ds28ec20 kind }
{
    matches!(named(kind), Some(Kind::Ds28ec20))
}

// A kind with a memory.
#[tactic(auto, unfolding(crate::specs::Kinds::is_ds28ec20, crate::specs::Kinds::has_memory))]
pub fn has_memory(kind: u8) -> bool
    ensures { result ≡ has_memory kind }
{
    is_ds28ec20(kind)
}

// A kind with a scratchpad.
#[tactic(auto, unfolding(crate::specs::Kinds::has_memory, crate::specs::Kinds::has_scratchpad))]
pub fn has_scratchpad(kind: u8) -> bool
    ensures { result ≡ has_scratchpad kind }
{
    has_memory(kind)
}

// A kind with T and E/S.
#[tactic(auto, unfolding(crate::specs::Kinds::has_memory, crate::specs::Kinds::has_registers))]
pub fn has_registers(kind: u8) -> bool
    ensures { result ≡ has_registers kind }
{
    has_memory(kind)
}

// A kind with latches and outside levels.
#[tactic(auto, using(base::specs::Rules::cases, base::specs::Pick::pick_of), unfolding(crate::specs::Kinds::named, crate::specs::Kinds::has_switch))]
pub fn has_switch(kind: u8) -> bool
    ensures { result ≡ has_switch kind }
{
    matches!(named(kind), Some(Kind::Ds2413))
}

// A kind that event 4 takes.
#[tactic(auto, unfolding(crate::specs::Kinds::takes_outside))]
pub fn takes_outside(kind: u8) -> bool
    ensures { result ≡ takes_outside kind }
{
    has_switch(kind)
}

// The part that a kind with a memory is.
#[tactic(auto, unfolding(crate::specs::Kinds::part_of))]
pub fn part_of(kind: u8) -> Part
    ensures { result ≡ part_of kind }
{
    Part::Ds28ec20
}

// What a kind knows of the ROM commands that not every chip knows.
#[tactic(auto, unfolding(crate::specs::Kinds::knows_of))]
pub fn knows_of(kind: u8) -> Knows
    ensures { result ≡ knows_of kind }
{
    Knows { resume: true }
}

// The bytes of an image of a kind.
#[tactic(auto, using(base::specs::Rules::cases), unfolding(crate::specs::Kinds::image_size, crate::specs::Kinds::has_memory))]
pub fn image_size(kind: u8) -> usize
    ensures value { result ≡ image_size kind }
    ensures most { result ≤ image_most }
{
    if has_memory(kind) { 2624 } else { 0 }
}

// The bytes of a scratchpad of a kind.
#[tactic(auto, using(base::specs::Rules::cases), unfolding(crate::specs::Kinds::pad_size, crate::specs::Kinds::has_scratchpad))]
pub fn pad_size(kind: u8) -> usize
    ensures value { result ≡ pad_size kind }
    ensures most { result ≤ pad_most }
{
    if has_scratchpad(kind) { 32 } else { 0 }
}
