// Bits, registers and bytes of slices: what every other crate uses. Each function answers for every input.
#![tactic(auto)]

ghost use Rattle.std.specs.Prelude.{◌≡◌, ℕ, length, get_or, set, replicate};
ghost use Rattle.base.specs.Bits.{bit_of, same, both, filled};
ghost use Rattle.base.specs.Parts.{part_byte, put_in_part};
ghost use Rattle.base.specs.Bytes.{same_bytes};

// Bit k of a number; past the 64th there is none.
#[tactic(auto, using(crate::specs::Bits::bit_past), unfolding(crate::specs::Bits::bit_of))]
pub fn bit_of(n: u64, k: u8) -> bool
    ensures { result ≡ bit_of n k }
{
    k < 64 && (n >> k) % 2 == 1
}

// Two bits are the same.
#[tactic(auto, unfolding(crate::specs::Bits::same, crate::specs::Pick::pick))]
pub fn is_same(a: bool, b: bool) -> bool
    ensures { result ≡ same a b }
{
    a == b
}

// Both bits are 1: the wired AND of two.
#[tactic(auto, unfolding(crate::specs::Bits::both, crate::specs::Pick::pick))]
pub fn are_both(a: bool, b: bool) -> bool
    ensures { result ≡ both a b }
{
    a && b
}

// A register that takes a number bit by bit, least significant first.
pub trait Register {
    // The number that it holds, and the worth of its highest place.
    ghost held: { Self → ℕ };

    ghost top: { ℕ };

    // A bit enters the register from the top.
    fn filled(self, v: bool) -> Self
        ensures { held result ≡ filled top (held self) v };
}

impl Register for u8 {
    ghost held = { λ n. n };

    ghost top = { 0x80 };

    #[tactic(auto, unfolding(crate::specs::Bits::filled, crate::specs::Pick::pick))]
    fn filled(self, v: bool) -> u8
        ensures { result ≡ filled 0x80 self v }
    {
        if v { self / 2 + 0x80 } else { self / 2 }
    }
}

impl Register for u16 {
    ghost held = { λ n. n };

    ghost top = { 0x8000 };

    #[tactic(auto, unfolding(crate::specs::Bits::filled, crate::specs::Pick::pick))]
    fn filled(self, v: bool) -> u16
        ensures { result ≡ filled 0x8000 self v }
    {
        if v { self / 2 + 0x8000 } else { self / 2 }
    }
}

// The byte at a place, 0 past the end.
pub fn byte_at(s: &[u8], i: usize) -> u8
    ensures { result ≡ get_or s.now i 0 }
{
    s.get(i).copied().unwrap_or(0)
}

// A byte put at a place; past the end there is none, and nothing is put.
pub fn put_at(s: &mut [u8], i: usize, b: u8)
    ensures { s.new ≡ set s.old i b }
{
    if i < s.len() {
        s[i] = b;
    }
}

// Every byte of a slice set to one value.
pub fn fill(s: &mut [u8], b: u8)
    ensures { s.new ≡ replicate (length s.old) b }
{
    s.fill(b);
}

// Two runs of bytes are the same.
#[tactic(auto, using(crate::specs::BytesLaw::same_pointwise))]
pub fn same_bytes(a: &[u8], b: &[u8]) -> bool
    ensures { result ≡ same_bytes a.now b.now }
{
    a == b
}

// The byte i of the part of a slice that begins at an offset and has a size; 0 past its end, and where it does not lie in
// the slice.
#[tactic(auto, using(crate::specs::Rules::cases), unfolding(crate::specs::Parts::part_byte, crate::specs::Pick::pick))]
pub fn part_byte(s: &[u8], at: usize, size: usize, i: usize) -> u8
    ensures { result ≡ part_byte s.now at size i }
{
    if at <= s.len() && size <= s.len() - at && i < size {
        s[at + i]
    } else {
        0
    }
}

// A byte put at i into such a part; past its end, and where it does not lie in the slice, nothing is put.
#[tactic(auto, using(crate::specs::Rules::cases), unfolding(crate::specs::Parts::put_in_part, crate::specs::Pick::pick))]
pub fn put_in_part(s: &mut [u8], at: usize, size: usize, i: usize, b: u8)
    ensures { s.new ≡ put_in_part s.old at size i b }
{
    if at <= s.len() && size <= s.len() - at && i < size {
        s[at + i] = b;
    }
}
