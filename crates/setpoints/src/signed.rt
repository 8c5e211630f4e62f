// Bytes read as signed numbers.
ghost use Rattle.std.specs.Prelude.{◌≡◌};
ghost use Rattle.setpoints.specs.Signed.{signed};

// The signed number that a byte stands for.
// Stays beside `signed_pair`: readback has a theorem of each, `signed_byte_is` and `signed_pair_is`, and `cast_signed` is no method of a trait.
#[tactic(auto, using(crate::specs::Words::byte_word))]
pub fn signed_byte(b: u8) -> i64
    ensures { result ≡ signed 1 b }
{
    i64::from(b.cast_signed())
}

// The signed number that the number of two bytes stands for.
#[tactic(auto, using(crate::specs::Words::pair_word))]
pub fn signed_pair(n: u16) -> i64
    ensures { result ≡ signed 2 n }
{
    i64::from(n.cast_signed())
}
