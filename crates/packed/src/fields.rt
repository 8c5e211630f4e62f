// Fields of a record, read in their places; past the end a byte is 0.
ghost use Rattle.std.specs.Prelude.{◌≡◌, eqb, get_or};
ghost use Rattle.records.specs.Numbers.{number_at};
ghost use Rattle.packed.specs.Packed.{unpacked};

// The kind of the chip that bytes stand for.
#[tactic(auto, unfolding(crate::specs::Packed::unpacked))]
pub fn kind_of(r: &[u8]) -> u8
    ensures { result ≡ (unpacked r.now).kind }
{
    base::byte_at(r, 8)
}

// The step that bytes name is 0: a chip that waits for a reset.
pub fn waits(r: &[u8]) -> bool
    ensures { result ≡ eqb (get_or r.now 15 0) 0 }
{
    base::byte_at(r, 15) == 0
}

// The code.
pub fn code_of(r: &[u8]) -> u64
    ensures { result ≡ number_at r.now 0 8 }
{
    records::code_at(r, 0)
}

// T, the target address.
pub fn target_of(r: &[u8]) -> u16
    ensures { result ≡ number_at r.now 10 2 }
{
    records::pair_at(r, 10)
}

// The step's w.
pub fn word_of(r: &[u8]) -> u16
    ensures { result ≡ number_at r.now 16 2 }
{
    records::pair_at(r, 16)
}
