// E/S, field by field.
ghost use Rattle.std.specs.Prelude.{◌≡◌};
ghost use Rattle.scratchpad.specs.Registers.{pf, with_e, with_pf, with_aa, target_of};

// PF of E/S.
#[tactic(auto, unfolding(crate::specs::Registers::pf))]
pub fn pf_of(es: u8) -> bool
    ensures { result ≡ pf es }
{
    base::bit_of(es as u64, 5)
}

// E/S with E set to an offset.
#[tactic(auto, unfolding(crate::specs::Registers::with_e))]
pub fn with_e(es: u8, offset: u8) -> u8
    ensures { result ≡ with_e es offset }
{
    es / 32 * 32 + offset % 32
}

// E/S with PF = 1.
#[tactic(auto, unfolding(crate::specs::Registers::with_pf))]
pub fn with_pf(es: u8) -> u8
    ensures { result ≡ with_pf es }
{
    es / 64 * 64 + 32 + es % 32
}

// E/S with AA = 1.
#[tactic(auto, unfolding(crate::specs::Registers::with_aa))]
pub fn with_aa(es: u8) -> u8
    ensures { result ≡ with_aa es }
{
    128 + es % 128
}

// T, of the 16 bits taken.
#[tactic(auto, unfolding(crate::specs::Registers::target_of))]
pub fn target(bits: u16) -> u16
    ensures { result ≡ target_of bits }
{
    bits
}
