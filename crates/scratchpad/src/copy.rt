// 55h Copy.
ghost use Rattle.std.specs.Prelude.{◌≡◌};
ghost use Rattle.scratchpad.specs.Scratchpad.{copy_address, carried_out, three_bytes_in, copy_end};

use crate::{Deed, MemoryAfter, MemoryPhase, Registers, Sight, fields};
use base::Register;

// A bit of TA1 and TA2.
#[tactic(auto, using(base::specs::Rules::cases), unfolding(crate::specs::Scratchpad::copy_address))]
pub fn copy_address(count: u8, bits: u16, v: bool) -> MemoryPhase
    ensures { result ≡ copy_address count bits v }
{
    let bits = bits.filled(v);
    if count < 15 {
        MemoryPhase::CopyAddress {
            count: count + 1,
            bits,
        }
    } else {
        MemoryPhase::CopyEnd {
            address: bits,
            count: 0,
            bits: 0,
        }
    }
}

// Whether the three bytes, an address and an E/S as sent, carry out a copy.
#[tactic(auto, using(base::specs::Rules::cases), unfolding(crate::specs::Scratchpad::carried_out, base::specs::Bits::both, base::specs::Pick::pick))]
pub fn is_carried_out(r: Registers, address: u16, es: u8, see: Sight) -> bool
    ensures { result ≡ carried_out r address es see }
{
    address == r.t && es == r.es && !fields::pf_of(r.es) && !see.closed
}

// The three bytes are in: a copy is carried out, or ones follow.
#[tactic(auto, using(base::specs::Rules::cases), unfolding(crate::specs::Scratchpad::three_bytes_in))]
pub fn three_bytes_in(r: Registers, address: u16, es: u8, see: Sight) -> MemoryAfter
    ensures { result ≡ three_bytes_in r address es see }
{
    if !is_carried_out(r, address, es, see) {
        return crate::goes_on(r, MemoryPhase::Ones);
    }
    MemoryAfter {
        registers: Registers {
            es: fields::with_aa(r.es),
            ..r
        },
        phase: MemoryPhase::Copied { answer: false },
        deed: Deed::Copy {
            t: r.t,
            e: r.es % 32,
        },
    }
}

// A bit of the third byte.
#[tactic(auto, using(base::specs::Rules::cases), unfolding(crate::specs::Scratchpad::copy_end))]
pub fn copy_end(r: Registers, address: u16, count: u8, bits: u8, v: bool, see: Sight) -> MemoryAfter
    ensures { result ≡ copy_end r address count bits v see }
{
    let bits = bits.filled(v);
    if count < 7 {
        let count = count + 1;
        crate::goes_on(
            r,
            MemoryPhase::CopyEnd {
                address,
                count,
                bits,
            },
        )
    } else {
        three_bytes_in(r, address, bits, see)
    }
}
