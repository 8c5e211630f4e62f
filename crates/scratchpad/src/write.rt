// 0Fh Write Scratchpad, and the CRC-16 that ends a write or a read.
ghost use Rattle.std.specs.Prelude.{◌≡◌};
ghost use Rattle.scratchpad.specs.Scratchpad.{crc_of_address, address_in, write_address, after_byte, byte_in, write_data, crc_sent, cut_of};

use crate::{Deed, MemoryAfter, MemoryPhase, Registers, Sight, fields};
use base::Register;

// The CRC-16 of a command and the two bytes of an address.
#[tactic(auto, unfolding(crate::specs::Scratchpad::crc_of_address, crc::specs::Crc::crc_of))]
pub fn crc_of_address(command: u8, address: u16) -> u16
    ensures { result ≡ crc_of_address command address }
{
    let first = crc::byte16(0, command);
    let second = crc::byte16(first, (address % 256) as u8);
    crc::byte16(second, (address / 256) as u8)
}

// The 16 bits of the address are in: T is set, and the data begin.
#[tactic(auto, using(base::specs::Rules::cases), unfolding(crate::specs::Scratchpad::address_in))]
pub fn address_in(bits: u16) -> MemoryAfter
    ensures { result ≡ address_in bits }
{
    let t = fields::target(bits);
    let e = (t % 32) as u8;
    crate::goes_on(
        Registers { t, es: e },
        MemoryPhase::WriteData {
            offset: e,
            count: 0,
            bits: 0,
            crc: crc_of_address(0x0F, bits),
        },
    )
}

// A bit of the address.
#[tactic(auto, using(base::specs::Rules::cases), unfolding(crate::specs::Scratchpad::write_address))]
pub fn write_address(r: Registers, count: u8, bits: u16, v: bool) -> MemoryAfter
    ensures { result ≡ write_address r count bits v }
{
    let bits = bits.filled(v);
    if count < 15 {
        let count = count + 1;
        crate::goes_on(r, MemoryPhase::WriteAddress { count, bits })
    } else {
        address_in(bits)
    }
}

// The phase after a whole byte.
#[tactic(auto, using(base::specs::Rules::cases), unfolding(crate::specs::Scratchpad::after_byte))]
pub fn after_byte(offset: u8, crc: u16) -> MemoryPhase
    ensures { result ≡ after_byte offset crc }
{
    if offset < 31 {
        MemoryPhase::WriteData {
            offset: offset + 1,
            count: 0,
            bits: 0,
            crc,
        }
    } else {
        MemoryPhase::SendCrc { place: 0, crc }
    }
}

// A whole byte: through the rule into the scratchpad.
#[tactic(auto, using(base::specs::Rules::cases), unfolding(crate::specs::Scratchpad::byte_in))]
pub fn byte_in(r: Registers, offset: u8, b: u8, crc: u16, see: Sight) -> MemoryAfter
    ensures { result ≡ byte_in r offset b crc see }
{
    MemoryAfter {
        registers: Registers {
            es: fields::with_e(r.es, offset),
            ..r
        },
        phase: after_byte(offset, crc::byte16(crc, b)),
        deed: Deed::Put {
            offset,
            byte: crate::rule_of_byte(see.held, see.falls, see.memory, b),
        },
    }
}

// A bit of a data byte.
#[tactic(auto, using(base::specs::Rules::cases), unfolding(crate::specs::Scratchpad::write_data))]
pub fn write_data(
    r: Registers,
    offset: u8,
    count: u8,
    bits: u8,
    crc: u16,
    v: bool,
    see: Sight,
) -> MemoryAfter
    ensures { result ≡ write_data r offset count bits crc v see }
{
    let bits = bits.filled(v);
    if count < 7 {
        let count = count + 1;
        crate::goes_on(
            r,
            MemoryPhase::WriteData {
                offset,
                count,
                bits,
                crc,
            },
        )
    } else {
        byte_in(r, offset, bits, crc, see)
    }
}

// A reset in a write, where it counts as a cut.
#[tactic(auto, using(base::specs::Rules::cases), unfolding(crate::specs::Scratchpad::cut_of))]
pub fn cut(r: Registers, counts: bool) -> Registers
    ensures { result ≡ cut_of r counts }
{
    if counts {
        let es = fields::with_pf(r.es);
        Registers { es, ..r }
    } else {
        r
    }
}

// A bit of a CRC-16 was sent.
#[tactic(auto, using(base::specs::Rules::cases), unfolding(crate::specs::Scratchpad::crc_sent))]
pub fn crc_sent(place: u8, crc: u16) -> MemoryPhase
    ensures { result ≡ crc_sent place crc }
{
    if place < 15 {
        let place = place + 1;
        MemoryPhase::SendCrc { place, crc }
    } else {
        MemoryPhase::Ones
    }
}
