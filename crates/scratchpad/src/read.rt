// AAh Read Scratchpad and F0h Read Memory.
ghost use Rattle.std.specs.Prelude.{◌≡◌, ◌+◌, ◌*◌};
ghost use Rattle.base.specs.Bits.{bit_of};
ghost use Rattle.scratchpad.specs.Scratchpad.{pad_from, pad_begins, register_sent, pad_byte_sent, pad_sent, read_from, read_address, memory_sent};

use crate::{MemoryPhase, Registers, Sight, write};
use base::Register;

// A bit of TA1, TA2 and E/S.
pub fn register_bit(r: Registers, place: u8) -> bool
    ensures { result ≡ bit_of (r.t + 65536 * r.es) place }
{
    base::bit_of((r.t as u64) + 65536 * (r.es as u64), place)
}

// The scratchpad from an offset on, as far as it is sent.
#[tactic(auto, using(base::specs::Rules::cases), unfolding(crate::specs::Scratchpad::pad_from))]
pub fn pad_from(offset: u8, crc: u16, end: u8) -> MemoryPhase
    ensures { result ≡ pad_from offset crc end }
{
    if offset <= end {
        MemoryPhase::ReadPad {
            offset,
            count: 0,
            crc,
        }
    } else {
        MemoryPhase::SendCrc { place: 0, crc }
    }
}

// The registers were sent, and the scratchpad comes next.
#[tactic(auto, using(base::specs::Rules::cases), unfolding(crate::specs::Scratchpad::pad_begins))]
pub fn pad_begins(r: Registers, see: Sight) -> MemoryPhase
    ensures { result ≡ pad_begins r see }
{
    let crc = crc::byte16(write::crc_of_address(0xAA, r.t), r.es);
    pad_from((r.t % 32) as u8, crc, see.end)
}

// A bit of TA1, TA2 and E/S was sent.
#[tactic(auto, using(base::specs::Rules::cases), unfolding(crate::specs::Scratchpad::register_sent))]
pub fn register_sent(r: Registers, place: u8, see: Sight) -> MemoryPhase
    ensures { result ≡ register_sent r place see }
{
    if place < 23 {
        MemoryPhase::ReadRegisters { place: place + 1 }
    } else {
        pad_begins(r, see)
    }
}

// A byte of the scratchpad was sent.
#[tactic(auto, using(base::specs::Rules::cases), unfolding(crate::specs::Scratchpad::pad_byte_sent))]
pub fn pad_byte_sent(offset: u8, crc: u16, end: u8) -> MemoryPhase
    ensures { result ≡ pad_byte_sent offset crc end }
{
    if offset < end {
        MemoryPhase::ReadPad {
            offset: offset + 1,
            count: 0,
            crc,
        }
    } else {
        MemoryPhase::SendCrc { place: 0, crc }
    }
}

// A bit of the scratchpad was sent.
#[tactic(auto, using(base::specs::Rules::cases), unfolding(crate::specs::Scratchpad::pad_sent))]
pub fn pad_sent(offset: u8, count: u8, crc: u16, see: Sight) -> MemoryPhase
    ensures { result ≡ pad_sent offset count crc see }
{
    if count < 7 {
        let count = count + 1;
        MemoryPhase::ReadPad { offset, count, crc }
    } else {
        pad_byte_sent(offset, crc::byte16(crc, see.pad), see.end)
    }
}

// Reading begins at an address, if it can be read.
#[tactic(auto, using(base::specs::Rules::cases), unfolding(crate::specs::Scratchpad::read_from))]
pub fn read_from(address: u16, last: u16) -> MemoryPhase
    ensures { result ≡ read_from address last }
{
    if address <= last {
        MemoryPhase::ReadMemory { address, count: 0 }
    } else {
        MemoryPhase::Ones
    }
}

// A bit of the address of Read Memory.
#[tactic(auto, using(base::specs::Rules::cases), unfolding(crate::specs::Scratchpad::read_address))]
pub fn read_address(count: u8, bits: u16, v: bool, see: Sight) -> MemoryPhase
    ensures { result ≡ read_address count bits v see }
{
    let bits = bits.filled(v);
    if count < 15 {
        MemoryPhase::ReadAddress {
            count: count + 1,
            bits,
        }
    } else {
        read_from(bits, see.last)
    }
}

// A bit of a memory byte was sent.
#[tactic(auto, using(base::specs::Rules::cases), unfolding(crate::specs::Scratchpad::memory_sent))]
pub fn memory_sent(address: u16, count: u8, see: Sight) -> MemoryPhase
    ensures { result ≡ memory_sent address count see }
{
    if count < 7 {
        let count = count + 1;
        MemoryPhase::ReadMemory { address, count }
    } else if address < see.last {
        MemoryPhase::ReadMemory {
            address: address + 1,
            count: 0,
        }
    } else {
        MemoryPhase::Ones
    }
}
