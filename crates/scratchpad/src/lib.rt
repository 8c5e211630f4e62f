// T, E/S and the commands Write Scratchpad, Read Scratchpad, Copy and Read Memory, over any part's map.
// A slot is given a sight, what it sees of memory and scratchpad, and answers a deed, what is to be done to them.
#![tactic(auto)]

mod copy;
mod fields;
mod read;
mod write;

ghost use Rattle.std.specs.Prelude.{◌≡◌};
ghost use Rattle.scratchpad.specs.Scratchpad.{memory_after, memory_function, memory_begins, memory_takes, memory_sends, memory_reset, memory_in_range, registers_in_range, in_page, byte_at_hand, page_at_hand, hand_of};
ghost use Rattle.scratchpad.specs.Registers.{power_on_registers, mark, rule_of_byte};

// The registers: T, and E/S with E in bits 0 to 4, PF bit 5 and AA bit 7.
#[derive(Clone, Copy, PartialEq, Eq)]
pub struct Registers {
    pub t: u16,
    pub es: u8,
}

// A phase of the function level, with what it needs to go on.
#[derive(Clone, Copy, PartialEq, Eq)]
pub enum MemoryPhase {
    // nothing more to send
    Ones,
    // Write Scratchpad: the address, bit by bit
    WriteAddress {
        count: u8,
        bits: u16,
    },
    // Write Scratchpad: the data byte for an offset, bit by bit, and the CRC-16 of what was taken
    WriteData {
        offset: u8,
        count: u8,
        bits: u8,
        crc: u16,
    },
    // the CRC-16 that ends a write or a read, sent inverted
    SendCrc {
        place: u8,
        crc: u16,
    },
    // Read Scratchpad: the 24 bits of TA1, TA2 and E/S
    ReadRegisters {
        place: u8,
    },
    // Read Scratchpad: the byte at an offset, bit by bit, and the CRC-16 of what was sent
    ReadPad {
        offset: u8,
        count: u8,
        crc: u16,
    },
    // Copy: TA1 and TA2, bit by bit
    CopyAddress {
        count: u8,
        bits: u16,
    },
    // Copy: E/S, bit by bit, and the address that came before
    CopyEnd {
        address: u16,
        count: u8,
        bits: u8,
    },
    // a copy was carried out, and this bit is sent next
    Copied {
        answer: bool,
    },
    // Read Memory: the address, bit by bit
    ReadAddress {
        count: u8,
        bits: u16,
    },
    // Read Memory: the byte at an address, bit by bit
    ReadMemory {
        address: u16,
        count: u8,
    },
}

// What a slot sees: the memory byte at hand and whether it is held or only falls, whether T's page is closed to
// copying, the scratchpad byte at hand, the last address that Read Memory reads, and the last offset that Read
// Scratchpad sends.
#[derive(Clone, Copy, PartialEq, Eq)]
pub struct Sight {
    pub memory: u8,
    pub held: bool,
    pub falls: bool,
    pub closed: bool,
    pub pad: u8,
    pub last: u16,
    pub end: u8,
}

// What a slot goes by, beside the registers: nothing for a bit that only counts or fills; the memory byte at an
// address, with its control byte; a page; a byte of the scratchpad; or a memory byte that is sent.
#[derive(Clone, Copy, PartialEq, Eq)]
pub enum Hand {
    Nothing,
    Byte { address: usize },
    Page { start: usize },
    Pad { offset: usize },
    Memory { address: usize },
}

// What a slot does to memory and scratchpad: nothing, a byte put into the scratchpad, or a copy carried out,
// in T's page from T mod 32 to E.
#[derive(Clone, Copy, PartialEq, Eq)]
pub enum Deed {
    Nothing,
    Put { offset: u8, byte: u8 },
    Copy { t: u16, e: u8 },
}

// Where a slot leaves the part, and its deed.
#[derive(Clone, Copy, PartialEq, Eq)]
pub struct MemoryAfter {
    pub registers: Registers,
    pub phase: MemoryPhase,
    pub deed: Deed,
}

// The registers after power on.
pub fn power_on() -> Registers
    ensures { result ≡ power_on_registers }
{
    Registers { t: 0, es: 0x20 }
}

// 55h or AAh.
#[tactic(auto, using(base::specs::Rules::cases), unfolding(crate::specs::Registers::mark, base::specs::Pick::pick))]
pub fn is_mark(b: u8) -> bool
    ensures { result ≡ mark b }
{
    b == 0x55 || b == 0xAA
}

// The rule of a byte.
#[tactic(auto, using(base::specs::Rules::cases), unfolding(crate::specs::Registers::rule_of_byte))]
pub fn rule_of_byte(held: bool, falls: bool, memory: u8, sent: u8) -> u8
    ensures { result ≡ rule_of_byte held falls memory sent }
{
    if held {
        memory
    } else if falls {
        memory & sent
    } else {
        sent
    }
}

// The phase that a function command begins.
#[tactic(auto, using(base::specs::Rules::cases), unfolding(crate::specs::Scratchpad::memory_function))]
pub fn function(b: u8) -> MemoryPhase
    ensures { result ≡ memory_function b }
{
    match b {
        0x0F => MemoryPhase::WriteAddress { count: 0, bits: 0 },
        0xAA => MemoryPhase::ReadRegisters { place: 0 },
        0x55 => MemoryPhase::CopyAddress { count: 0, bits: 0 },
        0xF0 => MemoryPhase::ReadAddress { count: 0, bits: 0 },
        _ => MemoryPhase::Ones,
    }
}

// Another phase, and nothing done.
pub fn goes_on(r: Registers, p: MemoryPhase) -> MemoryAfter
    ensures { result ≡ memory_after r p Deed.Nothing }
{
    MemoryAfter {
        registers: r,
        phase: p,
        deed: Deed::Nothing,
    }
}

// Where a function command leaves the part at its eighth bit, and its deed.
#[tactic(auto, unfolding(crate::specs::Scratchpad::memory_begins))]
pub fn begins(r: Registers, b: u8) -> MemoryAfter
    ensures { result ≡ memory_begins r b }
{
    goes_on(r, function(b))
}

// What a slot of the value v does at a phase.
pub fn takes(r: Registers, v: bool, see: Sight, p: MemoryPhase) -> MemoryAfter
    ensures { result ≡ memory_takes r v see p }
{
    let next = match p {
        MemoryPhase::Ones => MemoryPhase::Ones,
        MemoryPhase::WriteAddress { count, bits } => return write::write_address(r, count, bits, v),
        MemoryPhase::WriteData {
            offset,
            count,
            bits,
            crc,
        } => return write::write_data(r, offset, count, bits, crc, v, see),
        MemoryPhase::SendCrc { place, crc } => write::crc_sent(place, crc),
        MemoryPhase::ReadRegisters { place } => read::register_sent(r, place, see),
        MemoryPhase::ReadPad { offset, count, crc } => read::pad_sent(offset, count, crc, see),
        MemoryPhase::CopyAddress { count, bits } => copy::copy_address(count, bits, v),
        MemoryPhase::CopyEnd {
            address,
            count,
            bits,
        } => return copy::copy_end(r, address, count, bits, v, see),
        MemoryPhase::Copied { answer } => MemoryPhase::Copied { answer: !answer },
        MemoryPhase::ReadAddress { count, bits } => read::read_address(count, bits, v, see),
        MemoryPhase::ReadMemory { address, count } => read::memory_sent(address, count, see),
    };
    goes_on(r, next)
}

// What a chip sends in a slot at a phase.
pub fn sends(r: Registers, see: Sight, p: MemoryPhase) -> bool
    ensures { result ≡ memory_sends r see p }
{
    match p {
        MemoryPhase::SendCrc { place, crc } => !base::bit_of(crc as u64, place),
        MemoryPhase::ReadRegisters { place } => read::register_bit(r, place),
        MemoryPhase::ReadPad { count, .. } => base::bit_of(see.pad as u64, count),
        MemoryPhase::Copied { answer } => answer,
        MemoryPhase::ReadMemory { count, .. } => base::bit_of(see.memory as u64, count),
        MemoryPhase::Ones
        | MemoryPhase::WriteAddress { .. }
        | MemoryPhase::WriteData { .. }
        | MemoryPhase::CopyAddress { .. }
        | MemoryPhase::CopyEnd { .. }
        | MemoryPhase::ReadAddress { .. } => true,
    }
}

// What a reset does to the registers; cut tells whether one inside the address of a write sets PF.
pub fn reset(r: Registers, cut: bool, p: MemoryPhase) -> Registers
    ensures { result ≡ memory_reset r cut p }
{
    match p {
        MemoryPhase::WriteAddress { .. } => write::cut(r, cut),
        MemoryPhase::WriteData { count, .. } => write::cut(r, 0 < count),
        MemoryPhase::Ones
        | MemoryPhase::SendCrc { .. }
        | MemoryPhase::ReadRegisters { .. }
        | MemoryPhase::ReadPad { .. }
        | MemoryPhase::CopyAddress { .. }
        | MemoryPhase::CopyEnd { .. }
        | MemoryPhase::Copied { .. }
        | MemoryPhase::ReadAddress { .. }
        | MemoryPhase::ReadMemory { .. } => r,
    }
}

// Whether a phase's counts and places lie inside it.
#[tactic(auto, unfolding(base::specs::Bits::both, base::specs::Pick::pick))]
pub fn in_range(last: u16, p: MemoryPhase) -> bool
    ensures { result ≡ memory_in_range last p }
{
    match p {
        MemoryPhase::Ones | MemoryPhase::Copied { .. } => true,
        MemoryPhase::WriteAddress { count, .. }
        | MemoryPhase::CopyAddress { count, .. }
        | MemoryPhase::ReadAddress { count, .. } => count < 16,
        MemoryPhase::WriteData { offset, count, .. } | MemoryPhase::ReadPad { offset, count, .. } =>
            offset < 32 && count < 8,
        MemoryPhase::SendCrc { place, .. } => place < 16,
        MemoryPhase::ReadRegisters { place } => place < 24,
        MemoryPhase::CopyEnd { count, .. } => count < 8,
        MemoryPhase::ReadMemory { address, count } => address <= last && count < 8,
    }
}

// Whether the registers are in range.
#[tactic(auto, unfolding(crate::specs::Scratchpad::registers_in_range))]
pub fn registers_in_range(r: Registers) -> bool
    ensures { result ≡ registers_in_range r }
{
    !base::bit_of(r.es as u64, 6)
}

// The address of an offset in T's page.
#[tactic(auto, unfolding(crate::specs::Scratchpad::in_page))]
pub fn in_page(t: u16, offset: u8) -> usize
    ensures { result ≡ in_page t offset }
{
    (t as usize) / 32 * 32 + (offset as usize)
}

// What a slot goes by at a data byte.
#[tactic(auto, using(base::specs::Rules::cases), unfolding(crate::specs::Scratchpad::byte_at_hand))]
pub fn byte_at_hand(t: u16, offset: u8, count: u8) -> Hand
    ensures { result ≡ byte_at_hand t offset count }
{
    if count < 7 {
        Hand::Nothing
    } else {
        Hand::Byte {
            address: in_page(t, offset),
        }
    }
}

// What a slot goes by at the third byte of Copy.
#[tactic(auto, using(base::specs::Rules::cases), unfolding(crate::specs::Scratchpad::page_at_hand))]
pub fn page_at_hand(t: u16, count: u8) -> Hand
    ensures { result ≡ page_at_hand t count }
{
    if count < 7 {
        Hand::Nothing
    } else {
        Hand::Page {
            start: in_page(t, 0),
        }
    }
}

// What a slot goes by at a phase, beside the registers.
pub fn at_hand(t: u16, p: MemoryPhase) -> Hand
    ensures { result ≡ hand_of t p }
{
    match p {
        MemoryPhase::WriteData { offset, count, .. } => byte_at_hand(t, offset, count),
        MemoryPhase::CopyEnd { count, .. } => page_at_hand(t, count),
        MemoryPhase::ReadPad { offset, .. } => Hand::Pad {
            offset: offset as usize,
        },
        MemoryPhase::ReadMemory { address, .. } => Hand::Memory {
            address: address as usize,
        },
        MemoryPhase::Ones
        | MemoryPhase::WriteAddress { .. }
        | MemoryPhase::SendCrc { .. }
        | MemoryPhase::ReadRegisters { .. }
        | MemoryPhase::CopyAddress { .. }
        | MemoryPhase::Copied { .. }
        | MemoryPhase::ReadAddress { .. } => Hand::Nothing,
    }
}
