// What a record's chip sends in a slot, read from the bytes in their place: at each step that sends, a bit.
ghost use Rattle.std.specs.Prelude.{◌≡◌};
ghost use Rattle.packed.specs.Sends.{code_bit, search_bit, crc_bit, register_bit, pad_bit, copied_bit, memory_bit, sample_bit, confirm_bit, sends_in};

use crate::{Parts, fields};

// Read ROM: bit a of the code.
#[tactic(auto, unfolding(crate::specs::Sends::code_bit))]
fn code_bit(r: &[u8]) -> bool
    ensures { result ≡ code_bit r.now }
{
    let code = fields::code_of(r);
    let a = base::byte_at(r, 18);
    base::bit_of(code, a)
}

// Search ROM: by b, bit a of the code, its complement, or nothing.
#[tactic(auto, unfolding(crate::specs::Sends::search_bit))]
fn search_bit(r: &[u8]) -> bool
    ensures { result ≡ search_bit r.now }
{
    let code = fields::code_of(r);
    let a = base::byte_at(r, 18);
    let b = base::byte_at(r, 19);
    rom::search_sends(code, a, b)
}

// The CRC-16: the complement of bit a of w.
#[tactic(auto, unfolding(crate::specs::Sends::crc_bit))]
fn crc_bit(r: &[u8]) -> bool
    ensures { result ≡ crc_bit r.now }
{
    let w = fields::word_of(r);
    let a = base::byte_at(r, 18);
    !base::bit_of(w as u64, a)
}

// TA1, TA2 and E/S: bit a of the three bytes.
#[tactic(auto, unfolding(crate::specs::Sends::register_bit))]
fn register_bit(r: &[u8]) -> bool
    ensures { result ≡ register_bit r.now }
{
    let t = fields::target_of(r);
    let es = base::byte_at(r, 12);
    let a = base::byte_at(r, 18);
    base::bit_of((t as u64) + 65536 * (es as u64), a)
}

// Read Scratchpad: bit b of the scratchpad's byte a.
#[tactic(auto, unfolding(crate::specs::Sends::pad_bit, crate::specs::Packed::unpacked))]
fn pad_bit(r: &[u8], pad: usize, ss: &[u8]) -> bool
    ensures { result ≡ pad_bit pad r.now ss.now }
{
    let kind = fields::kind_of(r);
    let size = chip::kinds::pad_size(kind);
    let a = base::byte_at(r, 18);
    let byte = base::part_byte(ss, pad, size, a as usize);
    let b = base::byte_at(r, 19);
    base::bit_of(byte as u64, b)
}

// A copy was carried out: a is the bit.
#[tactic(auto, unfolding(crate::specs::Sends::copied_bit))]
fn copied_bit(r: &[u8]) -> bool
    ensures { result ≡ copied_bit r.now }
{
    let a = base::byte_at(r, 18);
    a == 1
}

// Read Memory: bit a of the memory's byte w.
#[tactic(auto, unfolding(crate::specs::Sends::memory_bit, crate::specs::Packed::unpacked))]
fn memory_bit(r: &[u8], image: usize, ms: &[u8]) -> bool
    ensures { result ≡ memory_bit image r.now ms.now }
{
    let kind = fields::kind_of(r);
    let size = chip::kinds::image_size(kind);
    let w = fields::word_of(r);
    let byte = base::part_byte(ms, image, size, w as usize);
    let a = base::byte_at(r, 18);
    base::bit_of(byte as u64, a)
}

// PIO Access, a sampled status: bit a of b.
#[tactic(auto, unfolding(crate::specs::Sends::sample_bit))]
fn sample_bit(r: &[u8]) -> bool
    ensures { result ≡ sample_bit r.now }
{
    let a = base::byte_at(r, 18);
    let b = base::byte_at(r, 19);
    base::bit_of(b as u64, a)
}

// PIO Access Write: bit a of AAh.
#[tactic(auto, unfolding(crate::specs::Sends::confirm_bit))]
fn confirm_bit(r: &[u8]) -> bool
    ensures { result ≡ confirm_bit r.now }
{
    let a = base::byte_at(r, 18);
    base::bit_of(0xAA, a)
}

// The bit that a record's chip sends, its parts of the buffers beginning at these places; a step with nothing to send sends 1.
#[tactic(auto, using(base::specs::Rules::cases), unfolding(crate::specs::Sends::sends_in, crate::specs::Sends::sends_at))]
pub fn sends(r: &[u8], parts: Parts, ms: &[u8], ss: &[u8]) -> bool
    ensures { result ≡ sends_in parts.image parts.pad r.now ms.now ss.now }
{
    let number = base::byte_at(r, 15);
    match number {
        2 => code_bit(r),
        4 => search_bit(r),
        19 => crc_bit(r),
        20 => register_bit(r),
        21 => pad_bit(r, parts.pad, ss),
        24 => copied_bit(r),
        26 => memory_bit(r, parts.image, ms),
        33 | 36 => sample_bit(r),
        35 => confirm_bit(r),
        _ => true,
    }
}
