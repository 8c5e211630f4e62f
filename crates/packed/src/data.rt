// Data bytes, whose bits are counted and whose ends are stored in a record's place.
ghost use Rattle.std.specs.Prelude.{◌≡◌};
ghost use Rattle.scratchpad.specs.Registers.{with_e};
ghost use Rattle.packed.specs.Takes.{taken, put_step, offset_next, address_next, memory_end, memory_out, pad_end, pad_out, ruled_in, whole_in, data_end, data_in};

use crate::{Parts, counting, fields};
use base::Register;

// A step put in its place, with b and c 0.
#[tactic(auto, unfolding(crate::specs::Takes::put_step))]
fn put_step(r: &mut [u8], number: u8, w: u16, a: u8)
    ensures { r.new ≡ put_step number w a r.old }
{
    let [low, high] = w.to_le_bytes();
    base::put_at(r, 15, number);
    base::put_at(r, 16, low);
    base::put_at(r, 17, high);
    base::put_at(r, 18, a);
    base::put_at(r, 19, 0);
    base::put_at(r, 20, 0);
}

// A byte of the scratchpad was taken or sent: the same step at the next offset, or after the last the CRC-16.
#[tactic(auto, using(base::specs::Rules::cases), unfolding(crate::specs::Takes::offset_next))]
fn next_offset(r: &mut [u8], number: u8, offset: u8, last: u8, crc: u16)
    ensures { r.new ≡ offset_next number offset last crc r.old }
{
    if offset < last {
        put_step(r, number, crc, offset + 1);
        return;
    }
    put_step(r, 19, crc, 0)
}

// A byte of the memory was sent: the next address, or after the last ones.
#[tactic(auto, using(base::specs::Rules::cases), unfolding(crate::specs::Takes::address_next))]
fn next_address(r: &mut [u8], address: u16, last: u16)
    ensures { r.new ≡ address_next address last r.old }
{
    if address < last {
        put_step(r, 26, address + 1, 0);
        return;
    }
    put_step(r, 16, 0, 0)
}

// The last bit of a byte of the memory was sent.
#[tactic(auto, unfolding(crate::specs::Takes::memory_end))]
fn end_memory(r: &mut [u8])
    ensures { r.new ≡ memory_end r.old }
{
    let address = fields::word_of(r);
    let kind = base::byte_at(r, 8);
    let part = chip::kinds::part_of(kind);
    let last = memory::last_address(part);
    next_address(r, address, last)
}

// A bit of a byte of the memory was sent.
#[tactic(auto, using(base::specs::Rules::cases), unfolding(crate::specs::Takes::memory_out))]
pub fn send_memory(r: &mut [u8])
    ensures { r.new ≡ memory_out r.old }
{
    let a = base::byte_at(r, 18);
    if a < 7 {
        base::put_at(r, 18, a + 1);
        return;
    }
    end_memory(r)
}

// The last bit of a byte of the scratchpad was sent.
#[tactic(auto, unfolding(crate::specs::Takes::pad_end))]
fn end_pad(r: &mut [u8], pad: usize, ss: &[u8])
    ensures { r.new ≡ pad_end pad r.old ss.now }
{
    let offset = base::byte_at(r, 18);
    let kind = base::byte_at(r, 8);
    let size = chip::kinds::pad_size(kind);
    let byte = base::part_byte(ss, pad, size, offset as usize);
    let before = fields::word_of(r);
    let crc = crc::byte16(before, byte);
    let part = chip::kinds::part_of(kind);
    let es = base::byte_at(r, 12);
    let last = memory::pad_end(part, es);
    next_offset(r, 21, offset, last, crc)
}

// A bit of a byte of the scratchpad was sent.
#[tactic(auto, using(base::specs::Rules::cases), unfolding(crate::specs::Takes::pad_out))]
pub fn send_pad(r: &mut [u8], pad: usize, ss: &[u8])
    ensures { r.new ≡ pad_out pad r.old ss.now }
{
    let b = base::byte_at(r, 19);
    if b < 7 {
        base::put_at(r, 19, b + 1);
        return;
    }
    end_pad(r, pad, ss)
}

// A byte that was taken, through the rule of a byte.
#[tactic(auto, unfolding(crate::specs::Takes::ruled_in))]
fn rule_in(r: &[u8], image: usize, offset: u8, sent: u8, ms: &[u8]) -> u8
    ensures { result ≡ ruled_in image offset sent r.now ms.now }
{
    let t = fields::target_of(r);
    let a = scratchpad::in_page(t, offset);
    let kind = base::byte_at(r, 8);
    let size = chip::kinds::image_size(kind);
    let part = chip::kinds::part_of(kind);
    let byte = base::part_byte(ms, image, size, a);
    let at = memory::control_address(part, a);
    let control = base::part_byte(ms, image, size, at);
    memory::rule(part, a, byte, control, sent)
}

// E/S with E set to an offset.
// Stays beside the scratchpad's own: no plainer, since that crate would hand a field of E/S to every crate above for one line.
#[tactic(auto, unfolding(scratchpad::specs::Registers::with_e))]
fn with_e(es: u8, offset: u8) -> u8
    ensures { result ≡ with_e es offset }
{
    es / 32 * 32 + offset % 32
}

// A whole byte: through the rule into the scratchpad, and E is its offset.
#[tactic(auto, unfolding(crate::specs::Takes::whole_in))]
fn take_whole(r: &mut [u8], parts: Parts, sent: u8, ms: &[u8], ss: &mut [u8])
    ensures { taken r.new ms.now ss.new ≡ whole_in parts.image parts.pad sent r.old ms.now ss.old }
{
    let offset = base::byte_at(r, 18);
    let kind = base::byte_at(r, 8);
    let size = chip::kinds::pad_size(kind);
    let byte = rule_in(r, parts.image, offset, sent, ms);
    let before = fields::word_of(r);
    let crc = crc::byte16(before, sent);
    let old = base::byte_at(r, 12);
    let es = with_e(old, offset);
    base::put_in_part(ss, parts.pad, size, offset as usize, byte);
    base::put_at(r, 12, es);
    next_offset(r, 18, offset, 31, crc)
}

// The last bit of a byte.
#[tactic(auto, unfolding(crate::specs::Takes::data_end))]
fn end_data(r: &mut [u8], parts: Parts, v: bool, ms: &[u8], ss: &mut [u8])
    ensures { taken r.new ms.now ss.new ≡ data_end v parts.image parts.pad r.old ms.now ss.old }
{
    let before = base::byte_at(r, 20);
    let sent = before.filled(v);
    take_whole(r, parts, sent, ms, ss)
}

// A bit of a byte.
#[tactic(auto, using(base::specs::Rules::cases), unfolding(crate::specs::Takes::data_in))]
pub fn take_data(r: &mut [u8], parts: Parts, v: bool, ms: &[u8], ss: &mut [u8])
    ensures { taken r.new ms.now ss.new ≡ data_in v parts.image parts.pad r.old ms.now ss.old }
{
    let b = base::byte_at(r, 19);
    if b < 7 {
        counting::fill_byte(r, 19, b + 1, 20, v);
        return;
    }
    end_data(r, parts, v, ms, ss)
}
