// Slots that only count or fill, stored in a record's place; any other at these steps goes the general way.
ghost use Rattle.std.specs.Prelude.{◌≡◌};
ghost use Rattle.packed.specs.Takes.{taken, filled_at, word_filled, of_code, count_in, byte_in, word_in, code_in};

use crate::{Parts, fields, taking};
use base::Register;

// A bit enters the byte at a place, and another byte is its new count.
#[tactic(auto, unfolding(crate::specs::Takes::filled_at))]
pub fn fill_byte(r: &mut [u8], counter: usize, count: u8, place: usize, v: bool)
    ensures { r.new ≡ filled_at counter count place v r.old }
{
    let before = base::byte_at(r, place);
    let bits = before.filled(v);
    base::put_at(r, counter, count);
    base::put_at(r, place, bits);
}

// A bit enters w, and a is the new count.
#[tactic(auto, unfolding(crate::specs::Takes::word_filled))]
fn fill_word(r: &mut [u8], count: u8, v: bool)
    ensures { r.new ≡ word_filled count v r.old }
{
    let before = fields::word_of(r);
    let [low, high] = before.filled(v).to_le_bytes();
    base::put_at(r, 16, low);
    base::put_at(r, 17, high);
    base::put_at(r, 18, count);
}

// A bit is the code's at a place.
#[tactic(auto, using(base::specs::Rules::cases), unfolding(crate::specs::Takes::of_code, base::specs::Bits::same))]
fn is_of_code(r: &[u8], place: u8, v: bool) -> bool
    ensures { result ≡ of_code place v r.now }
{
    let code = fields::code_of(r);
    base::bit_of(code, place) == v
}

// A place up to a last one.
#[tactic(auto, using(base::specs::Rules::cases), unfolding(crate::specs::Takes::count_in))]
pub fn take_count(r: &mut [u8], last: u8, parts: Parts, v: bool, ms: &mut [u8], ss: &mut [u8])
    ensures { taken r.new ms.new ss.new ≡ count_in v parts.image parts.pad r.old ms.old ss.old last }
{
    let a = base::byte_at(r, 18);
    if a < last {
        base::put_at(r, 18, a + 1);
        return;
    }
    taking::take_any(r, parts, v, ms, ss)
}

// A bit of a byte.
// Stays beside its like here and in `data`: they differ in both places and in what the last bit does; a closure for that is no plainer.
#[tactic(auto, using(base::specs::Rules::cases), unfolding(crate::specs::Takes::byte_in))]
pub fn take_byte(r: &mut [u8], parts: Parts, v: bool, ms: &mut [u8], ss: &mut [u8])
    ensures { taken r.new ms.new ss.new ≡ byte_in v parts.image parts.pad r.old ms.old ss.old }
{
    let a = base::byte_at(r, 18);
    if a < 7 {
        fill_byte(r, 18, a + 1, 19, v);
        return;
    }
    taking::take_any(r, parts, v, ms, ss)
}

// A bit of two bytes.
#[tactic(auto, using(base::specs::Rules::cases), unfolding(crate::specs::Takes::word_in))]
pub fn take_word(r: &mut [u8], parts: Parts, v: bool, ms: &mut [u8], ss: &mut [u8])
    ensures { taken r.new ms.new ss.new ≡ word_in v parts.image parts.pad r.old ms.old ss.old }
{
    let a = base::byte_at(r, 18);
    if a < 15 {
        fill_word(r, a + 1, v);
        return;
    }
    taking::take_any(r, parts, v, ms, ss)
}

// A bit of the code, to match.
#[tactic(auto, using(base::specs::Rules::cases), unfolding(crate::specs::Takes::code_in))]
pub fn take_code(r: &mut [u8], parts: Parts, v: bool, ms: &mut [u8], ss: &mut [u8])
    ensures { taken r.new ms.new ss.new ≡ code_in v parts.image parts.pad r.old ms.old ss.old }
{
    let a = base::byte_at(r, 18);
    if a < 63 && is_of_code(r, a, v) {
        base::put_at(r, 18, a + 1);
        return;
    }
    taking::take_any(r, parts, v, ms, ss)
}
