// A slot on a record in its place.
ghost use Rattle.std.specs.Prelude.{◌≡◌};
ghost use Rattle.packed.specs.Takes.{taken, shape_of, any_in, takes_by, takes_in};

use crate::{Parts, Shape, counting, data, record};
use line::Act;

// The shape of each step.
#[tactic(auto, using(base::specs::Rules::cases), unfolding(crate::specs::Takes::shape_of))]
fn shape_of(number: u8) -> Shape
    ensures { result ≡ shape_of number }
{
    match number {
        0 => Shape::Still,
        1 => Shape::Byte,
        2 => Shape::Count { last: 63 },
        3 => Shape::Code,
        5 => Shape::Byte,
        16 => Shape::Still,
        17 => Shape::Word,
        18 => Shape::Data,
        19 => Shape::Count { last: 15 },
        20 => Shape::Count { last: 23 },
        21 => Shape::Pad,
        22 => Shape::Word,
        23 => Shape::Byte,
        25 => Shape::Word,
        26 => Shape::Memory,
        32 => Shape::Still,
        33 => Shape::Count { last: 7 },
        34 => Shape::Word,
        35 => Shape::Count { last: 7 },
        36 => Shape::Count { last: 7 },
        _ => Shape::Any,
    }
}

// Any slot, by the chip that the record stands for.
// Stays with images and scratchpads side by side, as in `line`.
#[tactic(auto, unfolding(crate::specs::Takes::any_in))]
pub fn take_any(r: &mut [u8], parts: Parts, v: bool, ms: &mut [u8], ss: &mut [u8])
    ensures { taken r.new ms.new ss.new ≡ any_in v parts.image parts.pad r.old ms.old ss.old }
{
    let c = record::unpack(r);
    let after = line::act_at(c, Act::Take(v), parts.image, parts.pad, ms, ss);
    record::put_record(r, after);
}

// A slot by the shape of the step.
#[tactic(auto, using(base::specs::Rules::cases))]
fn take_by(shape: Shape, r: &mut [u8], parts: Parts, v: bool, ms: &mut [u8], ss: &mut [u8])
    ensures { taken r.new ms.new ss.new ≡ takes_by v parts.image parts.pad r.old ms.old ss.old shape }
{
    match shape {
        Shape::Still => {}
        Shape::Count { last } => counting::take_count(r, last, parts, v, ms, ss),
        Shape::Byte => counting::take_byte(r, parts, v, ms, ss),
        Shape::Word => counting::take_word(r, parts, v, ms, ss),
        Shape::Code => counting::take_code(r, parts, v, ms, ss),
        Shape::Data => data::take_data(r, parts, v, ms, ss),
        Shape::Pad => data::send_pad(r, parts.pad, ss),
        Shape::Memory => data::send_memory(r),
        Shape::Any => take_any(r, parts, v, ms, ss),
    }
}

// A slot of the value v on a record, its chip's parts of the buffers beginning at these places.
#[tactic(auto, unfolding(crate::specs::Takes::takes_in))]
pub fn takes(r: &mut [u8], parts: Parts, v: bool, ms: &mut [u8], ss: &mut [u8])
    ensures { taken r.new ms.new ss.new ≡ takes_in v parts.image parts.pad r.old ms.old ss.old }
{
    let number = base::byte_at(r, 15);
    let shape = shape_of(number);
    take_by(shape, r, parts, v, ms, ss)
}
