// One chip with its parts of the buffers.
ghost use Rattle.std.specs.Prelude.{◌≡◌, ◌+◌, ◌≤◌, leb, length};
ghost use Rattle.chip.specs.Chip.{whole, sends_of};
ghost use Rattle.chip.specs.Kinds.{image_size, pad_size};
ghost use Rattle.line.specs.Line.{act_of};
ghost use Rattle.line.specs.Bridge.{whole_at, act_within, act_at, bit_at};

use crate::Act;
use chip::Chip;

// What one chip does.
pub fn act_on(c: Chip, act: Act, m: &mut [u8], s: &mut [u8]) -> Chip
    ensures { whole result m.new s.new ≡ act_of act (whole c m.old s.old) }
{
    match act {
        Act::Take(v) => chip::takes(c, v, m, s),
        Act::Reset => chip::reset(c),
        Act::PowerOn => chip::power_on(c, s),
    }
}

// One chip with its parts of the buffers, which lie inside them.
pub fn act_within(
    c: Chip,
    act: Act,
    image: usize,
    pad: usize,
    size: usize,
    room: usize,
    ms: &mut [u8],
    ss: &mut [u8],
) -> Chip
    requires { (image + size ≤ length ms.old) × (pad + room ≤ length ss.old) × (size ≡ image_size c.kind) × (room ≡ pad_size c.kind) }
    ensures { whole result ms.new ss.new ≡ act_within (act_of act) c image pad ms.old ss.old }
{
    let end = image + size;
    let stop = pad + room;
    act_on(c, act, &mut ms[image..end], &mut ss[pad..stop])
}

// A part that begins at an offset and has a size lies in so many bytes.
pub fn lies_in(at: usize, size: usize, bytes: usize) -> bool
    ensures { result ≡ leb (at + size) bytes }
{
    if at <= bytes {
        if size <= bytes - at {
            return true;
        }
        return false;
    }
    false
}

// One chip with its parts of the buffers, which begin at image and pad; a chip whose parts lie outside is left alone.
pub fn act_at(c: Chip, act: Act, image: usize, pad: usize, ms: &mut [u8], ss: &mut [u8]) -> Chip
    ensures { whole result ms.new ss.new ≡ act_at (act_of act) c image pad ms.old ss.old }
{
    let size = chip::kinds::image_size(c.kind);
    let room = chip::kinds::pad_size(c.kind);
    if lies_in(image, size, ms.len()) {
        if lies_in(pad, room, ss.len()) {
            return act_within(c, act, image, pad, size, room, ms, ss);
        }
        return c;
    }
    c
}

// The bit of one chip with its parts of the buffers, which lie inside them.
pub fn bit_within(
    c: Chip,
    image: usize,
    pad: usize,
    size: usize,
    room: usize,
    ms: &[u8],
    ss: &[u8],
) -> bool
    requires { (image + size ≤ length ms.now) × (pad + room ≤ length ss.now) × (size ≡ image_size c.kind) × (room ≡ pad_size c.kind) }
    ensures { result ≡ sends_of (whole_at c image pad ms.now ss.now) }
{
    let end = image + size;
    let stop = pad + room;
    chip::sends(c, &ms[image..end], &ss[pad..stop])
}

// The bit of one chip with its parts of the buffers, which begin at image and pad; a chip whose parts lie outside sends 1.
pub fn bit_at(c: Chip, image: usize, pad: usize, ms: &[u8], ss: &[u8]) -> bool
    ensures { result ≡ bit_at c image pad ms.now ss.now }
{
    let size = chip::kinds::image_size(c.kind);
    let room = chip::kinds::pad_size(c.kind);
    if lies_in(image, size, ms.len()) {
        if lies_in(pad, room, ss.len()) {
            return bit_within(c, image, pad, size, room, ms, ss);
        }
        return true;
    }
    true
}
