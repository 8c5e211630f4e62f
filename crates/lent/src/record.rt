// One chip's record in place: copied whole to `chip`, and stored whole.
ghost use Rattle.std.specs.Prelude.{◌≡◌};
ghost use Rattle.chip.specs.Chip.{whole, takes_of, sends_of, reset_chip, power_on_chip, power_on_pad, outside_chip};

use chip::Chip;

// What a slot of the value v does to a chip, its memory and its scratchpad.
// Stays beside `chip`, here and below: the crate `coincide` has a theorem of each form.
pub fn takes(c: &mut Chip, v: bool, m: &mut [u8], s: &mut [u8])
    ensures { whole c.new m.new s.new ≡ takes_of v (whole c.old m.old s.old) }
{
    *c = chip::takes(*c, v, m, s);
}

// The bit that a chip sends in a slot.
pub fn sends(c: &Chip, m: &[u8], s: &[u8]) -> bool
    ensures { result ≡ sends_of (whole c.now m.now s.now) }
{
    chip::sends(*c, m, s)
}

// A reset.
pub fn reset(c: &mut Chip)
    ensures { c.new ≡ reset_chip c.old }
{
    *c = chip::reset(*c);
}

// Power on, with what it does to the scratchpad.
pub fn power_on(c: &mut Chip, s: &mut [u8])
    ensures { (c.new ≡ power_on_chip c.old) × (s.new ≡ power_on_pad c.old.kind s.old) }
{
    *c = chip::power_on(*c, s);
}

// New outside levels.
pub fn set_outside(c: &mut Chip, outside: u8)
    ensures { c.new ≡ outside_chip outside c.old }
{
    *c = chip::set_outside(*c, outside);
}
