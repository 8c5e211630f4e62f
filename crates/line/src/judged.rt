// The sizes of the buffers to lend with a table.
ghost use Rattle.std.specs.Prelude.{◌≡◌, ◌≤◌};
ghost use Rattle.line.specs.Layout.{images_asked, images_most, pads_asked, pads_most};

use crate::{Spot, Table, carrier, chips};

// Past the last chip of a table, where it has over 16 chips past none.
fn past_last(t: Table) -> Spot
    ensures images { (result.image ≡ images_asked t.n t.chips) × (result.image ≤ images_most) }
    ensures pads { (result.pad ≡ pads_asked t.n t.chips) × (result.pad ≤ pads_most) }
{
    if t.n > 16 {
        return carrier::first_spot();
    }
    chips::survey(&t, 0).spot
}

// The bytes of images that a table asks for, 0 where it has over 16 chips.
pub fn images_asked(t: Table) -> usize
    ensures value { result ≡ images_asked t.n t.chips }
    ensures most { result ≤ images_most }
{
    past_last(t).image
}

// The bytes of scratchpads that a table asks for, 0 where it has over 16 chips.
pub fn pads_asked(t: Table) -> usize
    ensures value { result ≡ pads_asked t.n t.chips }
    ensures most { result ≤ pads_most }
{
    past_last(t).pad
}
