// One slot on the chips of a range, each record in its place.
ghost use Rattle.std.specs.Prelude.{◌≡◌, ◌+◌, ◌≤◌, map};
ghost use Rattle.chip.specs.Kinds.{image_size, pad_size};
ghost use Rattle.line.specs.Layout.{images_most, pads_most};
ghost use Rattle.line.specs.Line.{value_of, act_of, after_by};
ghost use Rattle.line.specs.declared.Act.TheVariants as act;
ghost use Rattle.line.specs.declared.Plan.TheVariants as plan;
ghost use Rattle.packed.specs.Places.{Table16};
ghost use Rattle.toemsakun.specs.Slots.{Lined, line_in, Outside};

use packed::{Parts, RECORD_SIZE};

// The chips of a table from first on and before past, and where the parts of the chip at first begin.
// Stays a clause at each function, also in `runs` and `event`: `Lined` is of three slices that C lends apart.
#[derive(Clone, Copy)]
pub struct Range {
    pub first: usize,
    pub parts: Parts,
    pub past: usize,
}

// Where the parts of the chip after one of a kind begin.
fn after(parts: Parts, kind: u8) -> Parts
    requires { (parts.image ≤ images_most) × (parts.pad ≤ pads_most) }
    ensures image { result.image ≡ parts.image + image_size kind }
    ensures pad { result.pad ≡ parts.pad + pad_size kind }
{
    Parts {
        image: parts.image + chip::kinds::image_size(kind),
        pad: parts.pad + chip::kinds::pad_size(kind),
    }
}

// All chips of a table.
pub fn whole(table: &[u8]) -> Range
    requires { Table16 table.now }
    ensures { Outside result table.now }
{
    let past = table.len() / RECORD_SIZE;
    Range {
        first: 0,
        parts: Parts { image: 0, pad: 0 },
        past: past,
    }
}

// The AND of the host's bit and what every chip sends.
fn all_send(table: &[u8], g: Range, host: bool, ms: &[u8], ss: &[u8]) -> bool
    requires { Lined table.now ms.now ss.now × Outside g table.now }
    ensures { result ≡ value_of host (line_in table.now ms.now ss.now) }
{
    let mut value = host;
    let mut parts = g.parts;
    for i in g.first..g.past {
        let at = i * RECORD_SIZE;
        let end = at + RECORD_SIZE;
        let bit = packed::sends(&table[at..end], parts, ms, ss);
        value = base::are_both(bit, value);
        let kind = packed::kind_of(&table[at..end]);
        parts = after(parts, kind);
    }
    value
}

// Every chip takes a slot of the value v.
fn all_take(table: &mut [u8], g: Range, v: bool, ms: &mut [u8], ss: &mut [u8])
    requires { Lined table.old ms.old ss.old × Outside g table.old }
    ensures ss_after { line_in table.new ms.new ss.new ≡ map (act_of (act.Take v)) (line_in table.old ms.old ss.old) }
    ensures lined { Lined table.new ms.new ss.new × Outside g table.new }
{
    let mut parts = g.parts;
    for i in g.first..g.past {
        let at = i * RECORD_SIZE;
        let end = at + RECORD_SIZE;
        packed::takes(&mut table[at..end], parts, v, ms, ss);
        let kind = packed::kind_of(&table[at..end]);
        parts = after(parts, kind);
    }
}

// One slot in which the host puts a bit: its value on the bus.
pub fn slot(table: &mut [u8], g: Range, host: bool, ms: &mut [u8], ss: &mut [u8]) -> bool
    requires { Lined table.old ms.old ss.old × Outside g table.old }
    ensures value { result ≡ value_of host (line_in table.old ms.old ss.old) }
    ensures ss_after { line_in table.new ms.new ss.new ≡ after_by (plan.Slot host) (line_in table.old ms.old ss.old) }
    ensures lined { Lined table.new ms.new ss.new × Outside g table.new }
{
    let value = all_send(table, g, host, ms, ss);
    all_take(table, g, value, ms, ss);
    value
}

// The range without the chips at its front that wait.
// Stays a `while`: no plainer as a `for`, since an end of the range moves and no index is counted. So in `back`.
pub fn front(table: &[u8], g: Range) -> Range
    requires { Table16 table.now × Outside g table.now }
    ensures { Outside result table.now }
{
    let mut r = g;
    while r.first < r.past {
        let at = r.first * RECORD_SIZE;
        let end = at + RECORD_SIZE;
        if !packed::waits(&table[at..end]) {
            return r;
        }
        let kind = packed::kind_of(&table[at..end]);
        r.parts = after(r.parts, kind);
        r.first += 1;
    }
    r
}

// The range without the chips at its back that wait.
pub fn back(table: &[u8], g: Range) -> Range
    requires { Table16 table.now × Outside g table.now }
    ensures { Outside result table.now }
{
    let mut r = g;
    while r.first < r.past {
        let last = r.past - 1;
        let at = last * RECORD_SIZE;
        let end = at + RECORD_SIZE;
        if !packed::waits(&table[at..end]) {
            return r;
        }
        r.past = last;
    }
    r
}
