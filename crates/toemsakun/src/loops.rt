// The loops over the records of a table, each in its place.
ghost use Rattle.std.specs.Prelude.{◌≡◌, ◌*◌, ◌≤◌, length, get_or};
ghost use Rattle.line.specs.Layout.{lent};
ghost use Rattle.line.specs.Carrier.{first_spot, bus_over, acts};
ghost use Rattle.chip.specs.With.{no_chip};
ghost use Rattle.packed.specs.Packed.{record_size, unpacked_from, unpacked_table};
ghost use Rattle.packed.specs.Places.{Table16};
ghost use Rattle.toemsakun.specs.Surveys.{survey_in};

use line::{Plan, Spot, Survey};
use packed::RECORD_SIZE;

// The kind of the chip that an event names, of the first n records; 0 where it is absent.
fn kind_named(table: &[u8], n: usize, chip: u32) -> u8
    requires { (n ≤ 16) × (n * record_size ≤ length table.now) }
    ensures { result ≡ (get_or (unpacked_from n table.now) chip no_chip).kind }
{
    let named = chip as usize;
    if named < n {
        let at = named * RECORD_SIZE;
        let end = at + RECORD_SIZE;
        return packed::kind_of(&table[at..end]);
    }
    0
}

// A survey of the chips of the records, where they are a table of at most 16 chips whose fields lie in their ranges.
pub fn judge(table: &[u8], chip: u32) -> Option<Survey>
    ensures { result ≡ survey_in chip table.now }
{
    let n = table.len() / RECORD_SIZE;
    if n > 16 {
        return None;
    }
    let mut ok = true;
    let mut image: usize = 0;
    let mut pad: usize = 0;
    for i in 0..n {
        let at = i * RECORD_SIZE;
        let end = at + RECORD_SIZE;
        let good = packed::stands(&table[at..end]);
        ok = base::are_both(ok, good);
        let kind = packed::kind_of(&table[at..end]);
        image += chip::kinds::image_size(kind);
        pad += chip::kinds::pad_size(kind);
    }
    let whole = base::are_both(ok, table.len() == n * RECORD_SIZE);
    if !whole {
        return None;
    }
    let named = kind_named(table, n, chip);
    let spot = Spot {
        place: n,
        image: image,
        pad: pad,
    };
    Some(Survey {
        within: true,
        kind: named,
        spot: spot,
    })
}

// The AND of what the host and every chip of the table put on the bus.
pub fn line_value(table: &[u8], plan: Plan, ms: &[u8], ss: &[u8]) -> bool
    requires { Table16 table.now }
    ensures { result ≡ (bus_over plan (length (unpacked_table table.now)) (unpacked_table table.now) ms.now ss.now).value }
{
    let n = table.len() / RECORD_SIZE;
    let mut value = line::carrier::host_bit(Ok(plan));
    let mut spot = line::carrier::first_spot();
    for i in 0..n {
        let at = i * RECORD_SIZE;
        let end = at + RECORD_SIZE;
        let c = packed::unpack(&table[at..end]);
        let bit = line::carrier::puts_at(c, spot, Ok(plan), ms, ss);
        value = base::are_both(bit, value);
        spot = line::carrier::spot_after(spot, c.kind);
    }
    value
}

// Every chip of the table has its turn.
pub fn all_turn(table: &mut [u8], plan: Plan, value: bool, ms: &mut [u8], ss: &mut [u8])
    requires { Table16 table.old }
    ensures table16 { Table16 table.new }
    ensures ss_after { lent (unpacked_table table.new) ms.new ss.new
        ≡ acts plan value (length (unpacked_table table.old)) 0 first_spot (unpacked_table table.old) ms.old ss.old }
{
    let n = table.len() / RECORD_SIZE;
    let mut spot = line::carrier::first_spot();
    for i in 0..n {
        let at = i * RECORD_SIZE;
        let end = at + RECORD_SIZE;
        let c = packed::unpack(&table[at..end]);
        let r = line::carrier::turn(c, spot, Ok(plan), value, ms, ss);
        packed::put_record(&mut table[at..end], r.chip);
        spot = r.spot;
    }
}
