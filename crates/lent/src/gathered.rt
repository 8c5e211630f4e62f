// Set-up and search of a lent slice: its chips are gathered in a table by value, and put back into their places.
ghost use Rattle.std.specs.Prelude.{◌≡◌, length};
ghost use Rattle.card.specs.Card.{carded, set_up_of};
ghost use Rattle.line.specs.Attached.{attached};
ghost use Rattle.search.specs.Search.{searched, outcome, search_of};
ghost use Rattle.lent.specs.Gathered.{gathered, puts, Tells};

use crate::Told;
use card::Refused;
use chip::Chip;
use line::Table;
use search::Found;

// What is told of a search beside the table.
pub fn told_of(f: Found) -> Told
    ensures { Tells result f }
{
    let answer = f.answer;
    let resets = f.resets;
    let slots = f.slots;
    Told {
        answer: answer,
        listed: f.listed,
        resets: resets,
        slots: slots,
    }
}

// The table that a search leaves.
pub fn table_left(f: Found) -> Table
    ensures { result ≡ f.table }
{
    f.table
}

// The chips of a slice in a table; of over 16, one that every call refuses.
fn gather(table: &[Chip]) -> Table
    ensures { result ≡ gathered table.now }
{
    let mut t = line::tables::blank(0);
    for i in 0..table.len() {
        t = line::tables::with_chip(t, table[i]);
    }
    t
}

// The chips of a table in the first places of a slice; the others stay.
fn put_back(table: &mut [Chip], t: Table)
    ensures { table.new ≡ puts t (length table.old) 0 table.old }
{
    for i in 0..table.len() {
        let c = line::tables::chip_for(t, i, table[i]);
        table[i] = c;
    }
}

// Set-up of a lent table from a card, which answers the number of chips: the first places are filled with chips as after
// power on, the others stay; refusals 1, 2 and 3 leave the table unchanged.
pub fn set_up(s: &[u8], table: &mut [Chip]) -> Result<usize, Refused>
    ensures { (carded result ≡ (set_up_of (length table.old) s.now 0 table.old).answer)
        × (table.new ≡ (set_up_of (length table.old) s.now 0 table.old).table) }
{
    let none = line::tables::blank(0);
    let up = card::set_up(s, table.len(), none);
    put_back(table, up.table);
    up.answer
}

// The search on a lent table: refusals 8 and 5 without an event, then 4.
pub fn search_line(table: &mut [Chip], list: &mut [u64], ms: &mut [u8], ss: &mut [u8]) -> Told
    ensures { outcome (searched result.answer) result.listed list.new result.resets.0 result.slots.0 (attached (length table.new) table.new ms.new ss.new)
        ≡ search_of list.old (attached (length table.old) table.old ms.old ss.old) }
{
    let t = gather(table);
    let f = search::search_line(t, list, ms, ss);
    let left = table_left(f);
    put_back(table, left);
    told_of(f)
}
