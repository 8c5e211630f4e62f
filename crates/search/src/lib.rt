// The host's search: it lists the codes of the line in branch order, by the answers to its events alone.
#![tactic(auto)]

mod host;

ghost use Rattle.std.specs.Prelude.{◌≡◌, ◌≤◌, ◌<◌, length, []};
ghost use Rattle.search.specs.Host.{play, passes, search_host};
ghost use Rattle.line.specs.Attached.{attached};
ghost use Rattle.search.specs.Search.{searched, number_in, wire, outcome, from_played, search_of};

pub use host::{reset, slot, write_byte};
use line::{Refusal, Table};

// Resets put on the line. Never added to slots: the two differ in time.
#[derive(Clone, Copy, PartialEq, Eq)]
pub struct Resets(pub u64);

// Slots put on the line.
#[derive(Clone, Copy, PartialEq, Eq)]
pub struct Slots(pub u64);

// Why a search is refused.
#[derive(Clone, Copy, PartialEq, Eq)]
pub enum Fault {
    // refusal 4
    TooFewPlaces,
    // refusals 8 and 5
    Refused(Refusal),
}

impl From<Refusal> for Fault {
    ghost use Rattle.search.specs.declared.Fault.TheVariants as fault;

    ghost from_gives = { λ r f. f ≡ fault.Refused r };

    fn from(r: Refusal) -> Fault {
        Fault::Refused(r)
    }
}

// What a search answers, that the list is complete or why it is refused; how many codes it listed, what it put on the line, and the table
// that it leaves. Under refusal 4 the list is full.
// Stays with `listed` beside the lent list: C has both (`tk_search`), and the list keeps its length.
#[derive(Clone, Copy)]
pub struct Found {
    pub answer: Result<(), Fault>,
    pub listed: usize,
    pub resets: Resets,
    pub slots: Slots,
    pub table: Table,
}

// A search with no place: one reset shows whether a chip is there.
fn seek_nowhere(t: Table, list: &[u64], ms: &mut [u8], ss: &mut [u8]) -> Found
    ensures { outcome (searched result.answer) result.listed list.now result.resets.0 result.slots.0 (attached result.table.n result.table.chips ms.new ss.new)
        ≡ from_played list.now (play wire (passes 0 0 []) (attached t.n t.chips ms.old ss.old)) }
{
    let mut table = t;
    let absent = host::reset(&mut table, ms, ss);
    Found {
        answer: if absent {
            Ok(())
        } else {
            Err(Fault::TooFewPlaces)
        },
        listed: 0,
        resets: Resets(1),
        slots: Slots(0),
        table,
    }
}

// Passes until no code is left or no place is.
fn seek(t: Table, list: &mut [u64], places: usize, ms: &mut [u8], ss: &mut [u8]) -> Found
    requires { (0 < places) × (places ≤ 16) × (places ≤ length list.old) }
    ensures { outcome (searched result.answer) result.listed list.new result.resets.0 result.slots.0 (attached result.table.n result.table.chips ms.new ss.new)
        ≡ from_played list.old (play wire (passes places 0 []) (attached t.n t.chips ms.old ss.old)) }
{
    let mut table = t;
    let mut want: u64 = 0;
    let mut slots: u64 = 0;
    for n in 0..places {
        let resets = Resets(n as u64 + 1);
        if host::reset(&mut table, ms, ss) {
            return Found {
                answer: Ok(()),
                listed: n,
                resets,
                slots: Slots(slots),
                table,
            };
        }
        host::write_byte(&mut table, 0xF0, ms, ss);
        let pass = host::one_pass(&mut table, want, ms, ss);
        slots += 8 + pass.slots.0;
        let Some(branch) = pass.branch else {
            return Found {
                answer: Ok(()),
                listed: n,
                resets,
                slots: Slots(slots),
                table,
            };
        };
        list[n] = branch.code;
        let Some(parting) = branch.parting else {
            return Found {
                answer: Ok(()),
                listed: n + 1,
                resets,
                slots: Slots(slots),
                table,
            };
        };
        want = host::wants(parting, branch.code);
    }
    Found {
        answer: Err(Fault::TooFewPlaces),
        listed: places,
        resets: Resets(places as u64),
        slots: Slots(slots),
        table,
    }
}

// The search on a table that stands well, with as many places as the list has; more than 16 are never used.
fn find(t: Table, list: &mut [u64], ms: &mut [u8], ss: &mut [u8]) -> Found
    ensures { outcome (searched result.answer) result.listed list.new result.resets.0 result.slots.0 (attached result.table.n result.table.chips ms.new ss.new)
        ≡ from_played list.old (play wire (search_host (length list.old)) (attached t.n t.chips ms.old ss.old)) }
{
    let places = line::used_places(list.len());
    if places == 0 {
        seek_nowhere(t, list, ms, ss)
    } else {
        seek(t, list, places, ms, ss)
    }
}

// The number of what a search answers: 0 where the list is complete, else that of the refusal.
// Stays a function, with 0 for a complete list: the theorem `search_number_of` of the crate `coincide` is of it.
pub fn number_of(answer: Result<(), Fault>) -> u8
    ensures { result ≡ number_in (searched answer) }
{
    match answer {
        Ok(()) => 0,
        Err(Fault::TooFewPlaces) => 4,
        Err(Fault::Refused(r)) => line::number_of(r),
    }
}

// The search over a table, its buffers and a lent list: refusals 8 and 5 without an event, then 4.
// Stays with images and scratchpads side by side, as in `line`.
pub fn search_line(t: Table, list: &mut [u64], ms: &mut [u8], ss: &mut [u8]) -> Found
    ensures { outcome (searched result.answer) result.listed list.new result.resets.0 result.slots.0 (attached result.table.n result.table.chips ms.new ss.new)
        ≡ search_of list.old (attached t.n t.chips ms.old ss.old) }
{
    match line::how_stands(t, ms, ss) {
        Ok(()) => find(t, list, ms, ss),
        Err(r) => Found {
            answer: Err(Fault::from(r)),
            listed: 0,
            resets: Resets(0),
            slots: Slots(0),
            table: t,
        },
    }
}
