// The morning round: the host searches the line and then reads page 0 of each code that a DS28EC20 bears, by Match ROM and Read Memory. It
// reports the resets and the slots that it put on the line.
#![tactic(auto)]

mod borne;
mod host;

ghost use Rattle.std.specs.Prelude.{◌≡◌, length, Ok};
ghost use Rattle.line.specs.Attached.{attached};
ghost use Rattle.line.specs.Event.{verdict_of};
ghost use Rattle.search.specs.Host.{play};
ghost use Rattle.search.specs.Search.{searched, wire, outcome};
ghost use Rattle.rounds.specs.Host.{round_host};
ghost use Rattle.rounds.specs.Round.{round, borne_on, round_verdict, from_round, round_of};

pub use borne::pages_asked;
use line::{Refusal, Table};
use search::{Fault, Found, Resets, Slots};

// The bytes of a page.
pub const PAGE_SIZE: usize = 32;

// The slots of a page: 72 to match, 24 to ask, 256 to read.
pub const PAGE_SLOTS: u64 = 352;

// The most bytes of pages that a table asks for.
pub const PAGES_MOST: usize = 512;

// How a table, its buffers and a page buffer stand: refusal 8, then 5.
fn how_stands(t: Table, pages: &[u8], ms: &[u8], ss: &[u8]) -> Result<(), Refusal>
    ensures { result ≡ round_verdict pages.now (attached t.n t.chips ms.now ss.now) }
{
    line::how_stands(t, ms, ss)?;
    if pages.len() == borne::pages_asked(t) {
        Ok(())
    } else {
        Err(Refusal::WrongSize)
    }
}

// The round on a table that stands well.
fn go_round(t: Table, list: &mut [u64], pages: &mut [u8], ms: &mut [u8], ss: &mut [u8]) -> Found
    requires { Ok tt ≡ verdict_of t.n t.chips ms.old ss.old }
    ensures { round (outcome (searched result.answer) result.listed list.new result.resets.0 result.slots.0 (attached result.table.n result.table.chips ms.new ss.new)) pages.new
        ≡ from_round list.old pages.old (play wire (round_host (length list.old) (borne_on (attached t.n t.chips ms.old ss.old))) (attached t.n t.chips ms.old ss.old)) }
{
    let found = search::search_line(t, list, ms, ss);
    match found.answer {
        Ok(()) => {
            let mut table = found.table;
            let read = host::read_pages(
                &t.chips[..t.n],
                &mut table,
                &list[..found.listed],
                pages,
                ms,
                ss,
            );
            Found {
                resets: Resets(found.resets.0 + read),
                slots: Slots(found.slots.0 + PAGE_SLOTS * read),
                table,
                ..found
            }
        }
        Err(_) => found,
    }
}

// The round over a table, its buffers, a lent list and a lent page buffer: refusals 8 and 5 without an event, then 4, under which no page is
// read.
pub fn make_round(
    t: Table,
    list: &mut [u64],
    pages: &mut [u8],
    ms: &mut [u8],
    ss: &mut [u8],
) -> Found
    ensures { round (outcome (searched result.answer) result.listed list.new result.resets.0 result.slots.0 (attached result.table.n result.table.chips ms.new ss.new)) pages.new
        ≡ round_of list.old pages.old (attached t.n t.chips ms.old ss.old) }
{
    match how_stands(t, pages, ms, ss) {
        Ok(()) => go_round(t, list, pages, ms, ss),
        Err(r) => Found {
            answer: Err(Fault::from(r)),
            listed: 0,
            resets: Resets(0),
            slots: Slots(0),
            table: t,
        },
    }
}
