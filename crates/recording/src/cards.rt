// The chips that a recording starts with.
ghost use Rattle.std.specs.Prelude.{◌≡◌};
ghost use Rattle.recording.specs.Cards.{room_for, stopped_by, table_by, cards_of};

use crate::{CardsEnding, CardsRead, Ending, Fault, Found, Record, reading};
use line::Table;

// The places of the line that a recording sets up.
pub const PLACES: usize = 16;

// How many chips may still come to so many.
pub fn room_for(n: usize) -> usize
    ensures { result ≡ room_for n }
{
    PLACES.saturating_sub(n)
}

// How reading or playing ends where no record can be taken.
pub fn stopped_by(found: Result<Found, Fault>) -> Result<Ending, Fault>
    ensures { result ≡ stopped_by found }
{
    match found? {
        Found::End => Ok(Ending::End),
        Found::Part | Found::Record(..) => Ok(Ending::Part),
    }
}

// The table where no record can be taken: none where one is refused.
fn table_by(found: Result<Found, Fault>, t: Table) -> Table
    ensures { result ≡ table_by found t }
{
    match found {
        Ok(_) => t,
        Err(_) => line::tables::blank(0),
    }
}

// The card at the beginning of what is there of a recording, where some chips came before and more of it may come or not.
pub fn read_cards(t: Table, s: &[u8], more: bool) -> CardsRead
    ensures { result ≡ cards_of more s.now t }
{
    let mut table = t;
    let mut at: usize = 0;
    // Stays a loop over offsets: each record says where the next one begins.
    loop {
        let events = CardsRead {
            ending: CardsEnding::Events,
            at,
            table,
        };
        if reading::starts_event(s, at) {
            return events;
        }
        let found = reading::record_at(s, at, room_for(table.n), false, more);
        let Ok(Found::Record(taken, next)) = found else {
            return CardsRead {
                ending: CardsEnding::Stopped(stopped_by(found)),
                at,
                table: table_by(found, table),
            };
        };
        let Record::Chip { code, kind } = taken else {
            return events;
        };
        table = line::tables::with_chip(table, chip::set_up(code, kind));
        at = next;
    }
}
