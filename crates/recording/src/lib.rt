// A hall's recording: what its records are, the chips that it starts with, and its events put on a line.
#![tactic(auto)]

mod cards;
mod joining;
mod playing;
mod reading;

ghost use Rattle.std.specs.Prelude.{◌≡◌};
ghost use Rattle.recording.specs.declared.Fault.TheVariants.{OnCard, OnLine};
ghost use Rattle.recording.specs.Reading.{number_of_fault};

pub use cards::read_cards;
use line::{Event, Refusal, Table};
pub use playing::play;
pub use reading::record_at;

// How many bytes the bits of the longest run ask, packed.
const RUN_BYTES: usize = 8192;

// Why a recording is refused.
#[derive(Clone, Copy)]
pub enum Fault {
    // refusal 1, 2 or 3, as of a card's record
    OnCard(card::Fault),
    // refusal 9
    CardAfterEvent,
    // refusal 10
    UnusedBits,
    // a refusal of the line, or 5 for a text of the wrong size
    OnLine(Refusal),
}

impl From<card::Fault> for Fault {
    ghost from_gives = { λ f e. e ≡ OnCard f };

    fn from(f: card::Fault) -> Fault {
        Fault::OnCard(f)
    }
}

impl From<Refusal> for Fault {
    ghost from_gives = { λ r e. e ≡ OnLine r };

    fn from(r: Refusal) -> Fault {
        Fault::OnLine(r)
    }
}

// A record that can be taken.
#[derive(Clone, Copy)]
pub enum Record {
    // a chip of the card
    Chip { code: u64, kind: u8 },
    // a run of slots, whose host bits stand in the bytes from one offset to another
    Slots { count: u16, from: usize, to: usize },
    // any other event
    Event(Event),
}

// What stands at an offset of a recording.
#[derive(Clone, Copy)]
pub enum Found {
    // nothing: the recording ends here
    End,
    // what may be the beginning of a record of which more may come
    Part,
    // a record, and the offset of the next
    Record(Record, usize),
}

// How reading or playing ends that meets no record that is refused, or that holds an event that is.
#[derive(Clone, Copy)]
pub enum Ending {
    // at the end of the recording
    End,
    // before a record of which more may come
    Part,
}

// How reading a card ends.
// Stays an enum of its own: an `Option` of the `Result` would not say that `None` is an event, and so be no plainer.
#[derive(Clone, Copy)]
pub enum CardsEnding {
    // before a record of one of kinds 16 to 19
    Events,
    Stopped(Result<Ending, Fault>),
}

// How reading a card ended, at what offset, and the chips so far.
#[derive(Clone, Copy)]
pub struct CardsRead {
    pub ending: CardsEnding,
    pub at: usize,
    pub table: Table,
}

// How playing ended, at what offset, how many answers were written, and the table that is left.
#[derive(Clone, Copy)]
pub struct Played {
    pub ending: Result<Ending, Fault>,
    pub at: usize,
    pub answers: usize,
    pub table: Table,
}

// The number of a refusal.
// Stays a function: the theorem `recording_number_of` of the crate `coincide` is of it.
pub fn number_of(f: Fault) -> u8
    ensures { result ≡ number_of_fault f }
{
    match f {
        Fault::OnCard(f) => u8::from(f),
        Fault::CardAfterEvent => 9,
        Fault::UnusedBits => 10,
        Fault::OnLine(r) => line::number_of(r),
    }
}
