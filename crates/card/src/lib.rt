// A card: a run of records that says which chips are attached, and set-up of a table from it.
#![tactic(auto)]

ghost use Rattle.std.specs.Prelude.{◌≡◌};
ghost use Rattle.chip.specs.Kinds.{known_kind};
ghost use Rattle.card.specs.Card.{fault_number, carded, cut_entry, whole_entry, entry_at, set_up, set_up_of};

use line::Table;
use records::Head;

// The length of a card's record: its kind and eight code bytes.
pub const ENTRY_LENGTH: u16 = 10;

// Why a card is refused.
#[derive(Clone, Copy)]
pub enum Fault {
    // refusal 1
    TooMany,
    // refusal 2
    UnknownKind,
    // refusal 3
    WrongLength,
}

// The number of a refusal.
impl From<Fault> for u8 {
    ghost from_gives = { λ f n. n ≡ fault_number f };

    fn from(f: Fault) -> u8 {
        match f {
            Fault::TooMany => 1,
            Fault::UnknownKind => 2,
            Fault::WrongLength => 3,
        }
    }
}

// A record that is refused: why, and the offset of its first byte.
#[derive(Clone, Copy)]
pub struct Refused {
    pub fault: Fault,
    pub at: usize,
}

// What set-up answers, the number of chips or a refusal, and the table that it leaves.
#[derive(Clone, Copy)]
pub struct Carded {
    pub answer: Result<usize, Refused>,
    pub table: Table,
}

// A record's chip, and the offset of the next record.
#[derive(Clone, Copy)]
pub struct Entry {
    pub code: u64,
    // Stays a number: it becomes a chip's kind, which is one too, since a table from C may hold any (refusal 8 of the line).
    pub kind: u8,
    pub next: usize,
}

// A kind that a card may name.
pub fn is_known(kind: u16) -> bool
    ensures { result ≡ known_kind kind }
{
    if kind < 256 {
        return chip::kinds::is_known(kind as u8);
    }
    false
}

// A record whose length runs past the end.
fn cut_entry(kind: u16) -> Result<Option<Entry>, Fault>
    ensures { result ≡ cut_entry kind }
{
    if is_known(kind) {
        return Err(Fault::WrongLength);
    }
    Err(Fault::UnknownKind)
}

// A whole record.
fn whole_entry(
    s: &[u8],
    room: usize,
    size: u16,
    kind: u16,
    body: usize,
    next: usize,
) -> Result<Option<Entry>, Fault>
    ensures { result ≡ whole_entry s.now room size kind body next }
{
    if !is_known(kind) {
        return Err(Fault::UnknownKind);
    }
    if size != ENTRY_LENGTH {
        return Err(Fault::WrongLength);
    }
    if room == 0 {
        return Err(Fault::TooMany);
    }
    Ok(Some(Entry {
        code: records::code_at(s, body),
        kind: kind as u8,
        next: next,
    }))
}

// The record at an offset, where room more chips may come; none where the card ends there.
pub fn entry_at(s: &[u8], at: usize, room: usize) -> Result<Option<Entry>, Fault>
    ensures { result ≡ entry_at s.now at room }
{
    match records::head_at(s, at) {
        Head::End => Ok(None),
        Head::Short => Err(Fault::WrongLength),
        Head::Cut { length: _, kind } => cut_entry(kind),
        Head::Whole {
            length,
            kind,
            body,
            next,
        } => whole_entry(s, room, length, kind, body, next),
    }
}

// Set-up of a table from a card, with so many places: the first places are filled with chips as after power on, the others
// stay; refusals 1, 2 and 3 leave the table unchanged.
pub fn set_up(s: &[u8], places: usize, t: Table) -> Carded
    ensures { set_up (carded result.answer) result.table.n result.table.chips ≡ set_up_of places s.now t.n t.chips }
{
    let most = line::used_places(places);
    let mut chips = t.chips;
    let mut n: usize = 0;
    let mut at: usize = 0;
    // Stays a loop over offsets: each record says where the next one begins.
    loop {
        match entry_at(s, at, most - n) {
            Ok(Some(entry)) => {
                chips[n] = chip::set_up(entry.code, entry.kind);
                n += 1;
                at = entry.next;
            }
            Ok(None) => {
                return Carded {
                    answer: Ok(n),
                    table: Table { n, chips },
                };
            }
            Err(fault) => {
                return Carded {
                    answer: Err(Refused { fault, at }),
                    table: t,
                };
            }
        }
    }
}
