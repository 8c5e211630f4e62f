// What a page's setpoint record says.
ghost use Rattle.std.specs.Prelude.{[], ◌∷◌, ◌≡◌};
ghost use Rattle.setpoints.specs.Kinds.{form_of};
ghost use Rattle.setpoints.specs.Pages.{value_in, judged, read_page, read_either};

use crate::signed::{signed_byte, signed_pair};
use crate::{Fault, Kind, PAGE_SIZE, kinds};

// The value in a record of that kind.
fn value_in(kind: Kind, page: &[u8]) -> i64
    ensures { result ≡ value_in (form_of kind) page.now }
{
    match kind {
        Kind::Degrees => signed_byte(base::byte_at(page, 4)),
        Kind::Tenths => signed_pair(records::pair_at(page, 4)),
    }
}

// The setpoint in tenths that a value stands for.
#[tactic(auto, using(crate::specs::Judging::judgements))]
fn judge(kind: Kind, value: i64) -> Result<i64, Fault>
    ensures { result ≡ judged (form_of kind) value }
{
    if !kinds::is_allowed(kind, value) {
        return Err(Fault::OutOfRange);
    }
    match kind {
        Kind::Degrees => Ok(value * 10),
        Kind::Tenths => Ok(value),
    }
}

// The setpoint in tenths of a page whose record is of that kind.
#[tactic(auto, using(crate::specs::Readers::refusals))]
pub fn read(kind: Kind, page: &[u8]) -> Result<i64, Fault>
    ensures { result ≡ read_page (form_of kind ∷ []) page.now }
{
    if page.len() != PAGE_SIZE {
        return Err(Fault::WrongLength);
    }
    if records::pair_at(page, 2) != kinds::number(kind) {
        return Err(Fault::AnotherKind);
    }
    if records::pair_at(page, 0) != kinds::length(kind) {
        return Err(Fault::WrongLength);
    }
    judge(kind, value_in(kind, page))
}

// The setpoint in tenths of a page whose record is of either kind.
#[tactic(auto, using(crate::specs::Readers::own_101, crate::specs::Readers::other_than_101))]
pub fn read_either(page: &[u8]) -> Result<i64, Fault>
    ensures { result ≡ read_either page.now }
{
    if records::pair_at(page, 2) == kinds::number(Kind::Degrees) {
        read(Kind::Degrees, page)
    } else {
        read(Kind::Tenths, page)
    }
}
