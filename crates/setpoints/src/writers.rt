// A setpoint record written to a page.
ghost use Rattle.std.specs.Prelude.{◌≡◌};
ghost use Rattle.setpoints.specs.Kinds.{form_of};
ghost use Rattle.setpoints.specs.Pages.{wrote, write_page};
ghost use Rattle.setpoints.specs.Puts.{put_bytes, put_record};

use crate::{Fault, Kind, PAGE_SIZE, kinds};

// A number put as two bytes, low byte first.
fn put_pair(page: &mut [u8], at: u8, n: u16)
    ensures { page.new ≡ put_bytes 2 at n page.old }
{
    let [low, high] = n.to_le_bytes();
    base::put_at(page, usize::from(at), low);
    base::put_at(page, usize::from(at) + 1, high);
}

// The record with a value, put at the start of a page.
#[tactic(auto, using(crate::specs::Puts::put_degrees, crate::specs::Puts::put_tenths))]
fn put_record(page: &mut [u8], kind: Kind, n: u16)
    ensures { page.new ≡ put_record (form_of kind) n page.old }
{
    put_pair(page, 0, kinds::length(kind));
    put_pair(page, 2, kinds::number(kind));
    match kind {
        Kind::Degrees => base::put_at(page, 4, (n % 256) as u8),
        Kind::Tenths => put_pair(page, 4, n),
    }
}

// The page with a record of that kind, where the value is allowed: whole degrees or tenths.
#[tactic(auto, using(crate::specs::Judging::allowed_word, crate::specs::Puts::writings))]
pub fn write(kind: Kind, page: &mut [u8], value: i64) -> Result<(), Fault>
    ensures { wrote result page.new ≡ write_page (form_of kind) value page.old }
{
    if page.len() != PAGE_SIZE {
        return Err(Fault::WrongLength);
    }
    if !kinds::is_allowed(kind, value) {
        return Err(Fault::OutOfRange);
    }
    put_record(page, kind, value as u16);
    Ok(())
}
