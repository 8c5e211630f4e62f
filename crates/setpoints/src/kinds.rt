// What each kind of setpoint record says of its records.
ghost use Rattle.std.specs.Prelude.{◌≡◌};
ghost use Rattle.setpoints.specs.Kinds.{form_of, allowed};
ghost use Rattle.setpoints.specs.Pages.{length_of};

use crate::Kind;

// The number of a kind.
// Stays beside `length`: two tables of a kind, which a common function would only hand through.
pub fn number(kind: Kind) -> u16
    ensures { result ≡ (form_of kind).kind }
{
    match kind {
        Kind::Degrees => 101,
        Kind::Tenths => 102,
    }
}

// The length of its records.
pub fn length(kind: Kind) -> u16
    ensures { result ≡ length_of (form_of kind) }
{
    match kind {
        Kind::Degrees => 3,
        Kind::Tenths => 4,
    }
}

// A value is allowed.
pub fn is_allowed(kind: Kind, value: i64) -> bool
    ensures { result ≡ allowed (form_of kind) value }
{
    match kind {
        Kind::Degrees => (10..=35).contains(&value),
        Kind::Tenths => (180..=270).contains(&value),
    }
}
