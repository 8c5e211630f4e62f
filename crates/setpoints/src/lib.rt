// Setpoint records, old and new: page 0 of a unit holds one, of kind 101 in whole degrees or of kind 102 in tenths. A reader of records of one
// kind and one of either, and a writer of records of one kind.
#![tactic(auto)]

mod kinds;
mod readers;
mod signed;
mod writers;

ghost use Rattle.std.specs.Prelude.{◌≡◌};
ghost use Rattle.setpoints.specs.Kinds.{number_of_fault};

pub use readers::{read, read_either};
pub use signed::{signed_byte, signed_pair};
pub use writers::write;

// The bytes of a page.
pub const PAGE_SIZE: usize = 32;

// A kind of setpoint record.
#[derive(Clone, Copy, Debug, PartialEq, Eq)]
pub enum Kind {
    // kind 101, whole degrees Celsius
    Degrees,
    // kind 102, tenths of a degree
    Tenths,
}

// Why a page or a value is refused, by the number of the refusal.
#[derive(Clone, Copy, Debug, PartialEq, Eq)]
pub enum Fault {
    AnotherKind = 13,
    // of the page or of its record
    WrongLength = 14,
    OutOfRange = 15,
}

// The number of a refusal.
// Stays a function: `setpoints_number_of` of coincide is its theorem.
pub fn number_of(fault: Fault) -> u8
    ensures { result ≡ number_of_fault fault }
{
    fault as u8
}
