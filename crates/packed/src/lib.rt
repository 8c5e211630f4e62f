// A chip's record as bytes, and a table as a run of them.
#![tactic(auto)]

mod counting;
mod data;
mod fields;
mod judged;
mod level;
mod record;
mod sending;
mod steps;
mod table;
mod taking;

pub use fields::{kind_of, waits};
pub use judged::stands;
pub use record::{is_packed, pack, put_record, unpack};
pub use sending::sends;
pub use table::{put_table, table_of};
pub use taking::takes;

// The bytes of a record.
pub const RECORD_SIZE: usize = 32;

// Where the parts of the buffers begin that are a chip's: its image and its scratchpad.
#[derive(Clone, Copy, PartialEq, Eq)]
pub struct Parts {
    pub image: usize,
    pub pad: usize,
}

// What a chip is in the middle of: the number of the step, and what it needs to go on.
// Stays a number: bytes that C lends may hold any, and `stands` tells those that name no step.
#[derive(Clone, Copy)]
pub struct Step {
    pub number: u8,
    pub w: u16,
    pub a: u8,
    pub b: u8,
    pub c: u8,
}

// The most that a step's fields hold.
#[derive(Clone, Copy)]
pub struct Limits {
    pub w: u16,
    pub a: u8,
    pub b: u8,
    pub c: u8,
}

// What a slot does to the bytes of a step.
// Stays an enum with a match: the definitions `shape_of` and `takes_by` of specs/Takes are of it.
#[derive(Clone, Copy)]
pub enum Shape {
    // nothing
    Still,
    // a is counted up to a last place
    Count { last: u8 },
    // a byte is taken: a counts its bits, which enter b
    Byte,
    // two bytes are taken: a counts their bits, which enter w
    Word,
    // a is counted while the bits are the code's
    Code,
    // a data byte is taken: b counts its bits, which enter c
    Data,
    // a byte of the scratchpad is sent: b counts its bits
    Pad,
    // a byte of the memory is sent: a counts its bits
    Memory,
    // anything else
    Any,
}
