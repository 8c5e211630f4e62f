// Intel HEX, as the workshop's chip programmer speaks it: a memory image of a DS28EC20 written as a text, in one form, and read back from a text in any form that such
// files have.
#![tactic(auto)]

mod digits;
mod lines;
mod readers;
mod record;
mod storing;
mod words;
mod writers;

ghost use Rattle.std.specs.Prelude.{◌≡◌};
ghost use Rattle.intelhex.specs.Faults.{number_of_fault};

pub use readers::{blank_image, read_lines, read_text};
pub use writers::write_text;

// The bytes of an image.
pub const IMAGE_SIZE: usize = 2624;

// The characters of an image as text.
pub const TEXT_SIZE: usize = 7228;

// LF, which ends a line.
const LINE_FEED: u8 = 0x0A;

// Why an image or a text is refused.
#[derive(Clone, Copy, Debug, PartialEq, Eq)]
pub enum Fault {
    // refusal 5: an image or a text buffer of another size
    WrongSize,
    // refusal 16: a line of more characters than any in form has
    TooLong,
    // refusal 16: no LF at the end of the last line
    NoLineEnd,
    // refusal 16: a line that does not begin with a colon
    NoColon,
    // refusal 16: a character that is no hex digit
    NoDigit,
    // refusal 16: an odd number of digits
    OddDigits,
    // refusal 16: fewer than five bytes
    FewBytes,
    // refusal 16: a count that is not that of the data bytes
    WrongCount,
    // refusal 16: an end record whose count or address is not 0
    EndNotZero,
    // refusal 17: a sum that is not 0
    CheckByte,
    // refusal 18: a type other than 00 and 01
    UnknownType,
    // refusal 19: a data byte above the last address
    AboveImage,
    // refusal 20: no end record
    NoEndRecord,
    // refusal 20: something after the end record
    AfterEnd,
}

// Why a whole text is refused, and how many lines stand before the one at fault.
#[derive(Clone, Copy, Debug, PartialEq, Eq)]
pub struct Refused {
    pub fault: Fault,
    pub lines: usize,
}

// How reading what is there of a text ends well.
#[derive(Clone, Copy, Debug, PartialEq, Eq)]
pub enum Ending {
    // at the end of the text, after its end record
    End,
    // where more of the text may come
    Part,
}

// How reading what is there ended, or why before the next line, at what offset and after how many lines, and whether the end record was among what was read so far.
#[derive(Clone, Copy, Debug, PartialEq, Eq)]
pub struct Taken {
    pub ending: Result<Ending, Fault>,
    pub at: usize,
    pub lines: usize,
    pub over: bool,
}

// The number of a refusal.
// Stays in place of a `From<Fault> for u8`: the theorem `intelhex_number_of` of `coincide` speaks of this function.
pub fn number_of(f: Fault) -> u8
    ensures { result ≡ number_of_fault f }
{
    match f {
        Fault::WrongSize => 5,
        Fault::TooLong
        | Fault::NoLineEnd
        | Fault::NoColon
        | Fault::NoDigit
        | Fault::OddDigits
        | Fault::FewBytes
        | Fault::WrongCount
        | Fault::EndNotZero => 16,
        Fault::CheckByte => 17,
        Fault::UnknownType => 18,
        Fault::AboveImage => 19,
        Fault::NoEndRecord | Fault::AfterEnd => 20,
    }
}
