// What is wrong with a line, or with an image, in words.
ghost use Rattle.std.specs.Prelude.{Some};
ghost use Rattle.intelhex.specs.Words.{words_of};

use crate::{Fault, IMAGE_SIZE};
use std::error::Error;
use std::fmt;

impl fmt::Display for Fault {
    ghost output = { λ f. Some (words_of f) };

    fn fmt<W: fmt::Write>(&self, f: &mut fmt::Formatter<W>) -> fmt::Result {
        let words = match self {
            Fault::WrongSize => return write!(f, "an image has {IMAGE_SIZE} bytes"),
            Fault::TooLong => {
                "no line end in its first 523 characters, which is the most that a line has"
            }
            Fault::NoLineEnd => "the file ends without a line end",
            Fault::NoColon => "no colon at its beginning",
            Fault::NoDigit => "a character that is no hex digit",
            Fault::OddDigits => "an odd number of hex digits",
            Fault::FewBytes => "fewer than the five bytes that every record has",
            Fault::WrongCount => "the count is not the number of its data bytes",
            Fault::EndNotZero => "an end record whose count or address is not 0",
            Fault::CheckByte => {
                "the check byte is wrong: the low byte of the sum of the record's bytes is not 0"
            }
            Fault::UnknownType => "a record of a type other than 00 and 01",
            Fault::AboveImage => "a data byte at an address above 0A3Fh",
            Fault::NoEndRecord => "the file ends without an end record",
            Fault::AfterEnd => "text after the end record",
        };
        f.write_str(words)
    }
}

impl Error for Fault {}
