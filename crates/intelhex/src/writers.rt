// An image written as text.
ghost use Rattle.std.specs.Prelude.{◌≡◌, ◌+◌, ◌*◌, ◌≤◌, length};
ghost use Rattle.std.proofs.lemmas.List.Edits.{sets};
ghost use Rattle.intelhex.specs.Written.{line_of, data_record, data_records, data_lines, text_of, wrote, write_text};

use crate::{Fault, IMAGE_SIZE, LINE_FEED, TEXT_SIZE, digits};
use numerals::hex;

// The data bytes of a record.
const DATA_BYTES: usize = 16;

// The characters of a data record's line.
const LINE_SIZE: usize = 44;

// Where the line of the end record begins, behind the lines of 164 data records.
const END_AT: usize = 164 * LINE_SIZE;

// The bytes of a data record without its check byte.
const RECORD_SIZE: usize = 20;

// The end record.
const END_RECORD: [u8; 4] = [0, 0, 0, 1];

// The line of a record put into a text. Here and below, places are those of a text of 7,228 characters, and stay far below what a word holds.
fn put_line(bytes: &[u8], text: &mut [u8], at: usize)
    requires { at + 2 * length bytes.now ≤ 0xFFF0 }
    ensures { text.new ≡ sets text.old at (line_of bytes.now) }
{
    let check = [digits::check_of(bytes)];
    let end = at + 2 * bytes.len();
    base::put_at(text, at, b':');
    hex::put_digits(bytes, text, at + 1);
    hex::put_digits(&check, text, end + 1);
    base::put_at(text, end + 3, LINE_FEED);
}

// A data record.
fn data_record_of(address: u16, given: &[u8]) -> [u8; RECORD_SIZE]
    requires { length given.now ≡ 16 }
    ensures { result ≡ data_record address given.now }
{
    let [high, low] = address.to_be_bytes();
    let mut bytes = [0u8; RECORD_SIZE];
    bytes[0] = DATA_BYTES as u8;
    bytes[1] = high;
    bytes[2] = low;
    bytes[4..].copy_from_slice(given);
    bytes
}

// The lines of all data records put into a text.
fn put_data_lines(image: &[u8; IMAGE_SIZE], text: &mut [u8])
    ensures { text.new ≡ sets text.old 0 (data_lines data_records 0 image.now) }
{
    for (i, given) in image.chunks_exact(DATA_BYTES).enumerate() {
        let record = data_record_of((i * DATA_BYTES) as u16, given);
        put_line(&record, text, i * LINE_SIZE);
    }
}

// The text of an image.
fn put_text(image: &[u8; IMAGE_SIZE], text: &mut [u8; TEXT_SIZE])
    ensures { text.new ≡ text_of image.now }
{
    put_data_lines(image, text);
    put_line(&END_RECORD, text, END_AT);
}

// Writes an image as text. 5 for an image or a text of another size, with nothing changed.
pub fn write_text(image: &[u8], text: &mut [u8]) -> Result<(), Fault>
    ensures { wrote result text.new ≡ write_text image.now text.old }
{
    let Some(image) = image.as_array::<IMAGE_SIZE>() else {
        return Err(Fault::WrongSize);
    };
    let Some(text) = text.as_mut_array::<TEXT_SIZE>() else {
        return Err(Fault::WrongSize);
    };
    put_text(image, text);
    Ok(())
}
