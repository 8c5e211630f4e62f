// A line's characters as the bytes of a record, and what the record is.
ghost use Rattle.std.specs.Prelude.{◌≡◌, ◌/◌, ◌≤◌, length};
ghost use Rattle.std.proofs.lemmas.List.Edits.{sets};
ghost use Rattle.std.specs.List.{list_all};
ghost use Rattle.intelhex.specs.Bytes.{is_digit, bytes_of};
ghost use Rattle.intelhex.specs.Lines.{form_of, is_bad_end, is_above, judged};

use crate::{Fault, digits};

// The last address of an image.
const LAST_ADDRESS: u32 = 0x0A3F;

// What a record is.
#[derive(Clone, Copy)]
pub enum Judged {
    // a data record that can be taken
    Data { address: u16, count: u8 },
    // the end record
    End,
}

// All characters are digits.
fn are_digits(characters: &[u8]) -> bool
    ensures { result ≡ list_all (λ c. is_digit c) characters.now }
{
    characters.iter().all(|c| digits::is_digit(*c))
}

// Of how many bytes a line has the digits, after its colon.
pub fn form_of(line: &[u8]) -> Result<usize, Fault>
    ensures { result ≡ form_of line.now }
{
    let [b':', digits @ ..] = line else {
        return Err(Fault::NoColon);
    };
    if !are_digits(digits) {
        return Err(Fault::NoDigit);
    }
    if digits.len() % 2 != 0 {
        return Err(Fault::OddDigits);
    }
    if digits.len() < 10 {
        return Err(Fault::FewBytes);
    }
    Ok(digits.len() / 2)
}

// The bytes of digits, put at the start of a buffer.
pub fn decode(digits: &[u8], bytes: &mut [u8])
    requires { length digits.now / 2 ≤ length bytes.old }
    ensures { bytes.new ≡ sets bytes.old 0 (bytes_of digits.now) }
{
    for (i, pair) in digits.chunks_exact(2).enumerate() {
        bytes[i] = digits::byte_of(pair[0], pair[1]);
    }
}

// An end record whose count or address is not 0.
#[tactic(auto, unfolding(crate::specs::Lines::is_bad_end, base::specs::Bits::both, base::specs::Pick::pick))]
fn is_bad_end(record_type: u8, count: u8, address: u16) -> bool
    ensures { result ≡ is_bad_end record_type count address }
{
    record_type == 1 && (count != 0 || address != 0)
}

// One of so many data bytes has an address above the last.
#[tactic(auto, unfolding(crate::specs::Lines::is_above, base::specs::Pick::pick))]
fn is_above(count: u8, address: u16) -> bool
    ensures { result ≡ is_above count address }
{
    count != 0 && LAST_ADDRESS < (address as u32) + ((count - 1) as u32)
}

// What a record is.
// Stays with a number for its type: refusal 18 is of every number but 00 and 01, and no enum names those.
pub fn judge(bytes: &[u8]) -> Result<Judged, Fault>
    ensures { result ≡ judged bytes.now }
{
    let [count, high, low, record_type, ..] = *bytes else {
        return Err(Fault::WrongCount);
    };
    let address = u16::from_be_bytes([high, low]);
    if bytes.len() != (count as usize) + 5 {
        return Err(Fault::WrongCount);
    }
    if is_bad_end(record_type, count, address) {
        return Err(Fault::EndNotZero);
    }
    if digits::sum_of(bytes) != 0 {
        return Err(Fault::CheckByte);
    }
    match record_type {
        0 if is_above(count, address) => Err(Fault::AboveImage),
        0 => Ok(Judged::Data { address, count }),
        1 => Ok(Judged::End),
        _ => Err(Fault::UnknownType),
    }
}
