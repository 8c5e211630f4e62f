// Numbers in digits: whole numbers as a user writes them, which are decimal digits with a minus sign or none; and bytes in hexadecimal digits
// (`hex`).
#![tactic(auto)]

pub mod hex;

ghost use Rattle.std.specs.Prelude.{◌≡◌, ◌+◌, ◌*◌, nat_abs};
ghost use Rattle.numerals.specs.Numerals.{digits_in, numeral_of};
ghost use Rattle.numerals.specs.Numerals.{kept, counted_by};

// The least number of 19 digits.
const MOST: u64 = 1_000_000_000_000_000_000;

// A number with a digit more, no more than the most.
#[tactic(auto, using(crate::specs::Digits::least_of, crate::specs::Digits::many))]
fn with_digit(n: u64, digit: u8) -> u64
    ensures { result ≡ kept (10 * n + digit) }
{
    if n < MOST {
        MOST.min(10 * n + u64::from(digit))
    } else {
        MOST
    }
}

// The number that a text of digits alone says; one past 18 digits counts as the least of 19. A text that says none has no number.
#[tactic(auto, using(crate::specs::Digits::digit_steps))]
pub fn read_digits(text: &[u8]) -> Option<u64>
    ensures { result ≡ counted_by (digits_in text.now) }
{
    if text.is_empty() {
        return None;
    }
    let mut n: u64 = 0;
    for c in text {
        if !c.is_ascii_digit() {
            return None;
        }
        n = with_digit(n, *c - b'0');
    }
    Some(n)
}

// The number that a text says in digits, with a minus sign or none; one past 18 digits counts as the least of 19, with its sign.
#[tactic(auto, using(crate::specs::Signs::signs))]
pub fn read_number(text: &[u8]) -> Option<i64>
    ensures { result ≡ numeral_of text.now }
{
    match text.strip_prefix(b"-") {
        Some(digits) => {
            let n = read_digits(digits)?;
            Some(-(n as i64))
        }
        None => {
            let n = read_digits(text)?;
            Some(n as i64)
        }
    }
}

// A number without its sign.
pub fn magnitude(n: i64) -> u64
    ensures { result ≡ nat_abs n }
{
    n.unsigned_abs()
}
