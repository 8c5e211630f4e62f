// What hex digits are worth, the bytes of two of them, and the sum of bytes.
ghost use Rattle.std.specs.Prelude.{◌≡◌};
ghost use Rattle.intelhex.specs.Bytes.{is_digit, worth, byte_of, sum_of, check_of};

// A character is a hex digit, of either case.
#[tactic(auto, unfolding(crate::specs::Bytes::is_digit, crate::specs::Bytes::between, base::specs::Bits::both, base::specs::Pick::pick))]
pub fn is_digit(c: u8) -> bool
    ensures { result ≡ is_digit c }
{
    // comparisons, here and below, since by ranges in a pattern each digit of a text takes an instruction or two more
    b'0' <= c && c <= b'9' || b'A' <= c && c <= b'F' || b'a' <= c && c <= b'f'
}

// What a hex digit is worth, 0 for any other character.
// Stays without an `Option`: the definition `worth` gives 0 there too, and `decode` asks it of digits alone.
#[tactic(auto, unfolding(crate::specs::Bytes::worth, crate::specs::Bytes::between, base::specs::Bits::both, base::specs::Pick::pick))]
fn worth_of(c: u8) -> u8
    ensures { result ≡ worth c }
{
    if b'0' <= c && c <= b'9' {
        c - b'0'
    } else if b'A' <= c && c <= b'F' {
        c - b'A' + 10
    } else if b'a' <= c && c <= b'f' {
        c - b'a' + 10
    } else {
        0
    }
}

// The byte of two digits.
#[tactic(auto, using(crate::specs::Digits::worth_most), unfolding(crate::specs::Bytes::byte_of))]
pub fn byte_of(high: u8, low: u8) -> u8
    ensures { result ≡ byte_of high low }
{
    16 * worth_of(high) + worth_of(low)
}

// The low byte of the sum of bytes.
#[tactic(auto, unfolding(crate::specs::Bytes::sum_of))]
pub fn sum_of(bytes: &[u8]) -> u8
    ensures { result ≡ sum_of bytes.now }
{
    let mut sum: u8 = 0;
    for byte in bytes {
        sum = sum.wrapping_add(*byte);
    }
    sum
}

// The byte that makes that sum 0: its negative.
#[tactic(auto, unfolding(crate::specs::Bytes::check_of))]
pub fn check_of(bytes: &[u8]) -> u8
    ensures { result ≡ check_of bytes.now }
{
    0u8.wrapping_sub(sum_of(bytes))
}
