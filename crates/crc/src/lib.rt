// The two check sums of document 01, and the check of a code. The CRC-8 runs on the register that figure 4 of the sheet draws.
#![tactic(auto)]

mod figure4;

ghost use Rattle.std.specs.Prelude.{◌≡◌};
ghost use Rattle.crc.specs.Crc.{poly8, poly16, crc_bit, crc_byte, crc_of};
ghost use Rattle.crc.specs.Code.{byte_of, code_crc, check_of};

// What the check of a code finds.
#[derive(Clone, Copy, PartialEq, Eq, Debug)]
pub enum CodeCheck {
    Good,
    Bad,
    AllZeros,
}

// One bit into the CRC-8.
#[tactic(auto, using(crate::specs::Drawn::drawn_is_poly8, crate::specs::Stages::byte_of_stages))]
pub fn bit8(x: u8, v: bool) -> u8
    ensures { result ≡ crc_bit poly8 x v }
{
    let stages = figure4::stages_of(x);
    figure4::as_byte(figure4::step(stages, v))
}

// One byte into the CRC-8, bit 0 first.
pub fn byte8(x: u8, b: u8) -> u8
    ensures { result ≡ crc_byte poly8 x b }
{
    let stages = figure4::stages_of(x);
    figure4::as_byte(figure4::take_byte(stages, b))
}

// One bit into the CRC-16.
#[tactic(auto, using(base::specs::Rules::cases), unfolding(crate::specs::Crc::crc_bit, base::specs::Bits::same, base::specs::Pick::pick))]
pub fn bit16(x: u16, v: bool) -> u16
    ensures { result ≡ crc_bit poly16 x v }
{
    if base::bit_of(x as u64, 0) == v {
        x / 2
    } else {
        (x / 2) ^ 0xA001
    }
}

// One byte into the CRC-16, bit 0 first.
pub fn byte16(x: u16, b: u8) -> u16
    ensures { result ≡ crc_byte poly16 x b }
{
    let mut sum = x;
    for k in 0..8 {
        sum = bit16(sum, base::bit_of(b as u64, k));
    }
    sum
}

// The CRC-8 of a run of bytes.
// Stays a loop: by the library's `fold` a byte takes 1.8 times the instructions.
pub fn crc8(s: &[u8]) -> u8
    ensures { result ≡ crc_of poly8 0 s.now }
{
    let mut r = figure4::start();
    for b in s {
        r = figure4::take_byte(r, *b);
    }
    figure4::as_byte(r)
}

// The CRC-16 of a run of bytes.
pub fn crc16(s: &[u8]) -> u16
    ensures { result ≡ crc_of poly16 0 s.now }
{
    s.iter().copied().fold(0, byte16)
}

// The CRC-8 of the first seven bytes of a code.
pub fn of_code(code: u64) -> u8
    ensures { result ≡ code_crc code }
{
    let mut r = figure4::start();
    for k in 0..7 {
        r = figure4::take_byte(r, byte_of(code, k));
    }
    figure4::as_byte(r)
}

// Whether a code is all zeros, as a dead line reads; of any other, whether its eighth byte is the CRC-8 of the first seven.
#[tactic(auto, using(base::specs::Rules::cases), unfolding(crate::specs::Code::check_of))]
pub fn check_code(code: u64) -> CodeCheck
    ensures { result ≡ check_of code }
{
    if code == 0 {
        CodeCheck::AllZeros
    } else if of_code(code) == byte_of(code, 7) {
        CodeCheck::Good
    } else {
        CodeCheck::Bad
    }
}

// Byte k of a code, the family being byte 0; past the eighth there is none.
#[tactic(auto, using(crate::specs::Byte::byte_past), unfolding(crate::specs::Code::byte_of))]
pub fn byte_of(code: u64, k: u8) -> u8
    ensures { result ≡ byte_of code k }
{
    if k < 8 {
        ((code >> (8 * (k as u64))) % 256) as u8
    } else {
        0
    }
}
