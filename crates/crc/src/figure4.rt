// The 1-Wire CRC generator as figure 4 of the sheet draws it: a shift register of eight stages, which takes one bit at a time.
//
//   X^0      X^1      X^2      X^3          X^4             X^5         X^6      X^7          X^8
//  +--> [1st] -> [2nd] -> [3rd] -> [4th] -> (+) -> [5th] -> (+) -> [6th] -> [7th] -> [8th] -> (+) <- input data
//  |                                         ^               ^                                 |
//  +-----------------------------------------+---------------+---------------------------------+ feedback
//
// (+) is an exclusive or.
ghost use Rattle.std.specs.Prelude.{◌≡◌};
ghost use Rattle.crc.specs.Figure4.{cleared, drawn_bit, drawn_byte, as_byte, stages_of};

use base::Register;

// The eight stages.
#[derive(Clone, Copy)]
pub struct ShiftRegister {
    pub stage1: bool,
    pub stage2: bool,
    pub stage3: bool,
    pub stage4: bool,
    pub stage5: bool,
    pub stage6: bool,
    pub stage7: bool,
    pub stage8: bool,
}

// The register before the first bit: every stage is 0.
pub fn start() -> ShiftRegister
    ensures { result ≡ cleared }
{
    ShiftRegister {
        stage1: false,
        stage2: false,
        stage3: false,
        stage4: false,
        stage5: false,
        stage6: false,
        stage7: false,
        stage8: false,
    }
}

// One bit of the input data. The feedback is the 8th stage XOR that bit; a stage takes the one before it.
pub fn step(r: ShiftRegister, input: bool) -> ShiftRegister
    ensures { result ≡ drawn_bit r input }
{
    let feedback = r.stage8 ^ input;
    ShiftRegister {
        stage1: feedback, // X^0: the feedback goes in
        stage2: r.stage1,
        stage3: r.stage2,
        stage4: r.stage3,
        stage5: r.stage4 ^ feedback, // X^4: the feedback is XORed in
        stage6: r.stage5 ^ feedback, // X^5: the feedback is XORed in
        stage7: r.stage6,
        stage8: r.stage7,
    }
}

// One byte of the input data, bit 0 first.
// Stays written out: with a loop over the bits the check of a code takes 1.8 times the instructions, and no speed is lost by the figure.
pub fn take_byte(r: ShiftRegister, b: u8) -> ShiftRegister
    ensures { result ≡ drawn_byte r b }
{
    let n = b as u64;
    let r1 = step(r, base::bit_of(n, 0));
    let r2 = step(r1, base::bit_of(n, 1));
    let r3 = step(r2, base::bit_of(n, 2));
    let r4 = step(r3, base::bit_of(n, 3));
    let r5 = step(r4, base::bit_of(n, 4));
    let r6 = step(r5, base::bit_of(n, 5));
    let r7 = step(r6, base::bit_of(n, 6));
    step(r7, base::bit_of(n, 7))
}

// The register read as a byte: the 8th stage, which leaves first, is bit 0; the 1st is bit 7.
#[tactic(auto, using(crate::specs::Stages::leave_as_byte), unfolding(crate::specs::Stages::as_they_leave))]
pub fn as_byte(r: ShiftRegister) -> u8
    ensures { result ≡ as_byte r }
{
    0u8.filled(r.stage8)
        .filled(r.stage7)
        .filled(r.stage6)
        .filled(r.stage5)
        .filled(r.stage4)
        .filled(r.stage3)
        .filled(r.stage2)
        .filled(r.stage1)
}

// The register that reads as this byte.
#[tactic(auto, unfolding(crate::specs::Figure4::stages_of))]
pub fn stages_of(x: u8) -> ShiftRegister
    ensures { result ≡ stages_of x }
{
    let n = x as u64;
    ShiftRegister {
        stage1: base::bit_of(n, 7),
        stage2: base::bit_of(n, 6),
        stage3: base::bit_of(n, 5),
        stage4: base::bit_of(n, 4),
        stage5: base::bit_of(n, 3),
        stage6: base::bit_of(n, 2),
        stage7: base::bit_of(n, 1),
        stage8: base::bit_of(n, 0),
    }
}
