// A chip's record as bytes, numbers with the low byte first.
ghost use Rattle.std.specs.Prelude.{◌≡◌};
ghost use Rattle.base.specs.Bytes.{same_bytes};
ghost use Rattle.packed.specs.Packed.{step_at, packed_with, packed, unpacked, put_record};

use crate::{RECORD_SIZE, Step, level};
use chip::{Chip, Level};
use ds2413::Switch;
use scratchpad::Registers;

// The bytes of a chip's record, by the step that its level is.
fn bytes_of(c: Chip, s: Step) -> [u8; RECORD_SIZE]
    ensures { result ≡ packed_with c s }
{
    let rc = level::flag_of(c.rc);
    let mut r = [0; RECORD_SIZE];
    r[..8].copy_from_slice(&c.code.to_le_bytes());
    r[8] = c.kind;
    r[9] = rc;
    r[10..12].copy_from_slice(&c.registers.t.to_le_bytes());
    r[12] = c.registers.es;
    r[13] = c.switch.latches;
    r[14] = c.switch.outside;
    r[15] = s.number;
    r[16..18].copy_from_slice(&s.w.to_le_bytes());
    r[18] = s.a;
    r[19] = s.b;
    r[20] = s.c;
    r
}

// A chip's record as bytes.
#[tactic(auto, unfolding(crate::specs::Packed::packed))]
pub fn pack(c: Chip) -> [u8; RECORD_SIZE]
    ensures { result ≡ packed c }
{
    bytes_of(c, Step::from(c.level))
}

// The step that a record names.
fn step_of(bytes: &[u8; RECORD_SIZE]) -> Step
    ensures { result ≡ step_at bytes.now }
{
    Step {
        number: bytes[15],
        w: records::pair_at(bytes, 16),
        a: bytes[18],
        b: bytes[19],
        c: bytes[20],
    }
}

// The chip that the bytes of a record stand for.
#[tactic(auto, unfolding(crate::specs::Packed::unpacked))]
fn unpack_whole(bytes: &[u8; RECORD_SIZE]) -> Chip
    ensures { result ≡ unpacked bytes.now }
{
    let registers = Registers {
        t: records::pair_at(bytes, 10),
        es: bytes[12],
    };
    let switch = Switch {
        latches: bytes[13],
        outside: bytes[14],
    };
    Chip {
        code: records::code_at(bytes, 0),
        kind: bytes[8],
        rc: bytes[9] == 1,
        level: Level::from(step_of(bytes)),
        registers: registers,
        switch: switch,
    }
}

// The chip that bytes stand for, whether they are a record or not; past the end a byte is 0.
pub fn unpack(s: &[u8]) -> Chip
    ensures { result ≡ unpacked s.now }
{
    if let Some(bytes) = s.first_chunk::<RECORD_SIZE>() {
        return unpack_whole(bytes);
    }
    let mut whole = [0; RECORD_SIZE];
    whole[..s.len()].copy_from_slice(s);
    unpack_whole(&whole)
}

// Bytes are the record of a chip.
pub fn is_packed(c: Chip, s: &[u8]) -> bool
    ensures { result ≡ same_bytes (packed c) s.now }
{
    base::same_bytes(&pack(c), s)
}

// A chip's record put in the first bytes; where there are fewer, nothing is put.
pub fn put_record(s: &mut [u8], c: Chip)
    ensures { s.new ≡ put_record c s.old }
{
    if let Some(bytes) = s.first_chunk_mut::<RECORD_SIZE>() {
        *bytes = pack(c);
    }
}
