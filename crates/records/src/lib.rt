// Numbers in bytes, low byte first; and records, length first: their heads, whatever their kinds.
#![tactic(auto)]

ghost use Rattle.std.specs.Prelude.{[], ◌∷◌, ◌≡◌, ◌+◌, get_or};
ghost use Rattle.records.specs.Numbers.{number_at};
ghost use Rattle.records.specs.Records.{head_at};

// What starts at an offset of a run of records.
// Stays with numbers for kinds: refusal 2 and the recording's order of faults speak of kinds that no enum names.
#[derive(Clone, Copy)]
pub enum Head {
    // nothing: the run ends here
    End,
    // fewer than 4 bytes
    Short,
    // a record whose length runs past the end
    Cut {
        length: u16,
        kind: u16,
    },
    // a whole record, and the offsets of its body and of the next
    Whole {
        length: u16,
        kind: u16,
        body: usize,
        next: usize,
    },
}

// The byte k places past an offset, 0 past the end.
fn byte_past(s: &[u8], at: usize, k: usize) -> u8
    ensures { result ≡ get_or s.now (at + k) 0 }
{
    if at <= s.len() {
        if k < s.len() - at {
            return s[at + k];
        }
        return 0;
    }
    0
}

// The number of two bytes.
pub fn pair(low: u8, high: u8) -> u16
    ensures { result ≡ number_at (low ∷ high ∷ []) 0 2 }
{
    u16::from_le_bytes([low, high])
}

// The number of eight bytes.
// Stays with eight bytes apart: the theorem `records_code` of the crate `coincide` is of them.
pub fn code(b0: u8, b1: u8, b2: u8, b3: u8, b4: u8, b5: u8, b6: u8, b7: u8) -> u64
    ensures { result ≡ number_at (b0 ∷ b1 ∷ b2 ∷ b3 ∷ b4 ∷ b5 ∷ b6 ∷ b7 ∷ []) 0 8 }
{
    u64::from_le_bytes([b0, b1, b2, b3, b4, b5, b6, b7])
}

// The number of the two bytes from an offset on.
pub fn pair_at(s: &[u8], at: usize) -> u16
    ensures { result ≡ number_at s.now at 2 }
{
    pair(byte_past(s, at, 0), byte_past(s, at, 1))
}

// The number of the eight bytes from an offset on.
pub fn code_at(s: &[u8], at: usize) -> u64
    ensures { result ≡ number_at s.now at 8 }
{
    let b0 = byte_past(s, at, 0);
    let b1 = byte_past(s, at, 1);
    let b2 = byte_past(s, at, 2);
    let b3 = byte_past(s, at, 3);
    let b4 = byte_past(s, at, 4);
    let b5 = byte_past(s, at, 5);
    let b6 = byte_past(s, at, 6);
    let b7 = byte_past(s, at, 7);
    code(b0, b1, b2, b3, b4, b5, b6, b7)
}

// The head of the record at an offset.
pub fn head_at(s: &[u8], at: usize) -> Head
    ensures { result ≡ head_at s.now at }
{
    let all = s.len();
    if all <= at {
        return Head::End;
    }
    let left = all - at;
    if left < 4 {
        return Head::Short;
    }
    let length = pair_at(s, at);
    let kind = pair_at(s, at + 2);
    let size = usize::from(length) + 2;
    if size <= left {
        return Head::Whole {
            length,
            kind,
            body: at + 4,
            next: at + size,
        };
    }
    Head::Cut { length, kind }
}
