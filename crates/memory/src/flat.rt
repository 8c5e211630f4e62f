// The flat layout: a memory is a slice in the order of its addresses, a scratchpad another.
ghost use Rattle.std.specs.Prelude.{◌≡◌, ◌%◌};
ghost use Rattle.scratchpad.specs.Scratchpad.{in_page};
ghost use Rattle.memory.specs.Part.{map_of};
ghost use Rattle.memory.specs.Memory.{bytes, seen, seen_in, rule_at, span_of, copied, done};

use crate::{Look, Part, Seen};
use scratchpad::Deed;

// Two bytes of a memory.
pub fn pair_at(m: &[u8], a: usize, b: usize) -> Seen
    ensures { result ≡ seen_in m.now m.now (Look.Memory a b) }
{
    Seen {
        first: base::byte_at(m, a),
        second: base::byte_at(m, b),
    }
}

// A byte of a scratchpad.
pub fn one_at(s: &[u8], o: usize) -> Seen
    ensures { result ≡ seen_in s.now s.now (Look.Pad o) }
{
    Seen {
        first: base::byte_at(s, o),
        second: 0,
    }
}

// The bytes that a slot looks at.
pub fn fetch(look: Look, m: &[u8], s: &[u8]) -> Seen
    ensures { result ≡ seen_in m.now s.now look }
{
    match look {
        Look::Nothing => Seen {
            first: 0,
            second: 0,
        },
        Look::Memory { first, second } => pair_at(m, first, second),
        Look::Pad { offset } => one_at(s, offset),
    }
}

// A byte sent to an address of a memory, through the rule of a byte.
#[tactic(auto, unfolding(crate::specs::Memory::rule_at))]
pub fn rule_at(part: Part, m: &[u8], a: usize, sent: u8) -> u8
    ensures { result ≡ rule_at (map_of part) m.now a sent }
{
    let byte = base::byte_at(m, a);
    let control = base::byte_at(m, crate::control_address(part, a));
    crate::rule(part, a, byte, control, sent)
}

// The bytes of n offsets from k on, put into T's page, each judged before any is put.
// Stays a recursion, in fixed memory: every byte is judged by the memory before the copy, so that a loop would need a buffer
// for what is judged, and a second loop that puts it.
pub fn copy_bytes(part: Part, m: &mut [u8], s: &[u8], t: u16, k: u8, n: u8)
    ensures { m.new ≡ copied (map_of part) m.old s.now (in_page t 0) k n }
{
    if 0 < n {
        let o = (k as usize) + (n as usize) - 1;
        let a = scratchpad::in_page(t, 0) + o;
        let sent = base::byte_at(s, o);
        let b = rule_at(part, m, a, sent);
        copy_bytes(part, m, s, t, k, n - 1);
        base::put_at(m, a, b);
    }
}

// A copy in T's page, from T mod 32 to E.
pub fn copy(part: Part, m: &mut [u8], s: &[u8], t: u16, e: u8)
    ensures { m.new ≡ copied (map_of part) m.old s.now (in_page t 0) (t % 32) (span_of t e) }
{
    let n = crate::span(t, e);
    copy_bytes(part, m, s, t, (t % 32) as u8, n)
}

// A deed, done to memory and scratchpad.
pub fn carry_out(part: Part, d: Deed, m: &mut [u8], s: &mut [u8])
    ensures { bytes m.new s.new ≡ done (map_of part) m.old s.old d }
{
    match d {
        Deed::Nothing => {}
        Deed::Put { offset, byte } => base::put_at(s, offset as usize, byte),
        Deed::Copy { t, e } => copy(part, m, s, t, e),
    }
}
