// The host's events, and one pass of its search.
ghost use Rattle.std.specs.Prelude.{◌≡◌, ◌≤◌, ◌<◌, ◌^◌};
ghost use Rattle.line.specs.Event.{answered};
ghost use Rattle.line.specs.Events.{slot_event, reset_event};
ghost use Rattle.search.specs.Host.{played, play, begun, pass, write, turn, mark, put, up_to, heard};
ghost use Rattle.line.specs.Attached.{attached, says_of, leaves_of};
ghost use Rattle.search.specs.Search.{wire, played_write};
ghost use Rattle.search.specs.Branch.{marked, marked_on, ended};

use crate::Slots;
use line::{Event, Refusal, Table};

// The branch that a pass took to its end: the code, and the last place where the codes parted and 0 was taken.
#[derive(Clone, Copy, PartialEq, Eq)]
pub struct Branch {
    pub code: u64,
    pub parting: Option<u8>,
}

// How a pass ended: the branch that it took, where a chip answered at every place, and the slots put on the line.
#[derive(Clone, Copy, PartialEq, Eq)]
pub struct Pass {
    pub branch: Option<Branch>,
    pub slots: Slots,
}

// The bit of an answer; without one the host hears a 1.
pub fn bit_heard(a: Result<bool, Refusal>) -> bool
    ensures { result ≡ heard (answered a) }
{
    a.unwrap_or(true)
}

// An event put on the line.
fn put_event(t: &mut Table, e: Event, ms: &mut [u8], ss: &mut [u8]) -> bool
    ensures { (result ≡ heard (says_of e (attached t.old.n t.old.chips ms.old ss.old)))
        × (attached t.new.n t.new.chips ms.new ss.new ≡ leaves_of e (attached t.old.n t.old.chips ms.old ss.old)) }
{
    let happened = line::take_event(*t, e, ms, ss);
    *t = happened.table;
    bit_heard(happened.answer)
}

// A slot.
pub fn slot(t: &mut Table, b: bool, ms: &mut [u8], ss: &mut [u8]) -> bool
    ensures { (result ≡ heard (says_of (slot_event b) (attached t.old.n t.old.chips ms.old ss.old)))
        × (attached t.new.n t.new.chips ms.new ss.new ≡ leaves_of (slot_event b) (attached t.old.n t.old.chips ms.old ss.old)) }
{
    put_event(t, line::events::slot(b), ms, ss)
}

// A reset.
pub fn reset(t: &mut Table, ms: &mut [u8], ss: &mut [u8]) -> bool
    ensures { (result ≡ heard (says_of reset_event (attached t.old.n t.old.chips ms.old ss.old)))
        × (attached t.new.n t.new.chips ms.new ss.new ≡ leaves_of reset_event (attached t.old.n t.old.chips ms.old ss.old)) }
{
    put_event(t, line::events::reset(), ms, ss)
}

// The bit to write after a bit and its complement were read; where both are 0 the codes part, and the wanted bit is taken.
fn turn_of(a: bool, b: bool, wanted: bool) -> bool
    ensures { result ≡ turn a b wanted }
{
    if a || b { a } else { wanted }
}

// The last parting at which 0 was taken.
fn parting_of(a: bool, b: bool, wanted: bool, k: u8, last: Option<u8>) -> Option<u8>
    requires { k < 64 }
    ensures { marked result ≡ mark a b wanted k (marked last) }
{
    if a || b || wanted { last } else { Some(k) }
}

// The path with a bit at a place.
fn put_bit(d: bool, k: u8, path: u64) -> u64
    requires { (k < 64) × (path < 2 ^ k) }
    ensures { result ≡ put d k path }
{
    if d { path + (1 << (k as u64)) } else { path }
}

// The 64 places of a pass: two reads and one write each, left as soon as no chip answers.
pub fn one_pass(t: &mut Table, want: u64, ms: &mut [u8], ss: &mut [u8]) -> Pass
    ensures slots_after { played (ended result.branch (play wire (pass 64 (begun want)) (attached t.old.n t.old.chips ms.old ss.old)).result)
        (attached t.new.n t.new.chips ms.new ss.new) 0 result.slots.0
        ≡ play wire (pass 64 (begun want)) (attached t.old.n t.old.chips ms.old ss.old) }
    ensures last_bound { (marked_on result.branch ≤ 64) × (result.slots.0 ≤ 192) }
{
    let mut code: u64 = 0;
    let mut parting = None;
    let mut slots: u64 = 0;
    let mut whole = true;
    'bits: for k in 0..64 {
        let a = slot(t, true, ms, ss);
        let b = slot(t, true, ms, ss);
        slots += 2;
        if a && b {
            whole = false;
            break 'bits;
        }
        let wanted = base::bit_of(want, k);
        let d = turn_of(a, b, wanted);
        slot(t, d, ms, ss);
        slots += 1;
        code = put_bit(d, k, code);
        parting = parting_of(a, b, wanted, k, parting);
    }
    Pass {
        branch: if whole {
            Some(Branch { code, parting })
        } else {
            None
        },
        slots: Slots(slots),
    }
}

// The eight bits of a byte, least significant first.
pub fn write_byte(t: &mut Table, byte: u8, ms: &mut [u8], ss: &mut [u8])
    ensures { played_write (attached t.new.n t.new.chips ms.new ss.new) 8
        ≡ play wire (write 8 0 byte) (attached t.old.n t.old.chips ms.old ss.old) }
{
    for i in 0..8 {
        slot(t, base::bit_of(byte as u64, i), ms, ss);
    }
}

// What the next pass wants by the last parting: the path below it, and a 1 there.
pub fn wants(parting: u8, path: u64) -> u64
    requires { parting < 64 }
    ensures { result ≡ up_to parting path }
{
    let one: u64 = 1 << (parting as u64);
    path % one + one
}
