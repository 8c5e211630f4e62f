// Runs of slots that follow one another in a recording, joined into one, so that they are judged and put on the line at once.
ghost use Rattle.std.specs.Prelude.{◌≡◌, ◌++◌, ◌+◌, ◌*◌, ◌≤◌, length};
ghost use Rattle.line.specs.Slots.{host_bits};
ghost use Rattle.recording.specs.Joining.{GatheredTo, JoinedTo};
ghost use Rattle.recording.specs.Putting.{RecordFits};

use crate::{Found, RUN_BYTES, Record, reading};
use line::SLOTS_MOST;

// Runs that were gathered: how many slots they have, and the offset after their records.
#[derive(Clone, Copy)]
pub struct Gathered {
    pub slots: usize,
    pub next: usize,
}

// What is put on the line for a record, and the offset after all that it stands for. A run's host bits stand in a buffer of
// their own.
#[derive(Clone, Copy)]
pub struct Joined {
    pub record: Record,
    pub next: usize,
}

// The host bits of a run put after those of so many slots.
fn add_bits(host: &mut [u8; RUN_BYTES], slots: usize, bits: &[u8], count: usize)
    requires { (count ≤ 8 * length bits.now) × (slots + count ≤ 65535) }
    ensures { host_bits (slots + count) host.new ≡ host_bits slots host.old ++ host_bits count bits.now }
{
    for i in 0..count {
        line::put_slot_bit(host, slots + i, line::slot_bit(bits, i));
    }
}

// The runs from an offset on, put after so many slots, as far as they go and one run may have them all. Whatever else stands
// there is left to its own turn, a fault too.
fn gather_runs(
    s: &[u8],
    at: usize,
    room: usize,
    more: bool,
    slots: usize,
    host: &mut [u8; RUN_BYTES],
) -> Gathered
    requires { (at ≤ length s.now) × (slots ≤ 65535) }
    ensures { GatheredTo more s.now room at slots host.old result.slots result.next host.new }
{
    let mut all = slots;
    let mut next = at;
    // Stays a loop over offsets: each record says where the next one begins.
    loop {
        let Ok(Found::Record(Record::Slots { count, from, to }, after)) = reading::record_at(
            s, next, room, true, more,
        ) else {
            break;
        };
        let n = count as usize;
        if SLOTS_MOST - all < n {
            break;
        }
        add_bits(host, all, &s[from..to], n);
        all += n;
        next = after;
    }
    Gathered { slots: all, next }
}

// What is put on the line for the record before an offset: a run of slots with those that follow it, and any other record by
// itself. A run without a slot is no event, so none is joined to it.
pub fn with_next_runs(
    taken: Record,
    s: &[u8],
    next: usize,
    room: usize,
    more: bool,
    host: &mut [u8; RUN_BYTES],
) -> Joined
    requires { (RecordFits s.now taken) × (next ≤ length s.now) }
    ensures { JoinedTo more s.now room taken next host.new result.record result.next }
{
    let Record::Slots { count, from, to } = taken else {
        return Joined {
            record: taken,
            next,
        };
    };
    if count == 0 {
        return Joined {
            record: Record::Slots {
                count,
                from: 0,
                to: 0,
            },
            next,
        };
    }
    add_bits(host, 0, &s[from..to], count as usize);
    let run = gather_runs(s, next, room, more, count as usize, host);
    Joined {
        record: Record::Slots {
            count: run.slots as u16,
            from: 0,
            to: line::bytes_asked(run.slots),
        },
        next: run.next,
    }
}
