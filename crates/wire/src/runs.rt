// Runs of slots, and the characters of what was answered, each in room of its own.
ghost use Rattle.std.specs.Prelude.{◌≤◌, ◌<◌, ◌≡◌, nat_le};

use line::SLOTS_MOST;

// The bytes for the bits of the longest run.
pub const BITS_SIZE: usize = SLOTS_MOST / 8 + 1;

// A run of slots: how many, and the host's bits, packed as the line takes them.
#[derive(Drop)]
pub struct Run {
    pub slots: usize,
    pub bits: [u8; BITS_SIZE],
    ghost fits: { slots ≤ 65535 },
}

impl Run {
    // No slot.
    // Stays beside `Answers::new`: alike in text alone; a run counts bits, and its invariant is another.
    pub fn new() -> Run {
        Run {
            slots: 0,
            bits: [0; BITS_SIZE],
        }
    }

    // Whether it has as many slots as a run can have.
    pub fn is_full(&self) -> bool
        ensures { result ≡ nat_le 65535 self.now.slots }
    {
        SLOTS_MOST <= self.slots
    }

    // One slot more, with the host's bit.
    pub fn put(&mut self, bit: bool)
        requires { self.old.slots < 65535 }
    {
        line::put_slot_bit(&mut self.bits, self.slots, bit);
        self.slots += 1;
    }
}

// The most characters that are read in one turn, each of which has one answer at most.
pub const CHARACTERS_MOST: usize = 65536;

// The characters of what was answered in a turn.
#[derive(Drop)]
pub struct Answers {
    count: usize,
    text: [u8; CHARACTERS_MOST],
    ghost fits: { count ≤ 65536 },
}

impl Answers {
    // None yet.
    pub fn new() -> Answers {
        Answers {
            count: 0,
            text: [0; CHARACTERS_MOST],
        }
    }

    // None again.
    pub fn clear(&mut self) {
        self.count = 0;
    }

    // One answer more. One for which there is no room is left out.
    pub fn put(&mut self, letter: u8) {
        if self.count < CHARACTERS_MOST {
            self.text[self.count] = letter;
            self.count += 1;
        }
    }

    // All of them.
    pub fn text(&self) -> &[u8] {
        &self.text[..self.count]
    }
}
