// The host at the terminal: what it does on a line, and what it writes out of that.
use crate::text;
use base::Register;
use line::{Event, Table};
use std::io::Stdout;

// One thing that the host does: nothing, an event but for slots, eight slots that write a byte, a byte read, or a slot read.
#[derive(Clone, Copy)]
pub enum Action {
    Rest,
    Put(Event),
    Write(u8),
    // and whether it is written out
    ReadByte(bool),
    ReadSlot,
}

// A terminal, the line at it, and what the line was lent.
#[derive(Drop)]
pub struct Bench<'a> {
    pub out: Stdout,
    pub table: Table,
    pub images: &'a mut [u8],
    pub pads: &'a mut [u8],
}

impl<'a> Bench<'a> {
    // With no chips yet.
    pub fn new(out: Stdout, images: &'a mut [u8], pads: &'a mut [u8]) -> Self {
        Bench {
            out,
            table: line::tables::blank(0),
            images,
            pads,
        }
    }

    // A line set up from a card: images of FFh, then event 3.
    pub fn set_up(&mut self, card: &[u8]) {
        let carded = card::set_up(card, 16, line::tables::blank(0));
        let answer = carded.answer;
        self.table = carded.table;
        if !terminal::refused_card(self.out, answer) {
            self.images.fill(0xFF);
            self.put_event(line::events::power_on());
        }
    }

    // An event; where it is refused, that is written out. A line that takes a reset or power on takes every slot too.
    fn put_event(&mut self, event: Event) {
        let happened = line::take_event(self.table, event, self.images, self.pads);
        let answer = happened.answer;
        self.table = happened.table;
        if let Err(refusal) = answer {
            text::refused(self.out, line::number_of(refusal) as u64);
        }
    }

    // A slot read.
    fn read_slot(&mut self) -> bool {
        search::slot(&mut self.table, true, self.images, self.pads)
    }

    // Eight read slots, and the byte that they make.
    fn read_byte(&mut self) -> u8 {
        let mut byte: u8 = 0;
        for _ in 0..8 {
            byte = byte.filled(self.read_slot());
        }
        byte
    }

    // What the host does, done on the line.
    pub fn act(&mut self, action: Action) {
        match action {
            Action::Rest => {}
            Action::Put(event) => self.put_event(event),
            Action::Write(byte) => {
                search::write_byte(&mut self.table, byte, self.images, self.pads);
            }
            Action::ReadByte(is_shown) => {
                let byte = self.read_byte();
                if is_shown {
                    text::say_byte(self.out, byte);
                }
            }
            Action::ReadSlot => {
                let bit = self.read_slot();
                text::say_bit(self.out, bit);
            }
        }
    }
}
