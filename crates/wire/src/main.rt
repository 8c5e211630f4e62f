// The line as a process: set up from the card file that its argument names, it answers each event of its standard input at
// once on its standard output. `0` and `1` are slots, `2` a reset, `3` power on, `4` with a hex digit and a digit the outside
// levels of a chip; an answer is `0` or `1`, or the letter of the alphabet with the number of a refusal.
#![tactic(auto)]

mod runs;
mod text;

ghost use Rattle.std.specs.Prelude.{◌≡◌};

use console::{Outputs, Told, input};
use line::{Event, Refusal, Table};
use runs::{Answers, BITS_SIZE, CHARACTERS_MOST, Run};
use std::io::Stdin;
use std::rt::{Env, Files};
use text::Begun;

// The line with what it was lent, what has come of an event, the run of slots that waits for its end, the
// bits on the bus of the last one, and what was answered.
#[derive(Drop)]
struct Process<'a> {
    table: Table,
    images: &'a mut [u8],
    pads: &'a mut [u8],
    begun: Option<Begun>,
    run: Run,
    bus: [u8; BITS_SIZE],
    answers: Answers,
}

impl Process<'_> {
    // One event on the line; what it answers.
    fn take_event(&mut self, e: Event) -> Result<bool, Refusal> {
        let happened = line::take_event(self.table, e, self.images, self.pads);
        self.table = happened.table;
        happened.answer
    }

    // Puts the run that waits on the line, if one does, and answers each of its slots.
    fn end_run(&mut self)
        ensures { self.new.run.slots ≡ 0 }
    {
        if self.run.slots == 0 {
            return;
        }
        let run = &self.run;
        let slots = run.slots;
        let bytes = line::bytes_asked(slots);
        let bits = &run.bits[..bytes];
        let bus = &mut self.bus[..];
        let ran = line::take_slots(
            self.table,
            bits,
            slots,
            &mut bus[..bytes],
            self.images,
            self.pads,
        );
        self.table = ran.table;
        for slot in 0..slots {
            let answer = ran.answer.map(|_| line::slot_bit(&self.bus, slot));
            self.answers.put(text::letter(answer));
        }
        self.run.slots = 0;
    }

    // One slot more of the run that waits; a run that is full ends first.
    fn take_slot(&mut self, bit: bool) {
        if self.run.is_full() {
            self.end_run();
        }
        self.run.put(bit);
    }

    // One character that is no slot of a run.
    fn take_other(&mut self, b: u8) {
        self.end_run();
        if let Some(e) = text::read_char(&mut self.begun, b) {
            let answer = self.take_event(e);
            self.answers.put(text::letter(answer));
        }
    }

    // Every character that was read, with its answers; spaces and line ends are passed over.
    fn take_all(&mut self, input: &[u8]) {
        self.answers.clear();
        for b in input {
            if self.begun.is_none() && text::is_slot(*b) {
                self.take_slot(*b == b'1');
            } else if !text::is_space(*b) {
                self.take_other(*b);
            }
        }
        self.end_run();
    }
}

// Answers events until the input ends: each time all that has come, so that nothing is held back while the process waits for input. Where
// nobody takes the answers it stops.
fn serve(mut stdin: Stdin, to: Outputs, process: &mut Process) -> Result<(), Told> {
    let mut input = [0u8; CHARACTERS_MOST];
    for _ in 0..u64::MAX {
        let n = input::read_some(&mut stdin, &mut input);
        if n == 0 {
            break;
        }
        process.take_all(&input[..n]);
        to.write(process.answers.text())?;
    }
    Ok(())
}

// Sets the line up from the bytes of a card, or says why it is refused; powers it on, and answers events.
fn run(stdin: Stdin, to: Outputs, card: &[u8]) -> Result<(), Told> {
    let set_up = card::set_up(card, 16, line::tables::blank(0));
    let answer = set_up.answer;
    let table = set_up.table;
    if terminal::refused_card(to.out, answer) {
        return Ok(());
    }
    let mut images = terminal::image_room();
    let mut pads = terminal::pad_room();
    let mut process = Process {
        table,
        images: &mut images[..line::images_asked(table)],
        pads: &mut pads[..line::pads_asked(table)],
        begun: None,
        run: Run::new(),
        bus: [0; BITS_SIZE],
        answers: Answers::new(),
    };
    let _ = process.take_event(line::events::power_on());
    serve(stdin, to, &mut process)
}

// The most bytes of a card that are read, and of its file's name.
const CARD_MOST: usize = 4096;

// Reads the card that an argument names, and answers events on the line that it sets up.
fn go<R: Env + Files>(rt: &R, stdin: Stdin, to: Outputs) -> Result<(), Told> {
    let mut room = [0u8; CARD_MOST];
    let path = console::argument(rt, 1, &mut room);
    let mut file = console::open_or_tell(rt, to.errors, path)?;
    let mut card = [0u8; CARD_MOST];
    let n = input::read_full(&mut file, &mut card);
    run(stdin, to, &card[..n])
}

fn main(rt: HostRuntime) {
    let to = Outputs {
        out: rt.stdout(),
        errors: rt.stderr(),
    };
    if console::argument_count(&rt) != 2 {
        let _ = eprintln!(to.errors;
            "usage: wire CARDFILE (one argument: a file with the card that sets up the line)"
        );
        return;
    }
    let _ = go(&rt, rt.stdin(), to);
}
