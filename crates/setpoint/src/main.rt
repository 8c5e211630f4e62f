// Reads or writes the setpoint record of the page on standard input: a reader writes the setpoint in tenths, a writer the page with its
// new record, and either the number of a refusal.
#![tactic(auto)]

mod words;

use console::{Outputs, Told, input};
use setpoints::{Fault, Kind};
use std::io::{Stderr, Stdin};
use std::rt::Env;
use words::Command;

// The most that is read: one byte more than a page has, so that a page is told from what only begins with one.
const BYTES_MOST: usize = setpoints::PAGE_SIZE + 1;

// Says how the program is used.
fn say_usage(errors: Stderr) {
    let _ = eprintln!(errors;
        "usage: setpoint read | read101 | read102 | write101 DEGREES | write102 TENTHS, with the page on standard input"
    );
}

// Writes what a reader answered.
fn say_reading(to: Outputs, answer: Result<i64, Fault>) {
    match answer {
        Ok(tenths) => {
            let sign: &[u8] = if tenths < 0 { b"-" } else { b"" };
            console::say_line(to, sign, numerals::magnitude(tenths));
        }
        Err(fault) => console::say_refused(to, setpoints::number_of(fault)),
    }
}

// Reads the page, and writes what its reader answers: the one of a kind, or the one of either.
fn read(mut input: Stdin, to: Outputs, kind: Option<Kind>) -> Result<(), Told> {
    let mut bytes = [0u8; BYTES_MOST];
    let n = input::fill(&mut input, to.errors, b"standard input", &mut bytes)?;
    let page = &bytes[..n];
    let answer = match kind {
        Some(kind) => setpoints::read(kind, page),
        None => setpoints::read_either(page),
    };
    say_reading(to, answer);
    Ok(())
}

// Reads the page, and writes the page that its writer leaves, or the refusal.
fn write(mut input: Stdin, to: Outputs, kind: Kind, value: i64) -> Result<(), Told> {
    let mut bytes = [0u8; BYTES_MOST];
    let n = input::fill(&mut input, to.errors, b"standard input", &mut bytes)?;
    let page = &mut bytes[..n];
    match setpoints::write(kind, page, value) {
        Ok(()) => to.write(page),
        Err(fault) => {
            console::say_refused(to, setpoints::number_of(fault));
            Ok(())
        }
    }
}

// Writes the value that an argument says. Apart from `main`, so that a run that reads has no room for an argument to fill with zeros.
fn write_said<E: Env>(env: &E, input: Stdin, to: Outputs, kind: Kind) {
    let mut text = console::argument_room();
    match numerals::read_number(console::argument(env, 2, &mut text)) {
        Some(value) => {
            let _ = write(input, to, kind, value);
        }
        None => say_usage(to.errors),
    }
}

fn main(rt: HostRuntime) {
    let input = rt.stdin();
    let to = Outputs {
        out: rt.stdout(),
        errors: rt.stderr(),
    };
    let mut word = [0u8; words::WORD_MOST];
    let command = words::command_of(console::argument(&rt, 1, &mut word));
    let count = console::argument_count(&rt);
    match command {
        Some(Command::Read(kind)) if count == 2 => {
            let _ = read(input, to, kind);
        }
        Some(Command::Write(kind)) if count == 3 => write_said(&rt, input, to, kind),
        _ => say_usage(to.errors),
    }
}
