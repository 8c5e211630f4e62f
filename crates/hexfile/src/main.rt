// Writes a memory image as an Intel HEX file, or reads such a file: raw bytes on one side, text on the other. The input comes from the file
// that an argument names, or from standard input.
#![tactic(auto)]

mod reading;
mod telling;
mod words;
mod writing;

use console::{Outputs, Told};
use std::io::{Read, Stderr};
use std::rt::{Env, Files};
use words::Way;

// Says how the program is used.
fn say_usage(errors: Stderr) {
    let _ = eprintln!(errors;
        "usage: hexfile write [FILE] | hexfile read [FILE] (without a file from standard input)"
    );
}

// Goes one way with an input.
// Stays a match: each way is generic over the input, which no closure is.
fn go<R: Read>(way: Way, input: &mut R, name: &[u8], to: Outputs) -> Result<(), Told> {
    match way {
        Way::Write => writing::write(input, name, to),
        Way::Read => reading::read(input, name, to),
    }
}

// Goes one way with the file that an argument names; one that cannot be opened is told by its name and the system's words.
fn go_with_file<R: Env + Files>(rt: &R, way: Way, to: Outputs) -> Result<(), Told> {
    let mut room = console::argument_room();
    let path = console::argument(rt, 2, &mut room);
    let mut file = console::open_or_tell(rt, to.errors, path)?;
    go(way, &mut file, path, to)
}

fn main(rt: HostRuntime) {
    let to = Outputs {
        out: rt.stdout(),
        errors: rt.stderr(),
    };
    let mut word = [0u8; words::WORD_MOST];
    let way = words::way_of(console::argument(&rt, 1, &mut word));
    let arguments = console::argument_count(&rt);
    match (way, arguments) {
        (Some(way), 2) => {
            let mut input = rt.stdin();
            let _ = go(way, &mut input, b"standard input", to);
        }
        (Some(way), 3) => {
            let _ = go_with_file(&rt, way, to);
        }
        _ => say_usage(to.errors),
    }
}
