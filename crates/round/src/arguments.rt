// The arguments, taken one option after the other.
use crate::words;
use crate::words::Request;
use std::rt::Env;

// An option, which is the argument of that number, and its value behind it, for which there is room.
fn take_option<E: Env>(
    env: &E,
    r: Request,
    at: usize,
    behind: usize,
    room: &mut [u8],
) -> Option<Request> {
    let mut word = [0u8; words::WORD_MOST];
    words::take(
        r,
        console::argument(env, at, &mut word),
        console::argument(env, behind, room),
        behind,
    )
}

// What all arguments ask for, each put into the room as it is looked at. One that has nothing behind it asks for nothing.
pub fn read<E: Env>(env: &E, room: &mut [u8]) -> Option<Request> {
    let count = console::argument_count(env);
    let mut r = Request::default();
    for at in (1..count).step_by(2) {
        if count - at == 1 {
            return None;
        }
        r = take_option(env, r, at, at + 1, room)?;
    }
    Some(r)
}
