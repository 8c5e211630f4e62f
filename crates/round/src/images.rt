// The images of the line, where a file of them is named.
use console::{Told, input};
use line::IMAGES_MOST;
use std::io::Stderr;
use std::rt::{Env, Files};

// Room for the images of 16 chips and a byte more, so that all of them are told from what only begins with them.
pub const ROOM: usize = IMAGES_MOST + 1;

// Reads the file that an argument names, for which there is room; how many bytes it has. One that cannot be opened or read is told by its name
// and the system's words.
fn read_file<R: Env + Files>(
    rt: &R,
    errors: Stderr,
    at: usize,
    argument: &mut [u8],
    room: &mut [u8],
) -> Result<usize, Told> {
    let path = console::argument(rt, at, argument);
    let mut file = console::open_or_tell(rt, errors, path)?;
    input::fill(&mut file, errors, path, room)
}

// Reads the file of images into the room, where an argument names one; how many bytes of images are given, if a file of them is.
pub fn load<R: Env + Files>(
    rt: &R,
    errors: Stderr,
    file: Option<usize>,
    argument: &mut [u8],
    room: &mut [u8],
) -> Result<Option<usize>, Told> {
    match file {
        Some(at) => Ok(Some(read_file(rt, errors, at, argument, room)?)),
        None => Ok(None),
    }
}
