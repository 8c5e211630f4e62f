// What a program uses at a terminal, whatever it is about: counts that do not wrap, its arguments and room for one, the files that they name, and
// what is written on standard output and told on standard error.
#![tactic(auto)]

pub mod input;

ghost use Rattle.std.specs.Prelude.{◌≡◌, ◌-◌, ◌≤◌, length, replicate, pos, Some, IsErr, IsErrAnd, IsUtf8};
ghost use Rattle.std.specs.IoError.{raw_os_error};
ghost use Rattle.base.specs.Pick.{pick};
ghost use Rattle.console.specs.Counting.{counted_on};
ghost use Rattle.console.specs.Room.{argument_most};

use std::env::FillError;
use std::fmt::Display;
use std::fs::File;
use std::io::{Cursor, Stderr, Stdout, Write};
use std::rt::{Env, Files};
use std::{io, str};

// The turns that are left after one: none where it was the last.
// Stays, though the programs' loops count no turns by hand: theorem console_turns_left of crate coincide is about this function.
#[tactic(auto, unfolding(base::specs::Pick::pick))]
pub fn turns_left(turns: u64, on: bool) -> u64
    ensures value { result ≡ pick on (turns - 1) 0 }
    ensures fewer { result ≤ turns - 1 }
{
    if on { turns.saturating_sub(1) } else { 0 }
}

// A count with so many more. It stays at the largest number of 64 bits, to which no input comes.
pub fn count_on(count: u64, more: usize) -> u64
    ensures { result ≡ counted_on count more }
{
    count.saturating_add(more as u64)
}

// Room for the longest argument that Linux hands over on x86-64, which has 131,071 characters.
pub const ARGUMENT_MOST: usize = 131072;

// That room.
pub fn argument_room() -> [u8; ARGUMENT_MOST]
    ensures value { result ≡ replicate argument_most 0 }
    ensures argument_most_value { argument_most ≡ length result }
{
    [0; ARGUMENT_MOST]
}

// How many arguments the program was started with, its own name among them.
pub fn argument_count<E: Env>(env: &E) -> usize {
    (0..usize::MAX)
        .position(|n| !is_argument(env, n))
        .unwrap_or(usize::MAX)
}

// Whether there is an argument of that number.
fn is_argument<E: Env>(env: &E, at: usize) -> bool {
    !matches!(env.arg(at, &mut []), Err(FillError::NotPresent))
}

// An argument, put at the start of a buffer. One that is missing or longer than the buffer is empty.
pub fn argument<'a, E: Env>(env: &E, at: usize, bytes: &'a mut [u8]) -> &'a [u8]
    ensures { length result.now ≤ length bytes.old }
{
    let n = env.arg(at, bytes).unwrap_or(0);
    &bytes[..n]
}

// Where a program writes: standard output, and standard error for what it tells.
#[derive(Clone, Copy)]
pub struct Outputs {
    pub out: Stdout,
    pub errors: Stderr,
}

// A failure that was told: nothing is left to say of it.
#[derive(Clone, Copy, PartialEq, Eq, Debug)]
pub struct Told;

impl Told {
    // Tells what failed, by its name and the system's words.
    fn failure(errors: Stderr, name: &[u8], why: io::Error) -> Told {
        tell_failed(errors, name, why);
        Told
    }
}

impl Outputs {
    // What became of a write on standard output. A failure is told in the system's words.
    fn checked(self, written: io::Result<()>) -> Result<(), Told> {
        written.map_err(|why| Told::failure(self.errors, b"standard output", why))
    }

    // Writes bytes on standard output.
    pub fn write(self, bytes: &[u8]) -> Result<(), Told> {
        self.checked(Print::write_all(&self.out, bytes))
    }

    // Writes a text or a number on standard output.
    pub fn print<D: Display + Drop>(self, value: D) -> Result<(), Told> {
        self.checked(self.out.print(value))
    }

    // Writes a line: a text, and a number after it, each part by itself.
    fn write_line(self, before: &[u8], n: u64) -> Result<(), Told> {
        self.write(before)?;
        self.print(n)?;
        self.write(b"\n")
    }
}

// Tells words on standard error. There is no place to tell what cannot be written there.
pub fn tell(errors: Stderr, words: &[u8]) {
    let _ = Print::write_all(&errors, words);
}

// Tells a number, in decimal digits.
pub fn tell_number(errors: Stderr, n: u64) {
    let _ = errors.print(n);
}

// The system's words in a text that ends with the number of an error.
fn words_in(text: &str) -> &str {
    match text.split_once(" (os error ") {
        Some((words, _)) => words,
        None => text,
    }
}

// Tells what failed, by its name and the system's words.
pub fn tell_failed(errors: Stderr, name: &[u8], why: io::Error) {
    let mut room = Cursor::new([0u8; 512]);
    let _ = write!(room, "{why}");
    let place = room.position() as usize;
    let text = room.into_inner();
    let n = input::within(place, &text);
    let words = str::from_utf8(&text[..n]).map_or("", words_in);
    // Each part is tried even where one before it was not written.
    tell(errors, name);
    tell(errors, b": ");
    tell(errors, words.as_bytes());
    tell(errors, b"\n");
}

// The system's number for a path that leads to no file.
const NO_FILE: i32 = 2;

// Opens the file that a path names. The standard library's paths are text in UTF-8: a path that is none leads to no file here.
pub fn open<R: Files>(files: &R, path: &[u8]) -> io::Result<R::File>
    ensures { ¬ (IsUtf8 path.now) → IsErrAnd result (λ e. raw_os_error e ≡ Some (pos 2)) }
{
    match str::from_utf8(path) {
        Ok(text) => File::open(files, text),
        Err(_) => Err(io::Error::from_raw_os_error(NO_FILE)),
    }
}

// Opens the file that a path names. Why it cannot be opened is told by the path and the system's words.
pub fn open_or_tell<R: Files>(files: &R, errors: Stderr, path: &[u8]) -> Result<R::File, Told>
    ensures { ¬ (IsUtf8 path.now) → IsErr result }
{
    open(files, path).map_err(|why| Told::failure(errors, path, why))
}

// Writes a line: a text, and a number after it.
pub fn say_line(to: Outputs, before: &[u8], n: u64) {
    let _ = to.write_line(before, n);
}

// Writes `refused R`.
pub fn say_refused(to: Outputs, number: u8) {
    say_line(to, b"refused ", number as u64);
}
