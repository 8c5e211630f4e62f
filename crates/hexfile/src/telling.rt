// What is told on standard error.
use std::fmt;
use std::fmt::{Display, Write};
use std::io::Stderr;

// Standard error, to which each piece of a text goes by itself.
#[derive(Drop)]
struct Pieces {
    errors: Stderr,
}

impl Write for Pieces {
    // A piece that cannot be written is passed over: there is no place to tell it, and the next one is tried.
    fn write_str(&mut self, s: &str) -> fmt::Result {
        console::tell(self.errors, s.as_bytes());
        Ok(())
    }
}

// Tells words, each piece of them even where one before it was not written.
pub fn tell<D: Display + Drop>(errors: Stderr, words: D) {
    let _ = Pieces { errors }.write(words);
}
