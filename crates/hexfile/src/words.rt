// The words of the command line.

// Which way an image goes.
#[derive(Clone, Copy)]
pub enum Way {
    Write,
    Read,
}

// Room for a word: what does not fit is none.
pub const WORD_MOST: usize = 5;

// The way that a word names.
pub fn way_of(word: &[u8]) -> Option<Way> {
    match word {
        b"write" => Some(Way::Write),
        b"read" => Some(Way::Read),
        _ => None,
    }
}
