// The words of the command line.
use setpoints::Kind;

// What the program is asked to do.
#[derive(Clone, Copy, Debug, PartialEq, Eq)]
pub enum Command {
    // with records of one kind alone, or of either
    Read(Option<Kind>),
    Write(Kind),
}

// Room for a word: what does not fit is none.
pub const WORD_MOST: usize = 8;

// The command that a word names.
pub fn command_of(word: &[u8]) -> Option<Command> {
    match word {
        b"read" => Some(Command::Read(None)),
        b"read101" => Some(Command::Read(Some(Kind::Degrees))),
        b"read102" => Some(Command::Read(Some(Kind::Tenths))),
        b"write101" => Some(Command::Write(Kind::Degrees)),
        b"write102" => Some(Command::Write(Kind::Tenths)),
        _ => None,
    }
}
