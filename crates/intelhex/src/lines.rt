// Where the line that a text begins with ends.
ghost use Rattle.std.specs.Prelude.{◌≡◌, ◌==◌, position};
ghost use Rattle.intelhex.specs.Written.{line_feed};
ghost use Rattle.intelhex.specs.Lines.{without_return, standing};

use crate::LINE_FEED;

// CR, which may stand before LF.
const CARRIAGE_RETURN: u8 = 0x0D;

// The most characters of a line in form, its end among them: a colon, two digits for each of 260 bytes, CR and LF.
const LINE_MOST: usize = 523;

// What a text begins with.
#[derive(Clone, Copy)]
pub enum Standing {
    // nothing
    Nothing,
    // the beginning of a line, of which more may come
    Unended,
    // more characters without an LF than any line in form has
    Endless,
    // a line: how many characters it has, and how many it takes up with its end
    Line { characters: usize, size: usize },
}

// How many characters stand before the first LF, if there is one.
fn before_end(text: &[u8]) -> Option<usize>
    ensures { result ≡ position (λ c. c == line_feed) text.now }
{
    text.iter().position(|c| *c == LINE_FEED)
}

// How many characters a line has, of so many before its LF: a CR right before the LF belongs to the line's end.
#[tactic(auto, unfolding(crate::specs::Lines::without_return, base::specs::Pick::pick))]
fn without_return(text: &[u8], n: usize) -> usize
    ensures { result ≡ without_return text.now n }
{
    if n != 0 && base::byte_at(text, n - 1) == CARRIAGE_RETURN {
        return n - 1;
    }
    n
}

// What a text begins with.
pub fn standing_in(text: &[u8]) -> Standing
    ensures { result ≡ standing text.now }
{
    let first = &text[..text.len().min(LINE_MOST)];
    match before_end(first) {
        Some(n) => Standing::Line {
            characters: without_return(text, n),
            size: n + 1,
        },
        None if text.is_empty() => Standing::Nothing,
        None if text.len() < LINE_MOST => Standing::Unended,
        None => Standing::Endless,
    }
}
