// The words of the command line: what each argument asks for.
ghost use Rattle.std.specs.Prelude.{◌≡◌};
ghost use Rattle.numerals.specs.Numerals.{digits_in};
ghost use Rattle.numerals.specs.Numerals.{counted_by};
ghost use Rattle.round.specs.Words.{word_of, once, taken};

// An option.
#[derive(Clone, Copy, Debug, PartialEq, Eq)]
pub enum Word {
    Images,
    Places,
    Pages,
}

// What is asked for: which argument names the file of images, how many places there are, and how many bytes of pages.
#[derive(Clone, Copy, Debug, Default, PartialEq, Eq)]
pub struct Request {
    pub images: Option<usize>,
    pub places: Option<usize>,
    pub pages: Option<usize>,
}

// The words of the options.
const IMAGES: &[u8] = b"--images";

const PLACES: &[u8] = b"--places";

const PAGES: &[u8] = b"--pages";

// Room for an option: what does not fit is none.
pub const WORD_MOST: usize = 8;

// The most bytes of pages that may be given.
pub const PAGES_GIVEN_MOST: usize = 1024;

// The option that a word is.
#[tactic(auto, using(base::specs::Rules::cases, base::specs::BytesLaw::same_pointwise), unfolding(crate::specs::Words::word_of))]
fn word_of(word: &[u8]) -> Option<Word>
    ensures { result ≡ word_of word.now }
{
    if word == IMAGES {
        return Some(Word::Images);
    }
    if word == PLACES {
        return Some(Word::Places);
    }
    if word == PAGES {
        return Some(Word::Pages);
    }
    None
}

// The number that a text says, where it has digits and nothing else.
fn number_in(text: &[u8]) -> Option<usize>
    ensures { result ≡ counted_by (digits_in text.now) }
{
    let n = numerals::read_digits(text)?;
    Some(n as usize)
}

// What is given of an option of which something may have been given before: an option may stand once.
fn once_given(before: Option<usize>, given: Option<usize>) -> Option<usize>
    ensures { result ≡ once before given }
{
    match before {
        None => given,
        Some(_) => None,
    }
}

// A word and its value, which is the argument of that number, asked for as well.
#[tactic(auto, using(base::specs::Rules::cases))]
pub fn take(r: Request, word: &[u8], value: &[u8], at: usize) -> Option<Request>
    ensures { result ≡ taken r (word_of word.now) value.now at }
{
    match word_of(word)? {
        Word::Images => {
            let images = once_given(r.images, Some(at))?;
            Some(Request {
                images: Some(images),
                ..r
            })
        }
        Word::Places => {
            let places = once_given(r.places, number_in(value))?;
            Some(Request {
                places: Some(places),
                ..r
            })
        }
        Word::Pages => {
            let pages = once_given(r.pages, number_in(value))?;
            if PAGES_GIVEN_MOST < pages {
                return None;
            }
            Some(Request {
                pages: Some(pages),
                ..r
            })
        }
    }
}
