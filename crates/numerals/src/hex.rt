// Bytes in hexadecimal digits, in capitals.
ghost use Rattle.std.specs.Prelude.{[], ◌∷◌, ◌≡◌, ◌%◌};
ghost use Rattle.std.proofs.lemmas.List.Edits.{sets};
ghost use Rattle.numerals.specs.Hex.{digit, digits_of};
ghost use Rattle.numerals.specs.Spelling.{behind};

// The digit of the lowest four bits of a number.
#[tactic(auto, using(base::specs::Rules::cases), unfolding(crate::specs::Hex::digit))]
pub fn digit_of(n: u8) -> u8
    ensures { result ≡ digit (n % 16) }
{
    let low = n % 16;
    if low < 10 {
        b'0' + low
    } else {
        b'A' + (low - 10)
    }
}

// The two digits of a byte put into a text at a place, and the place behind them; past the end of the text nothing is put, and the place stays.
#[tactic(auto, using(base::specs::Rules::cases, crate::specs::Spelling::byte_steps), unfolding(crate::specs::Spelling::behind))]
fn put_byte(b: u8, text: &mut [u8], at: usize) -> usize
    ensures text_after { text.new ≡ sets text.old at (digits_of (b ∷ [])) }
    ensures value { result ≡ behind text.old at }
{
    if at < text.len() {
        base::put_at(text, at, digit_of(b / 16));
        base::put_at(text, at + 1, digit_of(b));
        return at + 2;
    }
    at
}

// The digits of bytes put into a text from a place on; past its end nothing is put.
#[tactic(auto, using(crate::specs::Spelling::spelt_next))]
pub fn put_digits(bytes: &[u8], text: &mut [u8], at: usize)
    ensures { text.new ≡ sets text.old at (digits_of bytes.now) }
{
    let mut to = at;
    for b in bytes {
        to = put_byte(*b, text, to);
    }
}
