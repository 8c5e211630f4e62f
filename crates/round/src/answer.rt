// What the program writes of a round.
ghost use Rattle.std.specs.Prelude.{◌≡◌, length};
ghost use Rattle.rounds.specs.Borne.{page_size};
ghost use Rattle.round.specs.Pages.{page_line};

use console::{Outputs, Told};
use numerals::hex;
use rounds::PAGE_SIZE;
use search::Found;

// The characters of a page's line.
const LINE_SIZE: usize = 65;

// The line of a page: its digits, and LF.
fn page_line(page: &[u8]) -> [u8; LINE_SIZE]
    requires { length page.now ≡ page_size }
    ensures { result ≡ page_line page.now }
{
    let mut text = [b'\n'; LINE_SIZE];
    hex::put_digits(page, &mut text, 0);
    text
}

// Writes the pages and the counts, and why the round was refused, if it was; then it has no pages.
fn write_round(to: Outputs, found: Found, pages: &[u8]) -> Result<(), Told> {
    if found.answer.is_ok() {
        for page in pages.chunks_exact(PAGE_SIZE) {
            to.write(&page_line(page))?;
        }
    }
    let (codes, resets, slots) = (found.listed, found.resets.0, found.slots.0);
    to.print(codes)?;
    to.write(b" codes ")?;
    to.print(resets)?;
    to.write(b" resets ")?;
    to.print(slots)?;
    to.write(b" slots\n")?;
    if found.answer.is_err() {
        console::say_refused(to, search::number_of(found.answer));
    }
    Ok(())
}

// Writes the codes listed, the pages, the counts, and why the round was refused, if it was; then it has no pages. What cannot be written is told
// once.
pub fn write(to: Outputs, found: Found, list: &[u64], pages: &[u8]) {
    terminal::write_codes(to.out, list, found.listed);
    let _ = write_round(to, found, pages);
}
