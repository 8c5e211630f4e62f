// A table by value for chips that stand in another form: they are gathered in it, and put back from it.
ghost use Rattle.std.specs.Prelude.{◌≡◌};
ghost use Rattle.line.specs.Tables.{blank_table, joined, chip_for};

use crate::Table;
use chip::Chip;

// Sixteen empty places, said to hold n chips: a table to be filled, or with 17 one that every call refuses.
pub fn blank(n: usize) -> Table
    ensures { result ≡ blank_table n }
{
    let place = chip::set_up(0, 0);
    Table {
        n: n,
        chips: [place; 16],
    }
}

// A table with one chip more. There is no place for a 17th: the table then counts 17, and every call refuses it.
pub fn with_chip(t: Table, c: Chip) -> Table
    ensures { result ≡ joined c t }
{
    let n = t.n;
    let mut chips = t.chips;
    if n < 16 {
        chips[n] = c;
        return Table {
            n: n + 1,
            chips: chips,
        };
    }
    Table {
        n: 17,
        chips: chips,
    }
}

// What a place of another form holds once a table is put back: the table's chip, or what was there.
pub fn chip_for(t: Table, place: usize, c: Chip) -> Chip
    ensures { result ≡ chip_for t place c }
{
    let n = t.n;
    let chips = t.chips;
    if n <= 16 {
        if place < n {
            return chips[place];
        }
    }
    c
}
