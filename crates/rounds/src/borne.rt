// Which codes a DS28EC20 bears, read off the chips of a table.
ghost use Rattle.std.specs.Prelude.{◌≡◌, ◌≤◌, length};
ghost use Rattle.base.specs.Once.{is_in, distinct_in};
ghost use Rattle.rounds.specs.Borne.{bears_code, borne_in, pages_most, pages_asked};

use crate::PAGE_SIZE;
use chip::Chip;
use line::Table;

// A chip is a DS28EC20 and bears the code.
fn bears(c: Chip, code: u64) -> bool
    ensures { result ≡ bears_code code c.kind c.code }
{
    chip::kinds::is_ds28ec20(c.kind) && code == c.code
}

// A DS28EC20 of these chips bears the code.
pub fn is_borne(chips: &[Chip], code: u64) -> bool
    ensures { result ≡ is_in code (borne_in chips.now) }
{
    chips.iter().any(|c| bears(*c, code))
}

// How many codes the DS28EC20s of these chips bear; one that chips share counts at the last of them.
fn count_borne(chips: &[Chip]) -> usize
    ensures value { result ≡ distinct_in (borne_in chips.now) }
    ensures upper_bound { result ≤ length chips.now }
{
    let mut codes = 0;
    for (i, c) in chips.iter().enumerate() {
        if chip::kinds::is_ds28ec20(c.kind) && !is_borne(&chips[i + 1..], c.code) {
            codes += 1;
        }
    }
    codes
}

// The bytes of pages that a table asks for, a page for each code that a DS28EC20 bears; 0 where it has over 16 chips.
pub fn pages_asked(t: Table) -> usize
    ensures value { result ≡ pages_asked t.n t.chips }
    ensures most { result ≤ pages_most }
{
    match t.chips.get(..t.n) {
        Some(chips) => PAGE_SIZE * count_borne(chips),
        None => 0,
    }
}
