// The host's way through the pages: a match, Read Memory from 0000h, and 32 bytes, for each code listed that is borne.
ghost use Rattle.std.specs.Prelude.{◌≡◌, [], ◌≤◌, length};
ghost use Rattle.std.proofs.lemmas.List.Edits.{sets};
ghost use Rattle.line.specs.Attached.{attached};
ghost use Rattle.search.specs.Host.{played, play, write};
ghost use Rattle.search.specs.Search.{wire, played_write};
ghost use Rattle.rounds.specs.Borne.{borne_in, only_borne, page_size, pages_most};
ghost use Rattle.rounds.specs.Host.{read_bits, read_bytes, read_page, read_pages};

use crate::{PAGE_SIZE, borne};
use base::Register;
use chip::Chip;
use line::Table;

// Eight read slots.
fn read_byte(t: &mut Table, ms: &mut [u8], ss: &mut [u8]) -> u8
    ensures { played result (attached t.new.n t.new.chips ms.new ss.new) 0 8
        ≡ play wire (read_bits 8 0) (attached t.old.n t.old.chips ms.old ss.old) }
{
    let mut byte: u8 = 0;
    for _ in 0..8u8 {
        byte = byte.filled(search::slot(t, true, ms, ss));
    }
    byte
}

// The bytes of a page, put into the page buffer from a place on.
fn read_bytes(t: &mut Table, pages: &mut [u8], at: usize, ms: &mut [u8], ss: &mut [u8])
    requires { at ≤ pages_most }
    ensures { (pages.new ≡ sets pages.old at (play wire (read_bytes page_size []) (attached t.old.n t.old.chips ms.old ss.old)).result)
        × (attached t.new.n t.new.chips ms.new ss.new ≡ (play wire (read_bytes page_size []) (attached t.old.n t.old.chips ms.old ss.old)).line) }
{
    for i in 0..PAGE_SIZE {
        let byte = read_byte(t, ms, ss);
        base::put_at(pages, at + i, byte);
    }
}

// The eight bytes of a code, the least significant first.
fn write_code(t: &mut Table, code: u64, ms: &mut [u8], ss: &mut [u8])
    ensures { played_write (attached t.new.n t.new.chips ms.new ss.new) 64
        ≡ play wire (write 64 0 code) (attached t.old.n t.old.chips ms.old ss.old) }
{
    let mut rest = code;
    for _ in 0..8u8 {
        search::write_byte(t, (rest % 256) as u8, ms, ss);
        rest /= 256;
    }
}

// A page of the chips that have a code, put into the page buffer from a place on.
fn read_page(t: &mut Table, code: u64, pages: &mut [u8], at: usize, ms: &mut [u8], ss: &mut [u8])
    requires { at ≤ pages_most }
    ensures { (pages.new ≡ sets pages.old at (play wire (read_page code) (attached t.old.n t.old.chips ms.old ss.old)).result)
        × (attached t.new.n t.new.chips ms.new ss.new ≡ (play wire (read_page code) (attached t.old.n t.old.chips ms.old ss.old)).line) }
{
    search::reset(t, ms, ss);
    search::write_byte(t, 0x55, ms, ss);
    write_code(t, code, ms, ss);
    search::write_byte(t, 0xF0, ms, ss);
    search::write_byte(t, 0x00, ms, ss);
    search::write_byte(t, 0x00, ms, ss);
    read_bytes(t, pages, at, ms, ss);
}

// The pages of the codes listed that are borne by chips, from the first place of the page buffer on; how many they are.
pub fn read_pages(
    chips: &[Chip],
    t: &mut Table,
    listed: &[u64],
    pages: &mut [u8],
    ms: &mut [u8],
    ss: &mut [u8],
) -> u64
    requires { length listed.now ≤ 16 }
    ensures pages_after { (pages.new ≡ sets pages.old 0 (play wire (read_pages (only_borne (borne_in chips.now) listed.now) []) (attached t.old.n t.old.chips ms.old ss.old)).result)
        × (attached t.new.n t.new.chips ms.new ss.new ≡ (play wire (read_pages (only_borne (borne_in chips.now) listed.now) []) (attached t.old.n t.old.chips ms.old ss.old)).line) }
    ensures pages_value { (result ≡ length (only_borne (borne_in chips.now) listed.now)) × (result ≤ 16) }
{
    let mut count = 0;
    let mut at = 0;
    for code in listed {
        if borne::is_borne(chips, *code) {
            read_page(t, *code, pages, at, ms, ss);
            count += 1;
            at += PAGE_SIZE;
        }
    }
    count
}
