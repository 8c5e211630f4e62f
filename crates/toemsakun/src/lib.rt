// The line as C sees it: include/toemsakun.h has the promises, and `toemsakun_c` makes the static library.
#![tactic(auto)]

mod answers;
mod event;
mod loops;
mod runs;
mod slots;

ghost use Rattle.std.specs.Prelude.{◌≡◌, ◌≤◌};
ghost use Rattle.line.specs.Layout.{images_most, pads_most};
ghost use Rattle.line.specs.Events.{event_with};
ghost use Rattle.packed.specs.Packed.{table_from};
ghost use Rattle.toemsakun.specs.Laws.{no_table};
ghost use Rattle.toemsakun.specs.Library.{table_size, images_bytes, pads_bytes, card_left, card_bytes, event_left, event_bytes, slots_left, slots_bytes, search_left, search_bytes};

use line::Table;
use packed::RECORD_SIZE;

// The table that bytes are, or one that every call refuses.
fn unpack(table: &[u8]) -> Table
    ensures { result ≡ table_from table.now no_table }
{
    let none = line::tables::blank(17);
    packed::table_of(table, none)
}

// The bytes of a table of so many chips, of at most 16.
pub fn tk_table_size(chips: usize) -> usize
    ensures { result ≡ table_size chips }
{
    let n = line::used_places(chips);
    n * RECORD_SIZE
}

// The bytes of images to lend with a table.
pub fn tk_images_size(table: &[u8]) -> usize
    ensures value { result ≡ images_bytes table.now }
    ensures most { result ≤ images_most }
{
    let t = unpack(table);
    line::images_asked(t)
}

// The bytes of scratchpads to lend with a table.
pub fn tk_pads_size(table: &[u8]) -> usize
    ensures value { result ≡ pads_bytes table.now }
    ensures most { result ≤ pads_most }
{
    let t = unpack(table);
    line::pads_asked(t)
}

// Set-up from a card.
pub fn tk_card(card: &[u8], table: &mut [u8], offset: &mut usize) -> i32
    ensures { card_left result table.new offset.new ≡ card_bytes card.now table.old }
{
    let none = line::tables::blank(0);
    let up = card::set_up(card, table.len() / RECORD_SIZE, none);
    let answer = up.answer;
    let t = up.table;
    packed::put_table(table, t);
    *offset = answers::offset_of(answer);
    answers::of_card(answer, t.n)
}

// One event.
pub fn tk_event(
    table: &mut [u8],
    event: u32,
    chip: u32,
    outside: u32,
    images: &mut [u8],
    pads: &mut [u8],
) -> i32
    ensures { event_left result table.new images.new pads.new
        ≡ event_bytes table.old (event_with event chip outside) images.old pads.old }
{
    let e = line::events::numbered(event, chip, outside);
    let answer = event::take_event(table, e, images, pads);
    answers::of_event(answer)
}

// A run of slots.
pub fn tk_slots(
    table: &mut [u8],
    bits: &[u8],
    answers: &mut [u8],
    slots: usize,
    images: &mut [u8],
    pads: &mut [u8],
) -> i32
    ensures { slots_left result answers.new table.new images.new pads.new
        ≡ slots_bytes table.old bits.now answers.old slots images.old pads.old }
{
    let answer = runs::take_slots(table, bits, answers, slots, images, pads);
    answers::of_slots(answer)
}

// Search.
pub fn tk_search(
    table: &mut [u8],
    list: &mut [u64],
    images: &mut [u8],
    pads: &mut [u8],
    resets: &mut u64,
    slots: &mut u64,
) -> i32
    ensures { search_left result list.new table.new images.new pads.new resets.new slots.new
        ≡ search_bytes table.old list.old images.old pads.old }
{
    let t = unpack(table);
    let f = search::search_line(t, list, images, pads);
    let answer = f.answer;
    let after = f.table;
    let put = f.resets;
    let used = f.slots;
    packed::put_table(table, after);
    *resets = put.0;
    *slots = used.0;
    answers::of_search(answer, f.listed)
}
