// The library for C: each function of `toemsakun` under its own name, by the C calling convention.
// Stays a function beside each of `toemsakun`: the C interface names them.
#![tactic(auto)]

ghost use Rattle.std.specs.Prelude.{◌≡◌, ◌≤◌};
ghost use Rattle.line.specs.Layout.{images_most, pads_most};
ghost use Rattle.line.specs.Events.{event_with};
ghost use Rattle.toemsakun.specs.Library.{table_size, images_bytes, pads_bytes, card_left, card_bytes, event_left, event_bytes, slots_left, slots_bytes, search_left, search_bytes};

// The bytes of a table of so many chips, of at most 16.
#[unsafe(no_mangle)]
pub extern "C" fn tk_table_size(chips: usize) -> usize
    ensures { result ≡ table_size chips }
{
    toemsakun::tk_table_size(chips)
}

// The bytes of images to lend with a table.
#[unsafe(no_mangle)]
pub extern "C" fn tk_images_size(table: &[u8]) -> usize
    ensures value { result ≡ images_bytes table.now }
    ensures most { result ≤ images_most }
{
    toemsakun::tk_images_size(table)
}

// The bytes of scratchpads to lend with a table.
#[unsafe(no_mangle)]
pub extern "C" fn tk_pads_size(table: &[u8]) -> usize
    ensures value { result ≡ pads_bytes table.now }
    ensures most { result ≤ pads_most }
{
    toemsakun::tk_pads_size(table)
}

// Set-up from a card.
#[unsafe(no_mangle)]
pub extern "C" fn tk_card(card: &[u8], table: &mut [u8], offset: &mut usize) -> i32
    ensures { card_left result table.new offset.new ≡ card_bytes card.now table.old }
{
    toemsakun::tk_card(card, table, offset)
}

// One event.
#[unsafe(no_mangle)]
pub extern "C" fn tk_event(
    table: &mut [u8],
    event: u32,
    chip: u32,
    outside: u32,
    images: &mut [u8],
    pads: &mut [u8],
) -> i32
    ensures { event_left result table.new images.new pads.new
        ≡ event_bytes table.old (event_with event chip outside) images.old pads.old }
{
    toemsakun::tk_event(table, event, chip, outside, images, pads)
}

// A run of slots.
#[unsafe(no_mangle)]
pub extern "C" fn tk_slots(
    table: &mut [u8],
    bits: &[u8],
    answers: &mut [u8],
    slots: usize,
    images: &mut [u8],
    pads: &mut [u8],
) -> i32
    ensures { slots_left result answers.new table.new images.new pads.new
        ≡ slots_bytes table.old bits.now answers.old slots images.old pads.old }
{
    toemsakun::tk_slots(table, bits, answers, slots, images, pads)
}

// Search.
#[unsafe(no_mangle)]
pub extern "C" fn tk_search(
    table: &mut [u8],
    list: &mut [u64],
    images: &mut [u8],
    pads: &mut [u8],
    resets: &mut u64,
    slots: &mut u64,
) -> i32
    ensures { search_left result list.new table.new images.new pads.new resets.new slots.new
        ≡ search_bytes table.old list.old images.old pads.old }
{
    toemsakun::tk_search(table, list, images, pads, resets, slots)
}
