// The DS28EC20: its map, and which of its bytes may change.
#![tactic(auto)]

ghost use Rattle.std.specs.Prelude.{◌≡◌};
ghost use Rattle.ds28ec20.specs.Map.{is_data, control_address, lock_address, is_control_or_lock, is_read_only, held, only_falls, closed_to_copying, pad_end};

// The last address that Read Memory reads.
pub const LAST_ADDRESS: u16 = 0x0A3F;

// A reset inside the address of a write sets PF.
pub const CUT_SETS_PF: bool = true;

// A data address.
#[tactic(auto, unfolding(crate::specs::Map::is_data))]
pub fn is_data(a: usize) -> bool
    ensures { result ≡ is_data a }
{
    a < 0x0A00
}

// Where the control byte of an address's block stands.
#[tactic(auto, unfolding(crate::specs::Map::control_address))]
pub fn control_address(a: usize) -> usize
    ensures { result ≡ control_address a }
{
    0x0A00 + a / 256
}

// Where the lock byte that can close a page stands.
#[tactic(auto, using(base::specs::Rules::cases), unfolding(crate::specs::Map::lock_address))]
pub fn lock_address(page: usize) -> usize
    ensures { result ≡ lock_address page }
{
    if is_data(page) { 0x0A1E } else { 0x0A1F }
}

// A control byte or a lock byte.
#[tactic(auto, using(base::specs::Rules::cases), unfolding(crate::specs::Map::is_control_or_lock, base::specs::Pick::pick))]
pub fn is_control_or_lock(a: usize) -> bool
    ensures { result ≡ is_control_or_lock a }
{
    matches!(a, 0x0A00..0x0A0A | 0x0A1E | 0x0A1F)
}

// A read only address.
#[tactic(auto, using(base::specs::Rules::cases), unfolding(crate::specs::Map::is_read_only, base::specs::Pick::pick))]
pub fn is_read_only(a: usize) -> bool
    ensures { result ≡ is_read_only a }
{
    0x0A20 <= a && a < 0x0A40
}

// A byte is held, by itself and its block's control byte.
#[tactic(auto, using(base::specs::Rules::cases), unfolding(crate::specs::Map::held))]
pub fn is_held(a: usize, byte: u8, control: u8) -> bool
    ensures { result ≡ held a byte control }
{
    if is_data(a) {
        control == 0x55
    } else if is_control_or_lock(a) {
        scratchpad::is_mark(byte)
    } else {
        is_read_only(a)
    }
}

// A byte only falls, by its block's control byte.
#[tactic(auto, using(base::specs::Rules::cases), unfolding(crate::specs::Map::only_falls, base::specs::Pick::pick))]
pub fn only_falls(a: usize, control: u8) -> bool
    ensures { result ≡ only_falls a control }
{
    is_data(a) && control == 0xAA
}

// A page is closed to copying, by its control byte and its lock byte.
#[tactic(auto, using(base::specs::Rules::cases), unfolding(crate::specs::Map::closed_to_copying, base::specs::Pick::pick))]
pub fn is_closed(page: usize, control: u8, lock: u8) -> bool
    ensures { result ≡ closed_to_copying page control lock }
{
    if is_data(page) {
        control == 0x55 && scratchpad::is_mark(lock)
    } else if page < 0x0A20 {
        scratchpad::is_mark(lock)
    } else {
        true
    }
}

// The last offset that Read Scratchpad sends.
#[tactic(auto, unfolding(crate::specs::Map::pad_end))]
pub fn pad_end(es: u8) -> u8
    ensures { result ≡ pad_end es }
{
    31
}
