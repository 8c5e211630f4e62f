// The cards of the bench.
// A record is its length 000Ah, its kind, and the eight bytes of a code, family first and CRC last.

// One DS28EC20.
pub const MEMORY: [u8; 12] = *b"\x0A\0\x01\0\x43\x01\0\0\0\0\0\xB7";

// Two DS28EC20, the first of them that of the card before.
pub const TWO_MEMORIES: [u8; 24] =
    *b"\x0A\0\x01\0\x43\x01\0\0\0\0\0\xB7\x0A\0\x01\0\x43\x02\0\0\0\0\0\xEE";

// Four of kind 1 with the first bytes of document 002, ROM1 to ROM4, and all other bits 0.
pub const FOUR_CODES: [u8; 48] =
    *b"\x0A\0\x01\0\xAC\0\0\0\0\0\0\0\x0A\0\x01\0\x55\0\0\0\0\0\0\0\x0A\0\x01\0\xAF\0\0\0\0\0\0\0\x0A\0\x01\0\x88\0\0\0\0\0\0\0";

// One of kind 1 whose family is that of a DS2413.
pub const MEMORY_3A: [u8; 12] = *b"\x0A\0\x01\0\x3A\x01\0\0\0\0\0\xA8";

// One DS2413.
pub const SWITCH: [u8; 12] = *b"\x0A\0\x02\0\x3A\x01\0\0\0\0\0\xA8";

// Two DS2413, the first of them that of the card before.
pub const TWO_SWITCHES: [u8; 24] =
    *b"\x0A\0\x02\0\x3A\x01\0\0\0\0\0\xA8\x0A\0\x02\0\x3A\x02\0\0\0\0\0\xF1";

// One of kind 2 whose family is that of a DS28EC20.
pub const SWITCH_43: [u8; 12] = *b"\x0A\0\x02\0\x43\x01\0\0\0\0\0\xB7";
