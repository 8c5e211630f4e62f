// Packed bits: a byte with one bit more.
ghost use Rattle.std.specs.Prelude.{◌≡◌, ◌^◌, ◌<◌, ◌≤◌};
ghost use Rattle.line.specs.Slots.{byte_with};

// What a place of a byte is worth.
fn worth_of(place: u8) -> u64
    requires { place < 8 }
    ensures value { result ≡ 2 ^ place }
    ensures result_nonzero { (0 < result) × (result ≤ 128) }
{
    1 << (place as u64)
}

// A byte with a bit at a place: the bits before it stay, and there are none after it.
pub fn byte_with(byte: u8, place: u8, bit: bool) -> u8
    requires { place < 8 }
    ensures { result ≡ byte_with byte place bit }
{
    let worth = worth_of(place);
    let before = (byte as u64) % worth;
    if bit {
        return (before + worth) as u8;
    }
    before as u8
}
