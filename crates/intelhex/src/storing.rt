// Bytes stored in a slice: data in an image, and a record's data in the record.
ghost use Rattle.std.specs.Prelude.{◌≡◌, ◌+◌, ◌≤◌, length};
ghost use Rattle.std.proofs.lemmas.List.Edits.{sets};

// Bytes put into a slice from a place on; past its end there is none, and nothing is put. Places stay far below what a word holds: an address
// has 16 bits, and no more bytes than an image's are put at once.
pub fn put_bytes(bytes: &[u8], slice: &mut [u8], at: usize)
    requires { at + length bytes.now ≤ 0x20000 }
    ensures { slice.new ≡ sets slice.old at bytes.now }
{
    for (i, byte) in bytes.iter().enumerate() {
        base::put_at(slice, at + i, *byte);
    }
}
