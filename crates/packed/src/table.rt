// A table as a run of records, and back.
ghost use Rattle.std.specs.Prelude.{◌≡◌, ◌*◌, ◌/◌, ◌≤◌, length};
ghost use Rattle.packed.specs.Packed.{record_size, table_from, put_table};
ghost use Rattle.packed.specs.Filling.{filled};

use crate::{RECORD_SIZE, record};
use line::Table;

// The table whose n chips the bytes are, in the first places of a table, where they are the records that these pack to.
fn fill(bytes: &[u8], t: Table, n: usize) -> Option<Table>
    requires { (n ≤ 16) × (n ≡ length bytes.now / record_size) }
    ensures { result ≡ filled n bytes.now t }
{
    let mut chips = t.chips;
    for i in 0..n {
        let at = i * RECORD_SIZE;
        let end = at + RECORD_SIZE;
        let c = record::unpack(&bytes[at..end]);
        let good = record::is_packed(c, &bytes[at..end]);
        if !good {
            return None;
        }
        chips[i] = c;
    }
    if bytes.len() == n * RECORD_SIZE {
        return Some(Table { n: n, chips: chips });
    }
    None
}

// The table that bytes are, in the first places of a table; bytes that are none, or over 16 records, leave it as it was.
pub fn table_of(bytes: &[u8], t: Table) -> Table
    ensures { result ≡ table_from bytes.now t }
{
    let n = bytes.len() / RECORD_SIZE;
    if n <= 16 {
        return fill(bytes, t, n).unwrap_or(t);
    }
    t
}

// The chips of a table as records in the first bytes, which they have room in.
fn put_all(bytes: &mut [u8], t: Table)
    requires { (t.n ≤ 16) × (t.n * record_size ≤ length bytes.old) }
    ensures { bytes.new ≡ put_table t.n t.chips bytes.old }
{
    for i in 0..t.n {
        let at = i * RECORD_SIZE;
        let end = at + RECORD_SIZE;
        record::put_record(&mut bytes[at..end], t.chips[i]);
    }
}

// The chips of a table as records in the first bytes; where there are fewer bytes, or over 16 chips, nothing is put.
pub fn put_table(bytes: &mut [u8], t: Table)
    ensures { bytes.new ≡ put_table t.n t.chips bytes.old }
{
    if t.n <= 16 && t.n * RECORD_SIZE <= bytes.len() {
        put_all(bytes, t);
    }
}
