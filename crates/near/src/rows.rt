// The roots near each part as bytes, as the assignment reads them: k for each part, 1 where a root is near.
ghost use Rattle.std.specs.Prelude.{◌*◌, ◌≤◌, length};
ghost use Rattle.near.specs.Rows.{RowPut, RowsPut};

// One part's.
fn put_row(bits: u32, row: &mut [u8])
    ensures { RowPut bits row.old row.new }
{
    let mut rest = bits;
    for byte in row.iter_mut() {
        *byte = (rest % 2) as u8;
        rest /= 2;
    }
}

// Those of all parts, one after the other.
pub fn put_rows(parts: &[u32], k: usize, rows: &mut [u8])
    requires { length parts.now * k ≤ length rows.old }
    ensures { RowsPut k parts.now rows.old rows.new }
{
    for (i, bits) in parts.iter().enumerate() {
        let from = i * k;
        let to = from + k;
        put_row(*bits, &mut rows[from..to]);
    }
}
