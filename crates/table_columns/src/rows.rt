// Rows of words: row i of a kind has a word of each of its columns.
ghost use Rattle.std.specs.Prelude.{◌≡◌, ◌<◌, ◌≤◌, length};
ghost use Rattle.table_columns.specs.Rows.{after, RowPut, RowRemoved};

use crate::remove_at;

// A kind of rows: column j is the `places` words from base + j * places.
#[derive(Clone, Copy)]
pub struct Kind {
    pub base: usize,
    pub places: usize,
    pub width: usize,
}

// Writes row i.
pub fn store_row(ws: &mut [u64], k: Kind, i: usize, row: &[u64])
    requires { (i < k.places) × (length row.now ≡ k.width) × (after k ≤ length ws.old) }
    ensures { RowPut k i row.now ws.old ws.new }
{
    for (j, &x) in row.iter().enumerate() {
        ws[k.base + j * k.places + i] = x;
    }
}

// Takes row i of the first n out: the rows after it move down by one.
pub fn remove_row(ws: &mut [u64], k: Kind, n: usize, i: usize)
    requires { (i < n) × (n ≤ k.places) × (after k ≤ length ws.old) }
    ensures { RowRemoved k n i ws.old ws.new }
{
    for j in 0..k.width {
        let from = k.base + j * k.places;
        remove_at(&mut ws[from..from + n], i);
    }
}
