// Buckets of words and GUIDs: the same ones share a bucket.
ghost use Rattle.std.specs.Prelude.{◌≡◌, ◌+◌, ◌<◌};
ghost use Rattle.table_columns.specs.Buckets.{guid_bucket, low_bucket, word_bucket};

use kinds::Guid;

// How many there are.
pub const BUCKETS: usize = 4096;

pub fn of_word(x: u64) -> usize
    ensures { (result ≡ word_bucket x) × (result < 4096) }
{
    ((x % 4294967296 * 961217543 + x / 4294967296 * 699039225) / 1048576 % 4096) as usize
}

pub fn of_guid(g: Guid) -> usize
    ensures { (result ≡ guid_bucket g) × (result < 4096) }
{
    of_word(g.low.wrapping_add(g.high))
}

// A second bucket of a GUID, so that two in one bucket are rarely in one by both.
pub fn low_of_guid(g: Guid) -> usize
    ensures { (result ≡ low_bucket g) × (result < 4096) }
{
    (g.low % 4096) as usize
}

// The number of a row in an index: one more, so that 0 is no row's, but 255 for every row from 254 on.
pub fn number_of(row: usize) -> u8
    ensures { (0 < result) × (result < 255 → result ≡ row + 1) }
{
    if row < 254 { (row + 1) as u8 } else { 255 }
}
