// Columns: slices of one word for each row.
#![tactic(auto)]

pub mod buckets;
pub mod members;
pub mod order;
pub mod rows;

ghost use Rattle.std.specs.Prelude.{◌≡◌, false, ◌+◌, ◌-◌, ◌≤◌, length, not, leb, take, drop, nat_eq, nat_le, nat_lt, slice_index};
ghost use Rattle.lists.specs.Lists.{every, some, first_index, among};
ghost use Rattle.table_columns.specs.Moved.{removed_at, copied_down};
ghost use Rattle.lists.specs.Guids.{nil, same_guid};
ghost use Rattle.table_columns.specs.Guids.{guid_at, guids};

use kinds::Guid;

// The first index of x, or the column's length where it has none.
pub fn index_of(col: &[u64], x: u64) -> usize
    ensures { result ≡ first_index (nat_eq x) col.now }
{
    col.iter().position(|&y| x == y).unwrap_or(col.len())
}

pub fn has(col: &[u64], x: u64) -> bool
    ensures { result ≡ among col.now x }
{
    col.contains(&x)
}

pub fn all_at_most(col: &[u64], limit: u64) -> bool
    ensures { result ≡ every (λ x. leb x limit) col.now }
{
    col.iter().all(|&x| x <= limit)
}

pub fn all_below(col: &[u64], limit: u64) -> bool
    ensures { result ≡ every (λ x. nat_lt x limit) col.now }
{
    col.iter().all(|&x| x < limit)
}

// Less than limit has passed from t to clock; 0 where t is later than clock.
pub fn is_within(t: u64, clock: u64, limit: u64) -> bool
    ensures { result ≡ not (nat_le limit (clock - t)) }
{
    clock.saturating_sub(t) < limit
}

// Less than limit has passed from each time to clock.
pub fn all_within(col: &[u64], clock: u64, limit: u64) -> bool
    ensures { result ≡ every (λ t. not (nat_le limit (clock - t))) col.now }
{
    col.iter().all(|&t| is_within(t, clock, limit))
}

pub fn is_nil(g: Guid) -> bool
    ensures { result ≡ same_guid g nil }
{
    g == Guid::NIL
}

// The word at i, and 0 past the end.
pub fn word_at(col: &[u64], i: usize) -> u64
    ensures { result ≡ slice_index col.now i }
{
    col.get(i).copied().unwrap_or(0)
}

// The GUID whose halves stand at i; a half is 0 past its column's end.
pub fn guid_at(lows: &[u64], highs: &[u64], i: usize) -> Guid
    ensures { result ≡ guid_at lows.now highs.now i }
{
    Guid {
        low: word_at(lows, i),
        high: word_at(highs, i),
    }
}

// g stands at i. Where the first half differs, the second is not looked at.
pub fn is_guid_at(lows: &[u64], highs: &[u64], i: usize, g: Guid) -> bool
    ensures { result ≡ same_guid g (guid_at lows.now highs.now i) }
{
    g.low == word_at(lows, i) && g.high == word_at(highs, i)
}

// So many rows are compared for each branch.
const BLOCK: usize = 8;

// g stands in a block of rows. No row ends the search, so that all are compared side by side.
fn in_block(lows: &[u64], highs: &[u64], g: Guid) -> bool
    ensures { result ≡ some (same_guid g) (guids lows.now highs.now) }
{
    (0..lows.len()).fold(false, |found, i| {
        found | ((g.low == word_at(lows, i)) & (g.high == word_at(highs, i)))
    })
}

// How many rows at the front, in whole blocks, are passed: g stands in none of them.
fn passed(lows: &[u64], highs: &[u64], g: Guid) -> usize
    ensures { (result ≤ length lows.now) × (some (same_guid g) (take result (guids lows.now highs.now)) ≡ false) }
{
    let mut n = 0;
    for (low, high) in lows.chunks_exact(BLOCK).zip(highs.chunks_exact(BLOCK)) {
        if in_block(low, high, g) {
            break;
        }
        n += BLOCK;
    }
    n
}

// The first index of g, or the length of lows where it is not there.
pub fn guid_index_of(lows: &[u64], highs: &[u64], g: Guid) -> usize
    ensures { result ≡ first_index (same_guid g) (guids lows.now highs.now) }
{
    (passed(lows, highs, g)..lows.len())
        .find(|&i| is_guid_at(lows, highs, i, g))
        .unwrap_or(lows.len())
}

// The words from an index on; none where it is past the end.
fn rest(col: &[u64], from: usize) -> &[u64]
    ensures { result.now ≡ drop from col.now }
{
    &col[from.min(col.len())..]
}

pub fn has_guid_from(lows: &[u64], highs: &[u64], from: usize, g: Guid) -> bool
    ensures { result ≡ some (same_guid g) (drop from (guids lows.now highs.now)) }
{
    has_guid(rest(lows, from), rest(highs, from), g)
}

pub fn has_guid(lows: &[u64], highs: &[u64], g: Guid) -> bool
    ensures { result ≡ some (same_guid g) (guids lows.now highs.now) }
{
    guid_index_of(lows, highs, g) < lows.len()
}

// Takes the word at k out: the words after it move down by one, and the last stays.
pub fn remove_at(col: &mut [u64], k: usize)
    ensures { col.new ≡ removed_at k col.old }
{
    if k < col.len() {
        col.copy_within(k + 1.., k);
    }
}

// Copies n bytes to an earlier place; the two places may overlap.
pub fn copy_down(store: &mut [u8], from: usize, to: usize, n: usize)
    ensures { store.new ≡ copied_down from to n store.old }
{
    if to <= from && from <= store.len() && n <= store.len() - from {
        store.copy_within(from..from + n, to);
    }
}
