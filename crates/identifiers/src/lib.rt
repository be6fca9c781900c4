// Identifiers of the live rows of a kind: whether they are proper, none of them 0 and no two the same, and their rows.
//
// An index has a number for each bucket: 0, or one more than a row to try. An identifier is noted where the number of its bucket is
// not 0 and leads to it, or that of its second bucket is not 0 either. Which row a number leads to decides nothing: the identifier there
// is compared, and searched for where it is another.
#![tactic(auto)]

ghost use Rattle.std.specs.Prelude.{◌≡◌, true, false, ◌&&◌, ◌++◌, ◌%◌, ◌<◌, ◌≤◌, length, get_or, drop, eqb, IfSome, MatchOption};
ghost use Rattle.lists.specs.Lists.{every, some, nonzero, distinct, among};
ghost use Rattle.lists.specs.Guids.{same_guid};
ghost use Rattle.table_columns.specs.Guids.{guids};
ghost use Rattle.table_columns.specs.Buckets.{word_bucket};
ghost use Rattle.table_columns.specs.Guids.{guid_at};
ghost use Rattle.identifiers.specs.Index.{climbing, noted, Filled, Put, IndexedWords, Noted, StandsAt, NumberOf, Entering, Entered};

use kinds::Guid;
use table_columns::buckets;

// The bucket of a word among m.
fn bucket(x: u64, m: usize) -> usize
    requires { 0 < m }
    ensures { (result ≡ word_bucket x % m) × (result < m) }
{
    buckets::of_word(x) % m
}

// Another one, for a word whose bucket is taken.
fn second_bucket(x: u64, m: usize) -> usize
    requires { 0 < m }
    ensures { (result ≡ x % m) × (result < m) }
{
    (x % m as u64) as usize
}

// Whether a word is noted, by the numbers of its two buckets.
#[tactic(auto, unfolding(crate::specs::Index::noted))]
fn is_noted(first: u8, second: u8, col: &[u64], x: u64) -> bool
    ensures { result ≡ noted first second (λ i. eqb x (get_or col.now i 0)) }
{
    first != 0 && (second != 0 || x == table_columns::word_at(col, first as usize - 1))
}

// Enters a number under a bucket that has none.
fn fill(rows: &mut [u8], k: usize, number: u8)
    requires { (k < length rows.old) × (0 < number) }
    ensures { Filled rows.old k rows.new }
{
    if rows[k] == 0 {
        rows[k] = number;
    }
}

// Enters a number under a bucket, or under a second one where the first is taken; 255, which may lead elsewhere, under both.
// A number that is there stays, so that what is noted stays noted.
fn enter(rows: &mut [u8], b: usize, k: usize, number: u8)
    requires { (b < length rows.old) × (k < length rows.old) × (0 < number) }
    ensures { Put rows.old b k number rows.new }
{
    if rows[b] != 0 {
        fill(rows, k, number);
        return;
    }
    rows[b] = number;
    if number < 255 {
        return;
    }
    fill(rows, k, number);
}

// Whether the words of a column are proper; notes each. From the last word to the first: where one is not yet noted, no later word is
// the same. Compiled into each caller, whose index has a known length: as a call it divided by that length twice for each word.
#[inline(always)]
pub fn note(rows: &mut [u8], col: &[u64]) -> bool
    requires { (0 < length rows.old) × (length col.now < 256) }
    ensures { Noted col.now rows.new result }
{
    for i in (0..col.len()).rev() {
        let next = i + 1;
        let x = col[i];
        if x == 0 {
            return false;
        }
        let b = bucket(x, rows.len());
        let k = second_bucket(x, rows.len());
        if is_noted(rows[b], rows[k], col, x) && table_columns::has(&col[next..], x) {
            return false;
        }
        enter(rows, b, k, next as u8);
    }
    true
}

// Each word is above the one before it, and the first above 0.
fn climbs(col: &[u64]) -> bool
    ensures { result ≡ climbing 0 col.now }
{
    let mut last = 0;
    for &x in col {
        if x <= last {
            return false;
        }
        last = x;
    }
    true
}

// Whether the words of a column are proper. Those that climb are, as the numbers of sets do.
pub fn are_proper(col: &[u64]) -> bool
    requires { length col.now < 256 }
    ensures { result ≡ (nonzero col.now && distinct eqb col.now) }
{
    if climbs(col) {
        return true;
    }
    let mut rows = [0u8; 512];
    note(&mut rows, col)
}

// The row that a number leads to, where x stands there.
fn tried_row(col: &[u64], number: u8, x: u64) -> Option<usize>
    ensures { IfSome result (StandsAt x col.now) }
{
    let row = usize::from(number).checked_sub(1)?;
    if *col.get(row)? == x { Some(row) } else { None }
}

// The row of x by the index of a column.
fn row_of(rows: &[u8], col: &[u64], x: u64) -> Option<usize>
    requires { IndexedWords rows.now col.now }
    ensures { MatchOption result (among col.now x ≡ false) (StandsAt x col.now) }
{
    let b = bucket(x, rows.len());
    if rows[b] == 0 {
        return None;
    }
    if let Some(row) = tried_row(col, rows[b], x) {
        return Some(row);
    }
    let k = second_bucket(x, rows.len());
    if let Some(row) = tried_row(col, rows[k], x) {
        return Some(row);
    }
    col.iter().position(|&y| x == y)
}

// x stands in the column.
fn is_found(rows: &[u8], col: &[u64], x: u64) -> bool
    requires { IndexedWords rows.now col.now }
    ensures { result ≡ among col.now x }
{
    row_of(rows, col, x).is_some()
}

// Each word of a stands in the column.
pub fn all_found(rows: &[u8], col: &[u64], a: &[u64]) -> bool
    requires { IndexedWords rows.now col.now }
    ensures { result ≡ every (among col.now) a.now }
{
    a.iter().all(|&x| is_found(rows, col, x))
}

fn all_true(marks: &[bool]) -> bool
    ensures { result ≡ every (λ b. b) marks.now }
{
    marks.iter().all(|&mark| mark)
}

// Each word of a stands in the column, and each word of the column in a.
pub fn all_paired(rows: &[u8], col: &[u64], a: &[u64]) -> bool
    requires { IndexedWords rows.now col.now × (distinct eqb col.now ≡ true) × (length col.now ≤ 128) }
    ensures { result ≡ (every (among col.now) a.now && every (among a.now) col.now) }
{
    let mut met = [false; 128];
    for &x in a {
        let Some(row) = row_of(rows, col, x) else {
            return false;
        };
        met[row] = true;
    }
    all_true(&met[..col.len()])
}

// Whether g stands in two columns from an index on, or in two more from another on.
fn stands_later(
    lows: &[u64],
    highs: &[u64],
    next: usize,
    lows2: &[u64],
    highs2: &[u64],
    from: usize,
    g: Guid,
) -> bool
    ensures { result ≡ some (same_guid g) (drop next (guids lows.now highs.now) ++ drop from (guids lows2.now highs2.now)) }
{
    table_columns::has_guid_from(lows, highs, next, g)
        || table_columns::has_guid_from(lows2, highs2, from, g)
}

// Whether a GUID is noted, by the numbers of its two buckets. A test passed to one function for both would be no plainer.
#[tactic(auto, unfolding(crate::specs::Index::noted))]
fn is_guid_noted(first: u8, second: u8, lows: &[u64], highs: &[u64], g: Guid) -> bool
    ensures { result ≡ noted first second (λ i. same_guid g (guid_at lows.now highs.now i)) }
{
    first != 0 && (second != 0 || table_columns::is_guid_at(lows, highs, first as usize - 1, g))
}

// The number of a row, counted from 1, among so many that are led to; 255 for the others.
fn number_of(next: usize, most: usize) -> u8
    requires { 0 < next }
    ensures { NumberOf next most result }
{
    if next <= most {
        buckets::number_of(next - 1)
    } else {
        255
    }
}

// Whether the GUIDs of two columns are proper before those of two more from an index on, which are noted; notes theirs as well.
// The numbers lead to the latter columns, whose GUIDs before the index are those of the former. From the last GUID to the first:
// where one is not yet noted, no later GUID is the same.
// Not one function with `note`: it differs in the identifier, its buckets, its later ones and its numbers, and a trait of those would be no plainer.
pub fn enter_guids(
    rows: &mut [u8; buckets::BUCKETS],
    lows: &[u64],
    highs: &[u64],
    lows2: &[u64],
    highs2: &[u64],
    from: usize,
) -> bool
    requires { Entering rows.old lows.now highs.now lows2.now highs2.now from }
    ensures { Entered lows.now highs.now lows2.now highs2.now from
        rows.new result }
{
    for i in (0..lows.len()).rev() {
        let next = i + 1;
        let g = table_columns::guid_at(lows, highs, i);
        if table_columns::is_nil(g) {
            return false;
        }
        let b = buckets::of_guid(g);
        let k = buckets::low_of_guid(g);
        if is_guid_noted(rows[b], rows[k], lows2, highs2, g)
            && stands_later(lows, highs, next, lows2, highs2, from, g)
        {
            return false;
        }
        enter(rows, b, k, number_of(next, from));
    }
    true
}
