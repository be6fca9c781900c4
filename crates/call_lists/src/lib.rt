// Whole lists of adds and releases: items of 24 bytes, an IPID and two counts, as RemAddRef and RemRelease carry them.
#![tactic(auto)]

ghost use Rattle.std.specs.Prelude.{◌≡◌, ◌≤◌, ◌<◌, eqb, length};
ghost use Rattle.kinds.specs.Answers.{answer_number};
ghost use Rattle.table_columns.specs.Buckets.{guid_bucket, Indexed};
ghost use Rattle.rules.specs.Contract.{Whole};
ghost use Rattle.rules.specs.Entries.{interface_row};
ghost use Rattle.rules.specs.Calls.{Call};
ghost use Rattle.rules.specs.Items.{item_at, item_count};
ghost use Rattle.table_view.specs.View.{memory, Holds, SoundTable, Stepped, ipids_of};
ghost use Rattle.call_lists.specs.Listing.{way_of, list_reply, item_of, ListTaken, ItemStepped};

use kinds::{Guid, Refusal, answer, limits};
use table_columns::buckets;
use table_view::find;

// A list on a sound table: given back, or else added. `rows` has a number for each bucket of IPIDs: 0, or one more than a row to try,
// but 255 for row 255 too. The bucket of each live IPID has one that is not 0.
pub fn list_step(
    words: &mut [u64],
    store: &[u8],
    back: bool,
    client: u32,
    items: &[u8],
    buffer: &mut [u8],
    rows: &mut [u8; buckets::BUCKETS],
) -> Result<(), Refusal>
    requires { SoundTable (memory words.old store.now) × Indexed guid_bucket rows.old (ipids_of words.old) }
    ensures { Stepped (Call.count_list (way_of back) client items.now buffer.old) (memory words.old store.now)
        (list_reply (answer_number result) buffer.new) (memory words.new store.now) }
{
    if limits::LAST_CLIENT < client {
        return Err(Refusal::NoClient);
    }
    if items.len() % 24 != 0 {
        return Err(Refusal::Short);
    }
    let n = items.len() / 24;
    if answer::MOST_LISTED < n {
        return Err(Refusal::TooMany);
    }
    if buffer.len() < n {
        return Err(Refusal::NoRoom);
    }
    count_items(words, store, back, client, items, buffer, rows)
}

// The items of a list that is not refused.
fn count_items(
    words: &mut [u64],
    store: &[u8],
    back: bool,
    client: u32,
    items: &[u8],
    buffer: &mut [u8],
    rows: &mut [u8; buckets::BUCKETS],
) -> Result<(), Refusal>
    requires { SoundTable (memory words.old store.now) × ListTaken client items.now buffer.old
        × Indexed guid_bucket rows.old (ipids_of words.old) }
    ensures { Stepped (Call.count_list (way_of back) client items.now buffer.old) (memory words.old store.now)
        (list_reply (answer_number result) buffer.new) (memory words.new store.now) }
{
    let n = items.len() / 24;
    let mut live = find::interface_count(words);
    for k in 0..n {
        let item = read_item(items, k);
        let row = row_of(words, store, rows, item.ipid);
        let number = item_step(words, store, back, client, item, row);
        buffer[k] = number as u8;
        live = follow_row(words, rows, row, live);
    }
    Ok(())
}

// The same where no judgement leaves an index. Any numbers but 0 are one; for a list of many items the rows are noted in it.
pub fn noted_list_step(
    words: &mut [u64],
    store: &[u8],
    back: bool,
    client: u32,
    items: &[u8],
    buffer: &mut [u8],
) -> Result<(), Refusal>
    requires { SoundTable (memory words.old store.now) }
    ensures { Stepped (Call.count_list (way_of back) client items.now buffer.old) (memory words.old store.now)
        (list_reply (answer_number result) buffer.new) (memory words.new store.now) }
{
    let mut rows = [255u8; buckets::BUCKETS];
    note_rows(words, items.len(), &mut rows);
    list_step(words, store, back, client, items, buffer, &mut rows)
}

// Lists of fewer bytes are not worth the notes: 8 items.
const SHORT: usize = 192;

// Notes the row of each IPID under its bucket, for a list of so many bytes.
fn note_rows(words: &[u64], bytes: usize, rows: &mut [u8; buckets::BUCKETS])
    requires { Whole words.now × Indexed guid_bucket rows.old (ipids_of words.now) }
    ensures { Indexed guid_bucket rows.new (ipids_of words.now) }
{
    if bytes < SHORT {
        return;
    }
    for i in (0..find::interface_count(words)).rev() {
        let b = buckets::of_guid(find::ipid(words, i));
        rows[b] = buckets::number_of(i);
    }
}

// The row of a number.
fn row_at(number: u8) -> usize
    requires { 0 < number }
{
    number as usize - 1
}

// The row of the interface with an IPID, as `find::interface_row` gives it. Adds and releases enter no interface, so an IPID whose
// bucket has 0 stays unknown. What the other numbers are is undecided: the IPID of a row that is tried is compared.
fn row_of(words: &[u64], store: &[u8], rows: &[u8; buckets::BUCKETS], ipid: Guid) -> usize
    requires { SoundTable (memory words.now store.now) × Indexed guid_bucket rows.now (ipids_of words.now) }
    ensures { Holds (λ e. result ≡ interface_row e ipid) words.now }
{
    let b = buckets::of_guid(ipid);
    let number = rows[b];
    if number == 0 {
        return find::interface_count(words);
    }
    let row = row_at(number);
    if call_references::is_row(words, store, row, ipid) {
        return row;
    }
    second_row(words, store, rows, ipid)
}

// The same by the second bucket, then by row 255, whose number is that of row 254, then by a search.
fn second_row(words: &[u64], store: &[u8], rows: &[u8; buckets::BUCKETS], ipid: Guid) -> usize
    requires { SoundTable (memory words.now store.now) }
    ensures { Holds (λ e. result ≡ interface_row e ipid) words.now }
{
    let b = buckets::low_of_guid(ipid);
    let number = rows[b];
    if 0 < number {
        let row = row_at(number);
        if call_references::is_row(words, store, row, ipid) {
            return row;
        }
    }
    call_references::interface_row(words, store, 255, ipid)
}

// Where the interface at a row went, the numbers of later rows follow. Answers how many interfaces there are.
fn follow_row(words: &[u64], rows: &mut [u8; buckets::BUCKETS], row: usize, before: usize) -> usize
    requires { Whole words.now × Indexed guid_bucket rows.old (ipids_of words.now) }
    ensures { Indexed guid_bucket rows.new (ipids_of words.now) }
{
    let n = find::interface_count(words);
    if n == before {
        return n;
    }
    let gone = buckets::number_of(row);
    for number in rows.iter_mut() {
        *number = moved(*number, gone);
    }
    n
}

// A row's number after another row went.
fn moved(number: u8, gone: u8) -> u8
    requires { 0 < gone }
    ensures { eqb result 0 ≡ eqb number 0 }
{
    if gone < number { number - 1 } else { number }
}

// An item of a list: an IPID and two counts, which are no length of anything.
#[derive(Clone, Copy)]
struct Counted {
    ipid: Guid,
    public: u32,
    private: u32,
}

// Item k of a list. Its fields are read from a part of 24 bytes, of which all are there.
fn read_item(items: &[u8], k: usize) -> Counted
    requires { k < item_count items.now }
    ensures { item_of result ≡ item_at items.now k }
{
    let at = 24 * k;
    let end = at + 24;
    let item = &items[at..end];
    Counted {
        ipid: fields::read_guid(item, 0),
        public: fields::read_u32(item, 16),
        private: fields::read_u32(item, 20),
    }
}

// An item at the row that its IPID has.
fn item_step(
    words: &mut [u64],
    store: &[u8],
    back: bool,
    client: u32,
    item: Counted,
    row: usize,
) -> u32
    requires { SoundTable (memory words.old store.now) × (client ≤ 7)
        × Holds (λ e. row ≡ interface_row e item.ipid) words.old }
    ensures { ItemStepped (way_of back) client (item_of item) (memory words.old store.now)
        result (memory words.new store.now) }
{
    if back {
        let released = call_references::release_at(
            words,
            store,
            client,
            item.ipid,
            row,
            item.public,
            item.private,
        );
        return kinds::number(released);
    }
    let added = call_references::add_at(
        words,
        store,
        client,
        item.ipid,
        row,
        item.public,
        item.private,
    );
    kinds::number(added)
}
