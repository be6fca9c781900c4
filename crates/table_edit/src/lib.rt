// Edits of array and store, by what they do to the live entries. Each leaves every other entry as it was.
#![tactic(auto)]

ghost use Rattle.std.specs.Prelude.{◌≡◌, true, not, ◌+◌, ◌-◌, ◌^◌, ◌<◌, ◌≤◌, length, eqb};
ghost use Rattle.lists.specs.Lists.{distinct};
ghost use Rattle.table_columns.specs.Rows.{after};
ghost use Rattle.bindings.specs.Bindings.{list_answer};
ghost use Rattle.rules.specs.Rules.{make_set, entered_counts};
ghost use Rattle.table_view.specs.View.{exporter_count, object_count, interface_count, set_count, list_start, memory, view, oids_of, clock_of, next_of, member_values, members_below};
ghost use Rattle.rules.specs.PingRows.{change_set};
ghost use Rattle.table_edit.specs.Edits.{Pushed, Pulled, Became, add_exporter, add_object, add_interface, add_set, drop_exporter};
ghost use Rattle.table_edit.specs.Edits.{drop_object, drop_interface, drop_set, change_object, change_interface, MembersCut};
ghost use Rattle.rules.specs.Contract.{Whole};
ghost use Rattle.rules.specs.Entries.{object_places, interface_places, set_places, exporter_places, heard_at, with_count, pinged_at, with_sequence, with_members, with_clock, with_next, fresh};
ghost use Rattle.rules.specs.Sound.{store_bytes};

use kinds::{Guid, Oid, Oxid, SetId, limits};
use table_columns::members::Members;
use table_columns::rows;
use table_columns::rows::Kind;
use table_view::find;

// Enters a row after the n live ones of a kind, whose count is the word at.
fn push_row(words: &mut [u64], k: Kind, at: usize, n: usize, row: &[u64])
    requires { (at < k.base) × (n < k.places) × (k.places ≤ 256) × (length row.now ≡ k.width) × (after k ≤ length words.old) }
    ensures { Pushed k at n row.now words.old words.new }
{
    rows::store_row(words, k, n, row);
    words[at] = (n + 1) as u64;
}

// Takes row i of the n live ones out.
fn pull_row(words: &mut [u64], k: Kind, at: usize, n: usize, i: usize)
    requires { (at < k.base) × (i < n) × (n ≤ k.places) × (k.places ≤ 256) × (after k ≤ length words.old) }
    ensures { Pulled k at n i words.old words.new }
{
    rows::remove_row(words, k, n, i);
    words[at] = (n - 1) as u64;
}

// An object.
pub fn add_object(words: &mut [u64], oid: Oid, oxid: Oxid, no_ping: bool, heard: u64)
    requires { Whole words.old × (object_count words.old < object_places) × (members_below words.old ≡ true) }
    ensures { Became
        (add_object (record { oid = oid.0; exporter = oxid.0; noping = no_ping; heard = heard }))
        words.old words.new }
{
    let n = find::object_count(words);
    let row = [oid.0, oxid.0, u64::from(no_ping), heard];
    push_row(
        words,
        table_words::object_kind(),
        table_words::OBJECTS,
        n,
        &row,
    );
}

// An object, heard now.
pub fn append_object(words: &mut [u64], oid: Oid, oxid: Oxid, no_ping: bool)
    requires { Whole words.old × (object_count words.old < object_places) × (members_below words.old ≡ true) }
    ensures { Became
        (add_object (record { oid = oid.0; exporter = oxid.0; noping = no_ping; heard = clock_of words.old }))
        words.old words.new }
{
    let clock = find::clock(words);
    add_object(words, oid, oxid, no_ping, clock);
}

// An interface with its nine counts.
pub fn add_interface(words: &mut [u64], ipid: Guid, iid: Guid, oid: Oid, counts: &[u32])
    requires { Whole words.old × (interface_count words.old < interface_places) × (length counts.now ≡ 9) }
    ensures { Became
        (add_interface (record { ipid = ipid; iid = iid; object = oid.0; counts = counts.now }))
        words.old words.new }
{
    let n = find::interface_count(words);
    // Written out: a loop over the counts would be no plainer.
    let row = [
        ipid.low,
        ipid.high,
        iid.low,
        iid.high,
        oid.0,
        counts[0] as u64,
        counts[1] as u64,
        counts[2] as u64,
        counts[3] as u64,
        counts[4] as u64,
        counts[5] as u64,
        counts[6] as u64,
        counts[7] as u64,
        counts[8] as u64,
    ];
    push_row(
        words,
        table_words::interface_kind(),
        table_words::INTERFACES,
        n,
        &row,
    );
}

// An interface with a public count, and no private references.
pub fn append_interface(words: &mut [u64], ipid: Guid, iid: Guid, oid: Oid, public: u32)
    requires { Whole words.old × (interface_count words.old < interface_places) }
    ensures { Became
        (add_interface (record { ipid = ipid; iid = iid; object = oid.0; counts = entered_counts public }))
        words.old words.new }
{
    let counts = [public, 0, 0, 0, 0, 0, 0, 0, 0];
    add_interface(words, ipid, iid, oid, &counts);
}

// A set, with its members by the objects' rows. The next set number stays.
pub fn add_set(words: &mut [u64], number: SetId, sequence: u16, pinged: u64, members: Members)
    requires { Whole words.old × (set_count words.old < set_places) }
    ensures { Became
        (add_set (record { number = number.0; sequence = sequence; pinged = pinged; members = member_values (oids_of words.old) members }))
        words.old words.new }
{
    let n = find::set_count(words);
    let row = [number.0, sequence as u64, pinged, members.low, members.high];
    push_row(words, table_words::set_kind(), table_words::SETS, n, &row);
}

pub fn set_next(words: &mut [u64], number: SetId)
    requires { Whole words.old }
    ensures { Became (with_next number.0) words.old words.new }
{
    words[table_words::NEXT_SET] = number.0;
}

// A set with the next number, which grows by one: pinged now, with sequence number 0 and no member.
pub fn append_set(words: &mut [u64])
    requires { Whole words.old × (set_count words.old < set_places) × (next_of words.old < 2 ^ 64 - 1) }
    ensures { Became make_set words.old words.new }
{
    let next = find::next_set(words);
    let clock = find::clock(words);
    add_set(words, next, 0, clock, Members { low: 0, high: 0 });
    set_next(words, SetId(next.0 + 1));
}

// An exporter, with its list behind the live ones.
pub fn append_exporter(words: &mut [u64], store: &mut [u8], oxid: Oxid, unknown: Guid, list: &[u8])
    requires { Whole words.old × Whole store.old × (exporter_count words.old < exporter_places)
        × (list_answer list.now ≡ 0)
        × (list_start store.old (exporter_count words.old) + length list.now ≤ store_bytes) }
    ensures { view (memory words.new store.new)
        ≡ add_exporter (record { oxid = oxid.0; unknown = unknown; bindings = list.now }) (view (memory words.old store.old)) }
{
    let n = find::exporter_count(words);
    let from = find::list_start(store, n);
    fields::copy(&mut store[from..], 0, list);
    let row = [oxid.0, unknown.low, unknown.high];
    push_row(
        words,
        table_words::exporter_kind(),
        table_words::EXPORTERS,
        n,
        &row,
    );
}

// Takes exporter i out; the later lists move down to where its list began.
pub fn remove_exporter(words: &mut [u64], store: &mut [u8], i: usize)
    requires { Whole words.old × Whole store.old × (i < exporter_count words.old)
        × (list_start store.old (exporter_count words.old) ≤ store_bytes) }
    ensures { view (memory words.new store.new) ≡ drop_exporter i (view (memory words.old store.old)) }
{
    let n = find::exporter_count(words);
    let to = find::list_start(store, i);
    let from = find::list_start(store, i + 1);
    let left = find::list_start(store, n) - from;
    table_columns::copy_down(store, from, to, left);
    pull_row(
        words,
        table_words::exporter_kind(),
        table_words::EXPORTERS,
        n,
        i,
    );
}

pub fn remove_interface(words: &mut [u64], i: usize)
    requires { Whole words.old × (i < interface_count words.old) }
    ensures { Became (drop_interface i) words.old words.new }
{
    let n = find::interface_count(words);
    pull_row(
        words,
        table_words::interface_kind(),
        table_words::INTERFACES,
        n,
        i,
    );
}

pub fn remove_set(words: &mut [u64], i: usize)
    requires { Whole words.old × (i < set_count words.old) }
    ensures { Became (drop_set i) words.old words.new }
{
    let n = find::set_count(words);
    pull_row(words, table_words::set_kind(), table_words::SETS, n, i);
}

// Takes bit i out of the members of every live set; the higher bits move down by one.
fn cut_members(words: &mut [u64], i: usize)
    requires { Whole words.old }
    ensures { MembersCut i words.old words.new }
{
    let n = find::set_count(words);
    for r in 0..n {
        let left = find::members(words, r).cut(i);
        words[table_words::MEMBER_LOWS + r] = left.low;
        words[table_words::MEMBER_HIGHS + r] = left.high;
    }
}

// Takes object i out, and out of its sets.
pub fn remove_object(words: &mut [u64], i: usize)
    requires { Whole words.old × (i < object_count words.old) × (members_below words.old ≡ true)
        × (distinct eqb (oids_of words.old) ≡ true) }
    ensures { Became (drop_object i) words.old words.new × (members_below words.new ≡ true) }
{
    let n = find::object_count(words);
    pull_row(
        words,
        table_words::object_kind(),
        table_words::OBJECTS,
        n,
        i,
    );
    cut_members(words, i);
}

// Count k of interface i.
pub fn store_count(words: &mut [u64], i: usize, k: usize, n: u32)
    requires { Whole words.old × (i < interface_count words.old) × (k < 9) }
    ensures { Became (change_interface i (with_count k n)) words.old words.new }
{
    words[table_words::COUNTS + limits::INTERFACE_PLACES * k + i] = n as u64;
}

// The time at which object i was last heard.
pub fn set_heard(words: &mut [u64], i: usize, time: u64)
    requires { Whole words.old × (i < object_count words.old) }
    ensures { Became (change_object i (heard_at time)) words.old words.new }
{
    words[table_words::HEARD_TIMES + i] = time;
}

// The time of set i's last ping.
pub fn set_pinged(words: &mut [u64], i: usize, time: u64)
    requires { Whole words.old × (i < set_count words.old) }
    ensures { Became (change_set i (pinged_at time)) words.old words.new }
{
    words[table_words::PING_TIMES + i] = time;
}

// The sequence number of set i.
pub fn set_sequence(words: &mut [u64], i: usize, sequence: u16)
    requires { Whole words.old × (i < set_count words.old) }
    ensures { Became (change_set i (with_sequence sequence)) words.old words.new }
{
    words[table_words::SEQUENCES + i] = sequence as u64;
}

// The members of set i, by the objects' rows.
pub fn set_members(words: &mut [u64], i: usize, members: Members)
    requires { Whole words.old × (i < set_count words.old) }
    ensures { Became
        (change_set i (with_members (member_values (oids_of words.old) members)))
        words.old words.new }
{
    words[table_words::MEMBER_LOWS + i] = members.low;
    words[table_words::MEMBER_HIGHS + i] = members.high;
}

pub fn set_clock(words: &mut [u64], time: u64)
    requires { Whole words.old }
    ensures { Became (with_clock time) words.old words.new }
{
    words[table_words::CLOCK] = time;
}

// No entries, at a time.
pub fn clear(words: &mut [u64], time: u64)
    requires { Whole words.old }
    ensures { Became (λ _. fresh time) words.old words.new }
{
    words[table_words::CLOCK] = time;
    words[table_words::NEXT_SET] = 1;
    words[table_words::EXPORTERS] = 0;
    words[table_words::OBJECTS] = 0;
    words[table_words::INTERFACES] = 0;
    words[table_words::SETS] = 0;
}
