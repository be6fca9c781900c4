// Whether a lent table is sound: the clauses of document 01's "sound", each over the columns that it speaks of.
#![tactic(auto)]

ghost use Rattle.std.specs.Prelude.{◌≡◌, true, ◌<◌, length, [], ◌∷◌};
ghost use Rattle.lists.specs.Lists.{holding};
ghost use Rattle.rules.specs.Entries.{oxids, oids, ipids};
ghost use Rattle.table_view.specs.View.{memory, view, sound_memory, Holds, oids_of};
ghost use Rattle.rules.specs.Contract.{Whole};
ghost use Rattle.table_judge.specs.Leaves.{Leaves};
ghost use Rattle.rules.specs.Sound.{proper, proper_guids, interfaces_held, set_members_live, heard_recently, lists_kept, object_exporters_live};
ghost use Rattle.rules.specs.Sound.{interface_objects_live, objects_have_interfaces, naming_clauses, object_clauses, interface_clauses, set_clauses};

use kinds::limits;
use table_columns::buckets;
use table_view::find;

// Each exporter's list keeps the list rules and is no longer than it may be; it begins where the one before it ends.
fn lists_kept(words: &[u64], store: &[u8]) -> bool
    requires { Whole words.now × Whole store.now }
    ensures { result ≡ lists_kept (view (memory words.now store.now)) }
{
    let n = find::exporter_count(words);
    let mut at = 0;
    for _k in 0..n {
        if bindings::front_answer(&store[at..]).is_err() {
            return false;
        }
        let size = bindings::stated_length(&store[at..]);
        if limits::LONGEST_LIST < size {
            return false;
        }
        at += size;
    }
    true
}

// The OXIDs are proper, and each object's exporter is live.
fn exporters_named(words: &[u64]) -> bool
    requires { Whole words.now }
    ensures { Holds (λ e. result ≡ holding (proper (oxids e) ∷ object_exporters_live e ∷ [])) words.now }
{
    let exporters = find::exporter_count(words);
    let objects = find::object_count(words);
    let oxids = table_words::column(words, table_words::OXIDS, exporters);
    let owners = table_words::column(words, table_words::OBJECT_EXPORTERS, objects);
    let mut rows = [0u8; 256];
    if !identifiers::note(&mut rows, oxids) {
        return false;
    }
    identifiers::all_found(&rows, oxids, owners)
}

// The OIDs are proper, each interface's object is live, and each object has an interface.
fn objects_named(words: &[u64]) -> bool
    requires { Whole words.now }
    ensures { Holds (λ e. result ≡ holding (proper (oids e) ∷ interface_objects_live e ∷ objects_have_interfaces e ∷ [])) words.now }
{
    let objects = find::object_count(words);
    let interfaces = find::interface_count(words);
    let oids = table_words::column(words, table_words::OIDS, objects);
    let named = table_words::column(words, table_words::INTERFACE_OBJECTS, interfaces);
    let mut rows = [0u8; 2048];
    if !identifiers::note(&mut rows, oids) {
        return false;
    }
    identifiers::all_paired(&rows, oids, named)
}

fn naming_sound(words: &[u64]) -> bool
    requires { Whole words.now }
    ensures { Holds (λ e. result ≡ holding (naming_clauses e)) words.now }
{
    if !exporters_named(words) {
        return false;
    }
    objects_named(words)
}

// Pinged objects were heard under 360 seconds before the clock.
fn heard_recently(words: &[u64]) -> bool
    requires { Whole words.now }
    ensures { Holds (λ e. result ≡ heard_recently e) words.now }
{
    let n = find::object_count(words);
    let clock = words[table_words::CLOCK];
    (0..n).all(|i| find::is_heard_within(words, i, clock))
}

fn objects_sound(words: &[u64]) -> bool
    requires { Whole words.now }
    ensures { Holds (λ e. result ≡ holding (object_clauses e)) words.now }
{
    let objects = find::object_count(words);
    let times = table_words::column(words, table_words::HEARD_TIMES, objects);
    let clock = words[table_words::CLOCK];
    if !table_columns::all_at_most(times, clock) {
        return false;
    }
    heard_recently(words)
}

// Each interface has a nonzero count.
fn interfaces_held(words: &[u64]) -> bool
    requires { Whole words.now }
    ensures { Holds (λ e. result ≡ interfaces_held e) words.now }
{
    let n = find::interface_count(words);
    (0..n).all(|i| find::is_held(words, i))
}

// Remote-unknown and interface IPIDs are one kind: none is nil, and no two are the same. Leaves an index of the latter.
fn ipids_proper(words: &[u64], rows: &mut [u8; buckets::BUCKETS]) -> bool
    requires { Whole words.now × (length rows.old ≡ 4096) }
    ensures { Holds (λ e. result ≡ proper_guids (ipids e)) words.now
        × Leaves result rows.new words.now }
{
    let n = find::exporter_count(words);
    let m = find::interface_count(words);
    let unknown_lows = table_words::column(words, table_words::UNKNOWN_LOWS, n);
    let unknown_highs = table_words::column(words, table_words::UNKNOWN_HIGHS, n);
    let lows = table_words::column(words, table_words::IPID_LOWS, m);
    let highs = table_words::column(words, table_words::IPID_HIGHS, m);
    if !identifiers::enter_guids(rows, lows, highs, lows, highs, m) {
        return false;
    }
    identifiers::enter_guids(rows, unknown_lows, unknown_highs, lows, highs, 0)
}

fn interfaces_sound(words: &[u64], rows: &mut [u8; buckets::BUCKETS]) -> bool
    requires { Whole words.now × (length rows.old ≡ 4096) }
    ensures { Holds (λ e. result ≡ holding (interface_clauses e)) words.now
        × Leaves result rows.new words.now }
{
    if !ipids_proper(words, rows) {
        return false;
    }
    interfaces_held(words)
}

// The members of each set are live objects, where no live object has OID 0.
fn members_live(words: &[u64]) -> bool
    requires { Whole words.now × (proper (oids_of words.now) ≡ true) }
    ensures { Holds (λ e. result ≡ set_members_live e) words.now }
{
    let n = find::set_count(words);
    let objects = find::object_count(words);
    (0..n).all(|i| find::members(words, i).below(objects))
}

fn sets_sound(words: &[u64]) -> bool
    requires { Whole words.now × (proper (oids_of words.now) ≡ true) }
    ensures { Holds (λ e. result ≡ holding (set_clauses e)) words.now }
{
    let n = find::set_count(words);
    let clock = words[table_words::CLOCK];
    let next = words[table_words::NEXT_SET];
    let numbers = table_words::column(words, table_words::SET_NUMBERS, n);
    let times = table_words::column(words, table_words::PING_TIMES, n);
    if !identifiers::are_proper(numbers) {
        return false;
    }
    if !table_columns::all_at_most(times, clock) {
        return false;
    }
    if !table_columns::all_within(times, clock, table_words::TIMEOUT) {
        return false;
    }
    if !table_columns::all_below(numbers, next) {
        return false;
    }
    if next == 0 {
        return false;
    }
    members_live(words)
}

// Whether a lent table is sound: both lengths are 8,192, and every clause holds of the live entries. In a frame of its own, so that its
// index is off the stack before a call's step begins.
#[inline(never)]
pub fn sound(words: &[u64], store: &[u8]) -> bool
    ensures { result ≡ sound_memory (memory words.now store.now) }
{
    let mut rows = [0u8; buckets::BUCKETS];
    sound_indexed(words, store, &mut rows)
}

// The same; leaves an index of the interfaces' IPIDs where it is.
pub fn sound_indexed(words: &[u64], store: &[u8], rows: &mut [u8; buckets::BUCKETS]) -> bool
    requires { length rows.old ≡ 4096 }
    ensures { (result ≡ sound_memory (memory words.now store.now))
        × Leaves result rows.new words.now }
{
    if words.len() != limits::WORDS {
        return false;
    }
    if store.len() != limits::BYTES {
        return false;
    }
    if !lists_kept(words, store) {
        return false;
    }
    if !naming_sound(words) {
        return false;
    }
    if !objects_sound(words) {
        return false;
    }
    if !interfaces_sound(words, rows) {
        return false;
    }
    sets_sound(words)
}
