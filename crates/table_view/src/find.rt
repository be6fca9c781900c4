// Rows of live entries by their identifiers, and what stands in them.
ghost use Rattle.std.specs.Prelude.{◌≡◌, true, ◌||◌, List, map, length, get_or, eqb, ℕ, ◌<◌, ◌≤◌, min};
ghost use Rattle.lists.specs.Guids.{nil, same_guid};
ghost use Rattle.table_view.specs.View.{members_at, exporter_count, object_count, interface_count, set_count, clock_of, next_of, list_start};
ghost use Rattle.table_view.specs.View.{exporters_of, objects_of, interfaces_of, sets_of, oids_of, memory, view, Holds};
ghost use Rattle.rules.specs.Contract.{Whole};
ghost use Rattle.lists.specs.Lists.{some};
ghost use Rattle.rules.specs.Entries.{Interface, PingSet, oxids, count_of, exporter_row, object_row, interface_row, set_row, ipids, exporter_places, object_places, interface_places, set_places};
ghost use Rattle.rules.specs.Sound.{lists_kept, held, heard_within, pinged_within};
ghost use Rattle.rules.specs.Rules.{no_exporter, no_object, no_interface, no_set};
ghost use Rattle.table_view.specs.Counts.{counts_at};
ghost use Rattle.table_view.specs.Hints.{hinted};

use kinds::{Guid, Oid, Oxid, SetId, limits};
use table_columns::buckets;
use table_columns::members::Members;

// The time of the table.
pub fn clock(words: &[u64]) -> u64
    requires { Whole words.now }
    ensures { result ≡ clock_of words.now }
{
    words[table_words::CLOCK]
}

// The next set number.
pub fn next_set(words: &[u64]) -> SetId
    requires { Whole words.now }
    ensures { result.0 ≡ next_of words.now }
{
    SetId(words[table_words::NEXT_SET])
}

// A count word, read as no more than the places.
fn capped(word: u64, places: usize) -> usize
    ensures { (result ≡ min word places) × (result ≤ places) }
{
    (word as usize).min(places)
}

// The numbers of live rows.
pub fn exporter_count(words: &[u64]) -> usize
    requires { Whole words.now }
    ensures { (result ≡ exporter_count words.now) × (result ≤ exporter_places) }
{
    capped(words[table_words::EXPORTERS], limits::EXPORTER_PLACES)
}

pub fn object_count(words: &[u64]) -> usize
    requires { Whole words.now }
    ensures { (result ≡ object_count words.now) × (result ≤ object_places) }
{
    capped(words[table_words::OBJECTS], limits::OBJECT_PLACES)
}

pub fn interface_count(words: &[u64]) -> usize
    requires { Whole words.now }
    ensures { (result ≡ interface_count words.now) × (result ≤ interface_places) }
{
    capped(words[table_words::INTERFACES], limits::INTERFACE_PLACES)
}

pub fn set_count(words: &[u64]) -> usize
    requires { Whole words.now }
    ensures { (result ≡ set_count words.now) × (result ≤ set_places) }
{
    capped(words[table_words::SETS], limits::SET_PLACES)
}

// The live identifiers, in the order of the rows.
pub fn oxids(words: &[u64]) -> &[u64]
    requires { Whole words.now }
    ensures { Holds (λ e. result.now ≡ oxids e) words.now }
{
    table_words::column(words, table_words::OXIDS, exporter_count(words))
}

pub fn oids(words: &[u64]) -> &[u64]
    requires { Whole words.now }
    ensures { result.now ≡ oids_of words.now }
{
    table_words::column(words, table_words::OIDS, object_count(words))
}

pub fn set_numbers(words: &[u64]) -> &[u64]
    requires { Whole words.now }
    ensures { result.now ≡ map (λ (s : PingSet). s.number) (sets_of words.now) }
{
    table_words::column(words, table_words::SET_NUMBERS, set_count(words))
}

// The halves of the interfaces' IPIDs.
pub fn ipid_lows(words: &[u64]) -> &[u64]
    requires { Whole words.now }
    ensures { result.now ≡ map (λ (i : Interface). i.ipid.low) (interfaces_of words.now) }
{
    table_words::column(words, table_words::IPID_LOWS, interface_count(words))
}

pub fn ipid_highs(words: &[u64]) -> &[u64]
    requires { Whole words.now }
    ensures { result.now ≡ map (λ (i : Interface). i.ipid.high) (interfaces_of words.now) }
{
    table_words::column(words, table_words::IPID_HIGHS, interface_count(words))
}

// A row that is not there is the number of live ones and no None: the promise of each is the definition's row (`exporter_row` and so on).

// The row of the exporter with an OXID; the number of live exporters where there is none.
pub fn exporter_row(words: &[u64], oxid: Oxid) -> usize
    requires { Whole words.now }
    ensures { Holds (λ e. result ≡ exporter_row e oxid.0) words.now }
{
    table_columns::index_of(oxids(words), oxid.0)
}

// The row of the object with an OID; the number of live objects where there is none.
pub fn object_row(words: &[u64], oid: Oid) -> usize
    requires { Whole words.now }
    ensures { Holds (λ e. result ≡ object_row e oid.0) words.now }
{
    table_columns::index_of(oids(words), oid.0)
}

// Notes the row of each identifier under its bucket. Buckets are shared: whoever tries a row compares what stands there.
pub fn hint(ids: &[u64], hints: &mut [u8; buckets::BUCKETS])
    ensures { hints.new ≡ hinted ids.now hints.old (length ids.now) }
{
    for (row, id) in ids.iter().enumerate() {
        hints[buckets::of_word(*id)] = (row % 256) as u8;
    }
}

// The same of the objects.
pub fn hint_objects(words: &[u64], hints: &mut [u8; buckets::BUCKETS])
    requires { Whole words.now }
{
    hint(oids(words), hints);
}

// The row of the set with a number; the number of live sets where there is none.
pub fn set_row(words: &[u64], set: SetId) -> usize
    requires { Whole words.now }
    ensures { Holds (λ e. result ≡ set_row e set.0) words.now }
{
    table_columns::index_of(set_numbers(words), set.0)
}

// The row of the interface with an IPID; the number of live interfaces where there is none.
pub fn interface_row(words: &[u64], ipid: Guid) -> usize
    requires { Whole words.now }
    ensures { Holds (λ e. result ≡ interface_row e ipid) words.now }
{
    table_columns::guid_index_of(ipid_lows(words), ipid_highs(words), ipid)
}

// An IPID can't be entered: it is nil, or that of a remote-unknown or other interface.
pub fn ipid_taken(words: &[u64], ipid: Guid) -> bool
    requires { Whole words.now }
    ensures { Holds (λ e. result ≡ (same_guid ipid nil || some (same_guid ipid) (ipids e))) words.now }
{
    if table_columns::is_nil(ipid) {
        return true;
    }
    let n = exporter_count(words);
    let lows = table_words::column(words, table_words::UNKNOWN_LOWS, n);
    let highs = table_words::column(words, table_words::UNKNOWN_HIGHS, n);
    table_columns::has_guid(lows, highs, ipid)
        || table_columns::has_guid(ipid_lows(words), ipid_highs(words), ipid)
}

// Count k of interface i: the public one is 0, that of client c is 1 + c.
pub fn count(words: &[u64], i: usize, k: usize) -> u32
    requires { Whole words.now × (i < interface_count words.now) × (k < 9) }
    ensures { result ≡ count_of k (get_or (interfaces_of words.now) i no_interface) }
{
    (words[table_words::COUNTS + limits::INTERFACE_PLACES * k + i]
        % table_words::COUNT_LIMIT) as u32
}

// The object of interface i.
pub fn interface_object(words: &[u64], i: usize) -> Oid
    requires { Whole words.now × (i < interface_count words.now) }
    ensures { result.0 ≡ (get_or (interfaces_of words.now) i no_interface).object }
{
    Oid(words[table_words::INTERFACE_OBJECTS + i])
}

// The IPID of interface i.
pub fn ipid(words: &[u64], i: usize) -> Guid
    requires { Whole words.now × (i < interface_count words.now) }
    ensures { result ≡ (get_or (interfaces_of words.now) i no_interface).ipid }
{
    Guid {
        low: words[table_words::IPID_LOWS + i],
        high: words[table_words::IPID_HIGHS + i],
    }
}

// The IID of interface i.
pub fn iid(words: &[u64], i: usize) -> Guid
    requires { Whole words.now × (i < interface_count words.now) }
    ensures { result ≡ (get_or (interfaces_of words.now) i no_interface).iid }
{
    Guid {
        low: words[table_words::IID_LOWS + i],
        high: words[table_words::IID_HIGHS + i],
    }
}

// The object of an interface, its public count and the private one of a client.
#[derive(Clone, Copy)]
pub struct InterfaceCounts {
    pub object: Oid,
    pub public: u32,
    pub private: u32,
}

pub fn interface_counts(words: &[u64], i: usize, client: usize) -> InterfaceCounts
    requires { Whole words.now × (i < interface_count words.now) × (client < 8) }
    ensures { result ≡ counts_at words.now i client }
{
    InterfaceCounts {
        object: interface_object(words, i),
        public: count(words, i, 0),
        private: count(words, i, client + 1),
    }
}

// Whether a reference to interface i is held. The public count is looked at first.
pub fn is_held(words: &[u64], i: usize) -> bool
    requires { Whole words.now × (i < interface_count words.now) }
    ensures { result ≡ held (get_or (interfaces_of words.now) i no_interface) }
{
    (0..9).any(|k| count(words, i, k) != 0)
}

// The objects that the interfaces name.
pub fn interface_objects(words: &[u64]) -> &[u64]
    requires { Whole words.now }
    ensures { result.now ≡ map (λ (i : Interface). i.object) (interfaces_of words.now) }
{
    table_words::column(
        words,
        table_words::INTERFACE_OBJECTS,
        interface_count(words),
    )
}

// Whether an interface names an object.
pub fn is_served(words: &[u64], oid: Oid) -> bool
    requires { Whole words.now }
    ensures { Holds (λ e. result ≡ some (λ (i : Interface). eqb oid.0 i.object) e.interfaces) words.now }
{
    table_columns::has(interface_objects(words), oid.0)
}

// The OID of object i.
pub fn oid(words: &[u64], i: usize) -> Oid
    requires { Whole words.now × (i < object_count words.now) }
    ensures { result.0 ≡ (get_or (objects_of words.now) i no_object).oid }
{
    Oid(words[table_words::OIDS + i])
}

// The OXID of object i's exporter.
pub fn object_exporter(words: &[u64], i: usize) -> Oxid
    requires { Whole words.now × (i < object_count words.now) }
    ensures { result.0 ≡ (get_or (objects_of words.now) i no_object).exporter }
{
    Oxid(words[table_words::OBJECT_EXPORTERS + i])
}

// Whether object i has the no-ping mark.
pub fn is_unpinged(words: &[u64], i: usize) -> bool
    requires { Whole words.now × (i < object_count words.now) }
    ensures { result ≡ (get_or (objects_of words.now) i no_object).noping }
{
    words[table_words::NO_PING_MARKS + i] != 0
}

// The time object i was last heard.
pub fn heard(words: &[u64], i: usize) -> u64
    requires { Whole words.now × (i < object_count words.now) }
    ensures { result ≡ (get_or (objects_of words.now) i no_object).heard }
{
    words[table_words::HEARD_TIMES + i]
}

// Object i is not pinged, or was heard under 360 seconds before a time.
pub fn is_heard_within(words: &[u64], i: usize, time: u64) -> bool
    requires { Whole words.now × (i < object_count words.now) }
    ensures { result ≡ heard_within time (get_or (objects_of words.now) i no_object) }
{
    is_unpinged(words, i) || table_columns::is_within(heard(words, i), time, table_words::TIMEOUT)
}

// Set i was pinged under 360 seconds before a time.
pub fn is_pinged_within(words: &[u64], i: usize, time: u64) -> bool
    requires { Whole words.now × (i < set_count words.now) }
    ensures { result ≡ pinged_within time (get_or (sets_of words.now) i no_set) }
{
    table_columns::is_within(pinged(words, i), time, table_words::TIMEOUT)
}

// The number of set i.
pub fn set_number(words: &[u64], i: usize) -> SetId
    requires { Whole words.now × (i < set_count words.now) }
    ensures { result.0 ≡ (get_or (sets_of words.now) i no_set).number }
{
    SetId(words[table_words::SET_NUMBERS + i])
}

// The time of the last ping of set i.
pub fn pinged(words: &[u64], i: usize) -> u64
    requires { Whole words.now × (i < set_count words.now) }
    ensures { result ≡ (get_or (sets_of words.now) i no_set).pinged }
{
    words[table_words::PING_TIMES + i]
}

// The sequence number of set i.
pub fn sequence(words: &[u64], i: usize) -> u16
    requires { Whole words.now × (i < set_count words.now) }
    ensures { result ≡ (get_or (sets_of words.now) i no_set).sequence }
{
    (words[table_words::SEQUENCES + i] % table_words::SEQUENCE_LIMIT) as u16
}

// The members of set i, by the objects' rows.
pub fn members(words: &[u64], i: usize) -> Members
    requires { Whole words.now × (i < set_count words.now) }
    ensures { result ≡ members_at words.now i }
{
    Members {
        low: words[table_words::MEMBER_LOWS + i],
        high: words[table_words::MEMBER_HIGHS + i],
    }
}

// The OXID of exporter i.
pub fn oxid(words: &[u64], i: usize) -> Oxid
    requires { Whole words.now × (i < exporter_count words.now) }
    ensures { (s : List ℕ) → result.0 ≡ (get_or (exporters_of words.now s) i no_exporter).oxid }
{
    Oxid(words[table_words::OXIDS + i])
}

// The remote-unknown IPID of exporter i.
pub fn unknown(words: &[u64], i: usize) -> Guid
    requires { Whole words.now × (i < exporter_count words.now) }
    ensures { (s : List ℕ) → result ≡ (get_or (exporters_of words.now s) i no_exporter).unknown }
{
    Guid {
        low: words[table_words::UNKNOWN_LOWS + i],
        high: words[table_words::UNKNOWN_HIGHS + i],
    }
}

// Where list i begins, where the lists before it end within the store.
pub fn list_start(store: &[u8], i: usize) -> usize
    requires { Whole store.now × (list_start store.now i ≤ length store.now) }
    ensures { result ≡ list_start store.now i }
{
    let mut at = 0;
    for _j in 0..i {
        at += bindings::stated_length(&store[at..]);
    }
    at
}

// The binding list of exporter i, where the lists keep the list rules.
pub fn list<'a>(words: &[u64], store: &'a [u8], i: usize) -> &'a [u8]
    requires { Whole store.now × (i < exporter_count words.now)
        × (lists_kept (view (memory words.now store.now)) ≡ true) }
    ensures { result.now ≡ (get_or (exporters_of words.now store.now) i no_exporter).bindings }
{
    let from = list_start(store, i);
    let to = from + bindings::stated_length(&store[from..]);
    &store[from..to]
}
