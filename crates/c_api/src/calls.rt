// The calls on a table: an array of 8,192 words and a store of 8,192 bytes.
ghost use Rattle.rules.specs.Calls.{Call, Start, Look, Edit, adding, releasing, numbered};
ghost use Rattle.table_view.specs.View.{memory, Performed};
ghost use Rattle.call_look.specs.Replies.{census_reply, members_reply, resolve_reply};
ghost use Rattle.call_references.specs.Replies.{release_reply};
ghost use Rattle.call_remove.specs.Replies.{clock_reply};
ghost use Rattle.call_lists.specs.Listing.{list_reply};
ghost use Rattle.call_ping.specs.Replies.{ping_reply};
ghost use Rattle.call_look.specs.NextStop.{StopFound};
ghost use Rattle.call_save.specs.Replies.{written_reply};
ghost use Rattle.replay_rules.specs.Replay.{Replayed};
ghost use Rattle.recording.specs.Whole.{Found};

use fields::Written;
use kinds::{Guid, Oid, Oxid, SetId};
use recording::Prefix;
use replay_rules::Outcome;
use resolver::{Expired, LiveCounts, MemberCount, Pinged, Released, Resolved, StopPlace};

// Empties the table and sets its clock.
#[unsafe(no_mangle)]
pub extern "C" fn rimonakh_reset(words: &mut [u64], store: &[u8], time: u64) -> u32
    ensures { Performed (Call.starting (Start.reset time)) (memory words.old store.now) (numbered result)
        (memory words.new store.now) }
{
    kinds::number(resolver::reset(words, store, time))
}

// The live number of each kind.
#[unsafe(no_mangle)]
pub extern "C" fn rimonakh_census(words: &[u64], store: &[u8]) -> LiveCounts
    ensures { Performed (Call.looking Look.census) (memory words.now store.now) (census_reply result)
        (memory words.now store.now) }
{
    resolver::census(words, store).into()
}

// The number of members of a set.
#[unsafe(no_mangle)]
pub extern "C" fn rimonakh_members(words: &[u64], store: &[u8], set: u64) -> MemberCount
    ensures { Performed (Call.looking (Look.members set)) (memory words.now store.now) (members_reply result)
        (memory words.now store.now) }
{
    resolver::members(words, store, SetId(set)).into()
}

// Enters an exporter.
#[unsafe(no_mangle)]
pub extern "C" fn rimonakh_enter_exporter(
    words: &mut [u64],
    store: &mut [u8],
    oxid: u64,
    unknown_low: u64,
    unknown_high: u64,
    list: &[u8],
) -> u32
    ensures { Performed (Call.editing (Edit.enter_exporter oxid (record { low = unknown_low; high = unknown_high }) list.now))
        (memory words.old store.old) (numbered result) (memory words.new store.new) }
{
    let unknown = Guid {
        low: unknown_low,
        high: unknown_high,
    };
    kinds::number(resolver::enter_exporter(words, store, Oxid(oxid), unknown, list))
}

// Removes an exporter.
#[unsafe(no_mangle)]
pub extern "C" fn rimonakh_remove_exporter(words: &mut [u64], store: &mut [u8], oxid: u64) -> u32
    ensures { Performed (Call.editing (Edit.remove_exporter oxid)) (memory words.old store.old)
        (numbered result) (memory words.new store.new) }
{
    kinds::number(resolver::remove_exporter(words, store, Oxid(oxid)))
}

// Enters an object with its first interface.
#[unsafe(no_mangle)]
pub extern "C" fn rimonakh_enter_object(
    words: &mut [u64],
    store: &[u8],
    oid: u64,
    oxid: u64,
    ipid_low: u64,
    ipid_high: u64,
    iid_low: u64,
    iid_high: u64,
    public: u32,
    no_ping: bool,
) -> u32
    ensures { Performed
        (Call.editing (Edit.enter_object oid oxid (record { low = ipid_low; high = ipid_high }) (record { low = iid_low; high = iid_high }) public no_ping))
        (memory words.old store.now) (numbered result) (memory words.new store.now) }
{
    let ipid = Guid {
        low: ipid_low,
        high: ipid_high,
    };
    let iid = Guid {
        low: iid_low,
        high: iid_high,
    };
    let entered = resolver::enter_object(
        words,
        store,
        Oid(oid),
        Oxid(oxid),
        ipid,
        iid,
        public,
        no_ping,
    );
    kinds::number(entered)
}

// Enters an interface of a live object.
#[unsafe(no_mangle)]
pub extern "C" fn rimonakh_enter_interface(
    words: &mut [u64],
    store: &[u8],
    oid: u64,
    ipid_low: u64,
    ipid_high: u64,
    iid_low: u64,
    iid_high: u64,
    public: u32,
) -> u32
    ensures { Performed (Call.editing (Edit.enter_interface oid (record { low = ipid_low; high = ipid_high }) (record { low = iid_low; high = iid_high }) public))
        (memory words.old store.now) (numbered result) (memory words.new store.now) }
{
    let ipid = Guid {
        low: ipid_low,
        high: ipid_high,
    };
    let iid = Guid {
        low: iid_low,
        high: iid_high,
    };
    kinds::number(resolver::enter_interface(words, store, Oid(oid), ipid, iid, public))
}

// Adds to the public count of an interface and to the private one of a client.
#[unsafe(no_mangle)]
pub extern "C" fn rimonakh_add(
    words: &mut [u64],
    store: &[u8],
    client: u32,
    ipid_low: u64,
    ipid_high: u64,
    public: u32,
    private: u32,
) -> u32
    ensures { Performed (Call.editing (Edit.add client (record { low = ipid_low; high = ipid_high }) public private)) (memory words.old store.now)
        (numbered result) (memory words.new store.now) }
{
    let ipid = Guid {
        low: ipid_low,
        high: ipid_high,
    };
    kinds::number(resolver::add(words, store, client, ipid, public, private))
}

// Gives references of an interface back, private ones of a client.
#[unsafe(no_mangle)]
pub extern "C" fn rimonakh_release(
    words: &mut [u64],
    store: &[u8],
    client: u32,
    ipid_low: u64,
    ipid_high: u64,
    public: u32,
    private: u32,
) -> Released
    ensures { Performed (Call.editing (Edit.release client (record { low = ipid_low; high = ipid_high }) public private)) (memory words.old store.now)
        (release_reply result) (memory words.new store.now) }
{
    let ipid = Guid {
        low: ipid_low,
        high: ipid_high,
    };
    resolver::release(words, store, client, ipid, public, private).into()
}

// Drops every private reference of a client.
#[unsafe(no_mangle)]
pub extern "C" fn rimonakh_drop_client(words: &mut [u64], store: &[u8], client: u32) -> u32
    ensures { Performed (Call.editing (Edit.drop_client client)) (memory words.old store.now)
        (numbered result) (memory words.new store.now) }
{
    kinds::number(resolver::drop_client(words, store, client))
}

// Adds references by a list of items of 24 bytes, and writes the number of each to its byte of results.
#[unsafe(no_mangle)]
pub extern "C" fn rimonakh_add_list(
    words: &mut [u64],
    store: &[u8],
    client: u32,
    items: &[u8],
    results: &mut [u8],
) -> u32
    ensures { Performed (Call.count_list adding client items.now results.old) (memory words.old store.now)
        (list_reply result results.new) (memory words.new store.now) }
{
    kinds::number(resolver::add_list(words, store, client, items, results))
}

// Gives references back by a list of items, likewise.
#[unsafe(no_mangle)]
pub extern "C" fn rimonakh_release_list(
    words: &mut [u64],
    store: &[u8],
    client: u32,
    items: &[u8],
    results: &mut [u8],
) -> u32
    ensures { Performed (Call.count_list releasing client items.now results.old) (memory words.old store.now)
        (list_reply result results.new) (memory words.new store.now) }
{
    kinds::number(resolver::release_list(words, store, client, items, results))
}

// Pings a set.
#[unsafe(no_mangle)]
pub extern "C" fn rimonakh_simple_ping(words: &mut [u64], store: &[u8], set: u64) -> u32
    ensures { Performed (Call.editing (Edit.simple_ping set)) (memory words.old store.now)
        (numbered result) (memory words.new store.now) }
{
    kinds::number(resolver::simple_ping(words, store, SetId(set)))
}

// Adds objects to a set, takes objects out of it and pings it; set 0 makes a set.
#[unsafe(no_mangle)]
pub extern "C" fn rimonakh_complex_ping(
    words: &mut [u64],
    store: &[u8],
    set: u64,
    sequence: u16,
    adds: &[u64],
    deletes: &[u64],
) -> Pinged
    ensures { Performed (Call.editing (Edit.complex_ping set sequence adds.now deletes.now))
        (memory words.old store.now) (ping_reply result) (memory words.new store.now) }
{
    resolver::complex_ping(words, store, SetId(set), sequence, adds, deletes).into()
}

// Sets the clock.
#[unsafe(no_mangle)]
pub extern "C" fn rimonakh_clock(words: &mut [u64], store: &[u8], time: u64) -> Expired
    ensures { Performed (Call.editing (Edit.clock time)) (memory words.old store.now)
        (clock_reply result) (memory words.new store.now) }
{
    resolver::clock(words, store, time).into()
}

// Writes an exporter's binding list at the front of buffer.
#[unsafe(no_mangle)]
pub extern "C" fn rimonakh_resolve(
    words: &[u64],
    store: &[u8],
    oxid: u64,
    buffer: &mut [u8],
) -> Resolved
    ensures { Performed (Call.looking (Look.resolve oxid buffer.old)) (memory words.now store.now)
        (resolve_reply result buffer.new) (memory words.now store.now) }
{
    resolver::resolve(words, store, Oxid(oxid), buffer).into()
}

// Writes an exporter's binding list with only the string bindings of the requested protocols at the front of buffer.
#[unsafe(no_mangle)]
pub extern "C" fn rimonakh_resolve_filtered(
    words: &[u64],
    store: &[u8],
    oxid: u64,
    protocols: &[u16],
    buffer: &mut [u8],
) -> Resolved
    ensures { Performed (Call.looking (Look.resolve_filtered oxid protocols.now buffer.old)) (memory words.now store.now)
        (resolve_reply result buffer.new) (memory words.now store.now) }
{
    resolver::resolve_filtered(words, store, Oxid(oxid), protocols, buffer).into()
}

// Where to go next with a reference: the list of its exporter in the store, or its own list. A place in the store holds until the next
// call that changes the store.
#[unsafe(no_mangle)]
pub extern "C" fn rimonakh_next_stop(words: &[u64], store: &[u8], reference: &[u8]) -> StopPlace
    ensures { StopFound (memory words.now store.now) reference.now result }
{
    StopPlace::from(resolver::next_stop_place(words, store, reference))
}

// Writes the live entries as a snapshot, at the front of buffer.
#[unsafe(no_mangle)]
pub extern "C" fn rimonakh_write_snapshot(words: &[u64], store: &[u8], buffer: &mut [u8]) -> Written
    ensures { Performed (Call.looking (Look.write_snapshot buffer.old)) (memory words.now store.now)
        (written_reply result buffer.new) (memory words.now store.now) }
{
    resolver::write_snapshot(words, store, buffer).into()
}

// Loads a snapshot into the table.
#[unsafe(no_mangle)]
pub extern "C" fn rimonakh_load_snapshot(
    words: &mut [u64],
    store: &mut [u8],
    snapshot: &[u8],
) -> u32
    ensures { Performed (Call.starting (Start.load_snapshot snapshot.now)) (memory words.old store.old) (numbered result)
        (memory words.new store.new) }
{
    kinds::number(resolver::load_snapshot(words, store, snapshot))
}

// Replays a recorded shift from a reset at 0.
#[unsafe(no_mangle)]
pub extern "C" fn rimonakh_replay(words: &mut [u64], store: &mut [u8], recording: &[u8]) -> Outcome
    ensures { Replayed (memory words.old store.old) recording.now result (memory words.new store.new) }
{
    replaying::replay(words, store, recording)
}

// How many records from byte 8 are whole and well formed, and where they end.
#[unsafe(no_mangle)]
pub extern "C" fn rimonakh_whole_records(recording: &[u8]) -> Prefix
    ensures { Found recording.now result }
{
    recording::whole_records(recording)
}
