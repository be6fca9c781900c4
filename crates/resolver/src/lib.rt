// Every call on the table, with its promise. Each takes the table as it is lent, judges it, refuses it by 1 where it is not sound, and else
// performs the call's step; a refused call changes nothing. Reset and load start the table anew, and look at lengths only; so does the
// replay of a recording, which stands in `replaying`.
#![tactic(auto)]

ghost use Rattle.std.specs.Prelude.{◌≡◌};
ghost use Rattle.fields.specs.Writers.{wrote};
ghost use Rattle.kinds.specs.Answers.{answer_number};
ghost use Rattle.kinds.specs.declared.Guid.{Guid};
ghost use Rattle.rules.specs.Calls.{Call, Edit, Look, Start, adding, numbered, releasing};
ghost use Rattle.rules.specs.Rules.{number};
ghost use Rattle.table_view.specs.View.{Performed, memory, view};
ghost use Rattle.rules.specs.Contract.{reply_to};
ghost use Rattle.call_remove.specs.Replies.{clock_reply, expired};
ghost use Rattle.call_references.specs.Replies.{release_reply, released};
ghost use Rattle.call_lists.specs.Listing.{list_reply};
ghost use Rattle.call_ping.specs.Replies.{ping_reply, pinged};
ghost use Rattle.call_look.specs.Replies.{census_reply, live_counts, members_reply, member_count, resolve_reply, resolved};
ghost use Rattle.call_look.specs.NextStop.{stopped, StopFound, StopPart};
ghost use Rattle.call_save.specs.Replies.{written_reply};

pub use call_look::{Live, LiveCounts, MemberCount, Resolution, Resolved, Stop, StopPlace};
pub use call_ping::Pinged;
pub use call_references::{Released, Taken};
pub use call_remove::{Expired, Gone};
use kinds::{Guid, Oid, Oxid, Refusal, SetId, answer};
use table_columns::buckets;

// Empties the table and sets its clock: 0, or 1 (lengths only).
pub fn reset(words: &mut [u64], store: &[u8], time: u64) -> Result<(), Refusal>
    ensures { Performed (Call.starting (Start.reset time)) (memory words.old store.now) (numbered (answer_number result))
        (memory words.new store.now) }
{
    call_enter::reset(words, store, time)
}

// Enters an exporter with its remote-unknown IPID and its binding list: 0, or 1; 3; 13; 14; 19; 9.
pub fn enter_exporter(
    words: &mut [u64],
    store: &mut [u8],
    oxid: Oxid,
    unknown: Guid,
    list: &[u8],
) -> Result<(), Refusal>
    ensures { Performed (Call.editing (Edit.enter_exporter oxid.0 unknown list.now)) (memory words.old store.old)
        (numbered (answer_number result)) (memory words.new store.new) }
{
    if !table_judge::sound(words, store) {
        return Err(Refusal::Unsound);
    }
    call_enter::enter_exporter_step(words, store, oxid, unknown, list)
}

// Enters an object with its first interface: 0, or 1; 3; 4; 7; 9.
pub fn enter_object(
    words: &mut [u64],
    store: &[u8],
    oid: Oid,
    oxid: Oxid,
    ipid: Guid,
    iid: Guid,
    public: u32,
    no_ping: bool,
) -> Result<(), Refusal>
    ensures { Performed (Call.editing (Edit.enter_object oid.0 oxid.0 ipid iid public no_ping)) (memory words.old store.now)
        (numbered (answer_number result)) (memory words.new store.now) }
{
    if !table_judge::sound(words, store) {
        return Err(Refusal::Unsound);
    }
    call_enter::enter_object_step(words, store, oid, oxid, ipid, iid, public, no_ping)
}

// Enters an interface of a live object: 0, or 1; 3; 5; 7; 9.
pub fn enter_interface(
    words: &mut [u64],
    store: &[u8],
    oid: Oid,
    ipid: Guid,
    iid: Guid,
    public: u32,
) -> Result<(), Refusal>
    ensures { Performed (Call.editing (Edit.enter_interface oid.0 ipid iid public)) (memory words.old store.now)
        (numbered (answer_number result)) (memory words.new store.now) }
{
    if !table_judge::sound(words, store) {
        return Err(Refusal::Unsound);
    }
    call_enter::enter_interface_step(words, store, oid, ipid, iid, public)
}

// Removes an exporter with its objects, their interfaces and memberships: 0, or 1; 4.
pub fn remove_exporter(words: &mut [u64], store: &mut [u8], oxid: Oxid) -> Result<(), Refusal>
    ensures { Performed (Call.editing (Edit.remove_exporter oxid.0)) (memory words.old store.old)
        (numbered (answer_number result)) (memory words.new store.new) }
{
    if !table_judge::sound(words, store) {
        return Err(Refusal::Unsound);
    }
    call_remove::remove_exporter_step(words, store, oxid)
}

// Sets the clock. Sets and pinged objects that were not heard for 360 seconds or more go: 0, or 1; 2.
pub fn clock(words: &mut [u64], store: &[u8], time: u64) -> Result<Gone, Refusal>
    ensures { Performed (Call.editing (Edit.clock time)) (memory words.old store.now)
        (clock_reply (expired result)) (memory words.new store.now) }
{
    if !table_judge::sound(words, store) {
        return Err(Refusal::Unsound);
    }
    call_remove::clock_step(words, store, time)
}

// Adds to the public count of an interface and to the private one of a client: 0, or 1; 20; 6; 8.
pub fn add(
    words: &mut [u64],
    store: &[u8],
    client: u32,
    ipid: Guid,
    public: u32,
    private: u32,
) -> Result<(), Refusal>
    ensures { Performed (Call.editing (Edit.add client ipid public private)) (memory words.old store.now)
        (numbered (answer_number result)) (memory words.new store.now) }
{
    if !table_judge::sound(words, store) {
        return Err(Refusal::Unsound);
    }
    call_references::add_step(words, store, client, ipid, public, private)
}

// Gives references back: the public count and the client's private one fall by the smaller of the asked number and themselves. An
// interface without references goes, and an object without interfaces, from its sets too. 0, or 1; 20; 6.
pub fn release(
    words: &mut [u64],
    store: &[u8],
    client: u32,
    ipid: Guid,
    public: u32,
    private: u32,
) -> Result<Taken, Refusal>
    ensures { Performed (Call.editing (Edit.release client ipid public private)) (memory words.old store.now)
        (release_reply (released result)) (memory words.new store.now) }
{
    if !table_judge::sound(words, store) {
        return Err(Refusal::Unsound);
    }
    call_references::release_step(words, store, client, ipid, public, private)
}

// Drops every private reference of a client. What is left without references goes as in a release: 0, or 1; 20.
pub fn drop_client(words: &mut [u64], store: &[u8], client: u32) -> Result<(), Refusal>
    ensures { Performed (Call.editing (Edit.drop_client client)) (memory words.old store.now)
        (numbered (answer_number result)) (memory words.new store.now) }
{
    if !table_judge::sound(words, store) {
        return Err(Refusal::Unsound);
    }
    call_references::drop_client_step(words, store, client)
}

// Adds references by a list of items for a client, and writes the number of each item to its byte of buffer, whose rest is kept:
// 0, or 1; 20; 13; 10; 15. An item's own number is 0, 6 or 8, and does not stop the rest.
pub fn add_list(
    words: &mut [u64],
    store: &[u8],
    client: u32,
    items: &[u8],
    buffer: &mut [u8],
) -> Result<(), Refusal>
    ensures { Performed (Call.count_list adding client items.now buffer.old) (memory words.old store.now)
        (list_reply (answer_number result) buffer.new) (memory words.new store.now) }
{
    let mut rows = [0u8; buckets::BUCKETS];
    if !table_judge::sound_indexed(words, store, &mut rows) {
        return Err(Refusal::Unsound);
    }
    call_lists::list_step(words, store, false, client, items, buffer, &mut rows)
}

// Gives references back by a list of items, likewise.
pub fn release_list(
    words: &mut [u64],
    store: &[u8],
    client: u32,
    items: &[u8],
    buffer: &mut [u8],
) -> Result<(), Refusal>
    ensures { Performed (Call.count_list releasing client items.now buffer.old) (memory words.old store.now)
        (list_reply (answer_number result) buffer.new) (memory words.new store.now) }
{
    let mut rows = [0u8; buckets::BUCKETS];
    if !table_judge::sound_indexed(words, store, &mut rows) {
        return Err(Refusal::Unsound);
    }
    call_lists::list_step(words, store, true, client, items, buffer, &mut rows)
}

// Pings a set: 0, or 1; 11.
pub fn simple_ping(words: &mut [u64], store: &[u8], set: SetId) -> Result<(), Refusal>
    ensures { Performed (Call.editing (Edit.simple_ping set.0)) (memory words.old store.now)
        (numbered (answer_number result)) (memory words.new store.now) }
{
    if !table_judge::sound(words, store) {
        return Err(Refusal::Unsound);
    }
    call_ping::simple_ping_step(words, store, set)
}

// Adds objects to a set, takes objects out of it and pings it; for set 0 a set is made: 0, or 1; 10; of a set other than 0: 11; 12; 5;
// of set 0: 5; 9; 18.
pub fn complex_ping(
    words: &mut [u64],
    store: &[u8],
    set: SetId,
    sequence: u16,
    adds: &[u64],
    deletes: &[u64],
) -> Result<SetId, Refusal>
    ensures { Performed (Call.editing (Edit.complex_ping set.0 sequence adds.now deletes.now))
        (memory words.old store.now) (ping_reply (pinged result)) (memory words.new store.now) }
{
    if !table_judge::sound(words, store) {
        return Err(Refusal::Unsound);
    }
    call_ping::complex_ping_step(words, store, set, sequence, adds, deletes)
}

// The live number of each kind: 0, or 1.
pub fn census(words: &[u64], store: &[u8]) -> Result<Live, Refusal>
    ensures { Performed (Call.looking Look.census) (memory words.now store.now) (census_reply (live_counts result))
        (memory words.now store.now) }
{
    if !table_judge::sound(words, store) {
        return Err(Refusal::Unsound);
    }
    Ok(call_look::census_step(words, store))
}

// The number of members of a set: 0, or 1; 11.
pub fn members(words: &[u64], store: &[u8], set: SetId) -> Result<usize, Refusal>
    ensures { Performed (Call.looking (Look.members set.0)) (memory words.now store.now) (members_reply (member_count result))
        (memory words.now store.now) }
{
    if !table_judge::sound(words, store) {
        return Err(Refusal::Unsound);
    }
    call_look::members_step(words, store, set)
}

// Writes an exporter's binding list at the front of buffer and keeps the rest: 0, or 1; 4; 15.
pub fn resolve(
    words: &[u64],
    store: &[u8],
    oxid: Oxid,
    buffer: &mut [u8],
) -> Result<Resolution, Refusal>
    ensures { Performed (Call.looking (Look.resolve oxid.0 buffer.old)) (memory words.now store.now)
        (resolve_reply (resolved result) buffer.new) (memory words.now store.now) }
{
    if !table_judge::sound(words, store) {
        return Err(Refusal::Unsound);
    }
    call_look::resolve_step(words, store, oxid, buffer)
}

// The same of the list with only the string bindings whose tower is requested: 0, or 1; 10; 4; 15.
pub fn resolve_filtered(
    words: &[u64],
    store: &[u8],
    oxid: Oxid,
    protocols: &[u16],
    buffer: &mut [u8],
) -> Result<Resolution, Refusal>
    ensures { Performed (Call.looking (Look.resolve_filtered oxid.0 protocols.now buffer.old)) (memory words.now store.now)
        (resolve_reply (resolved result) buffer.new) (memory words.now store.now) }
{
    if !table_judge::sound(words, store) {
        return Err(Refusal::Unsound);
    }
    call_look::resolve_filtered_step(words, store, oxid, protocols, buffer)
}

// Where the next stop stands: 0, or 1; the reference's 13, 14, 21 or 22; 14 for a custom reference.
pub fn next_stop_place(words: &[u64], store: &[u8], reference: &[u8]) -> Result<Stop, Refusal>
    ensures { StopFound (memory words.now store.now) reference.now (stopped result) }
{
    if !table_judge::sound(words, store) {
        return Err(Refusal::Unsound);
    }
    call_look::next_stop_step(words, store, reference)
}

// The number of the next stop, as above.
pub fn next_stop_answer(words: &[u64], store: &[u8], reference: &[u8]) -> u32
    ensures { result ≡ (reply_to view (Call.looking (Look.next_stop reference.now)) (memory words.now store.now)).number }
{
    StopPlace::from(next_stop_place(words, store, reference)).answer
}

// The next stop, a part of the store or of the reference; no bytes where it is refused. A part of the store is lent until a call changes
// the store.
pub fn next_stop<'a>(words: &[u64], store: &'a [u8], reference: &'a [u8]) -> &'a [u8]
    ensures { StopPart (memory words.now store.now) reference.now
        store.entry.ref_ptr reference.entry.ref_ptr result.ref_ptr result.now }
{
    match next_stop_place(words, store, reference) {
        Ok(Stop::InStore(there)) => &store[there],
        Ok(Stop::InReference(there)) => &reference[there],
        Err(_) => &reference[..0],
    }
}

// Writes the snapshot of the table at the front of buffer and keeps the rest: 0 and the snapshot's length, or 1; 15.
pub fn write_snapshot(words: &[u64], store: &[u8], buffer: &mut [u8]) -> Result<usize, Refusal>
    ensures { Performed (Call.looking (Look.write_snapshot buffer.old)) (memory words.now store.now)
        (written_reply (wrote result) buffer.new) (memory words.now store.now) }
{
    if !table_judge::sound(words, store) {
        return Err(Refusal::Unsound);
    }
    call_save::write_snapshot_step(words, store, buffer)
}

// Loads a snapshot: 0, or 1 (lengths only); 23.
pub fn load_snapshot(words: &mut [u64], store: &mut [u8], snapshot: &[u8]) -> Result<(), Refusal>
    ensures { Performed (Call.starting (Start.load_snapshot snapshot.now)) (memory words.old store.old) (numbered (answer_number result))
        (memory words.new store.new) }
{
    call_load::load_snapshot(words, store, snapshot)
}
