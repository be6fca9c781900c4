// An empty table, and entering exporters, objects and interfaces.
#![tactic(auto)]

ghost use Rattle.std.specs.Prelude.{◌≡◌, Bool, true, List, ℕ};
ghost use Rattle.kinds.specs.declared.Guid.{Guid};
ghost use Rattle.rules.specs.Calls.{Call, Start, Edit, numbered};
ghost use Rattle.kinds.specs.Refusals.{order};
ghost use Rattle.kinds.specs.Answers.{answer_number};
ghost use Rattle.rules.specs.Rules.{number, list_refusals};
ghost use Rattle.rules.specs.Sound.{lists_kept};
ghost use Rattle.table_view.specs.View.{memory, view, SoundTable, Stepped, Performed};
ghost use Rattle.rules.specs.Contract.{Whole};

use kinds::{Guid, Oid, Oxid, Refusal, limits};
use table_view::find;

// Empties the table and sets its clock: 0, or 1 where a length is wrong. It looks at nothing but the lengths.
pub fn reset(words: &mut [u64], store: &[u8], time: u64) -> Result<(), Refusal>
    ensures { Performed (Call.starting (Start.reset time)) (memory words.old store.now) (numbered (answer_number result))
        (memory words.new store.now) }
{
    if words.len() != limits::WORDS {
        return Err(Refusal::Unsound);
    }
    if store.len() != limits::BYTES {
        return Err(Refusal::Unsound);
    }
    table_edit::clear(words, time);
    Ok(())
}

// The number of a new exporter's list: 13; 14; 19; 9.
pub fn list_answer(words: &[u64], store: &[u8], list: &[u8]) -> Result<(), Refusal>
    requires { Whole words.now × Whole store.now × (lists_kept (view (memory words.now store.now)) ≡ true) }
    ensures { answer_number result ≡ order (list_refusals list.now (view (memory words.now store.now))) }
{
    bindings::list_answer(list)?;
    if limits::LONGEST_LIST < list.len() {
        return Err(Refusal::LongList);
    }
    let n = find::exporter_count(words);
    if limits::EXPORTER_PLACES <= n {
        return Err(Refusal::NoPlace);
    }
    if limits::BYTES < find::list_start(store, n) + list.len() {
        return Err(Refusal::NoPlace);
    }
    Ok(())
}

// The number of an entry: 3; 13; 14; 19; 9.
fn exporter_answer(
    words: &[u64],
    store: &[u8],
    oxid: Oxid,
    unknown: Guid,
    list: &[u8],
) -> Result<(), Refusal>
    requires { SoundTable (memory words.now store.now) }
    ensures { answer_number result ≡ number (Call.editing (Edit.enter_exporter oxid.0 unknown list.now)) (view (memory words.now store.now)) }
{
    if oxid.0 == 0 {
        return Err(Refusal::BadIdentifier);
    }
    if find::exporter_row(words, oxid) < find::exporter_count(words) {
        return Err(Refusal::BadIdentifier);
    }
    if find::ipid_taken(words, unknown) {
        return Err(Refusal::BadIdentifier);
    }
    list_answer(words, store, list)
}

// The call on a sound table.
pub fn enter_exporter_step(
    words: &mut [u64],
    store: &mut [u8],
    oxid: Oxid,
    unknown: Guid,
    list: &[u8],
) -> Result<(), Refusal>
    requires { SoundTable (memory words.old store.old) }
    ensures { Stepped (Call.editing (Edit.enter_exporter oxid.0 unknown list.now)) (memory words.old store.old)
        (numbered (answer_number result)) (memory words.new store.new) }
{
    exporter_answer(words, store, oxid, unknown, list)?;
    table_edit::append_exporter(words, store, oxid, unknown, list);
    Ok(())
}

// The number of an entry: 3; 4; 7; 9.
fn object_answer(
    words: &[u64],
    oid: Oid,
    oxid: Oxid,
    ipid: Guid,
    public: u32,
) -> Result<(), Refusal>
    requires { Whole words.now }
    ensures { (s : List ℕ) (iid : Guid) (np : Bool) → answer_number result ≡ number (Call.editing (Edit.enter_object oid.0 oxid.0 ipid iid public np)) (view (memory words.now s)) }
{
    if oid.0 == 0 {
        return Err(Refusal::BadIdentifier);
    }
    if find::object_row(words, oid) < find::object_count(words) {
        return Err(Refusal::BadIdentifier);
    }
    if find::ipid_taken(words, ipid) {
        return Err(Refusal::BadIdentifier);
    }
    if find::exporter_count(words) <= find::exporter_row(words, oxid) {
        return Err(Refusal::NoExporter);
    }
    if public == 0 {
        return Err(Refusal::NoReferences);
    }
    if limits::OBJECT_PLACES <= find::object_count(words) {
        return Err(Refusal::NoPlace);
    }
    if limits::INTERFACE_PLACES <= find::interface_count(words) {
        return Err(Refusal::NoPlace);
    }
    Ok(())
}

// The call on a sound table.
pub fn enter_object_step(
    words: &mut [u64],
    store: &[u8],
    oid: Oid,
    oxid: Oxid,
    ipid: Guid,
    iid: Guid,
    public: u32,
    no_ping: bool,
) -> Result<(), Refusal>
    requires { SoundTable (memory words.old store.now) }
    ensures { Stepped (Call.editing (Edit.enter_object oid.0 oxid.0 ipid iid public no_ping)) (memory words.old store.now)
        (numbered (answer_number result)) (memory words.new store.now) }
{
    object_answer(words, oid, oxid, ipid, public)?;
    table_edit::append_object(words, oid, oxid, no_ping);
    table_edit::append_interface(words, ipid, iid, oid, public);
    Ok(())
}

// The number of an entry: 3; 5; 7; 9.
fn interface_answer(words: &[u64], oid: Oid, ipid: Guid, public: u32) -> Result<(), Refusal>
    requires { Whole words.now }
    ensures { (s : List ℕ) (iid : Guid) → answer_number result ≡ number (Call.editing (Edit.enter_interface oid.0 ipid iid public)) (view (memory words.now s)) }
{
    if find::ipid_taken(words, ipid) {
        return Err(Refusal::BadIdentifier);
    }
    if find::object_count(words) <= find::object_row(words, oid) {
        return Err(Refusal::NoObject);
    }
    if public == 0 {
        return Err(Refusal::NoReferences);
    }
    if limits::INTERFACE_PLACES <= find::interface_count(words) {
        return Err(Refusal::NoPlace);
    }
    Ok(())
}

// The call on a sound table.
pub fn enter_interface_step(
    words: &mut [u64],
    store: &[u8],
    oid: Oid,
    ipid: Guid,
    iid: Guid,
    public: u32,
) -> Result<(), Refusal>
    requires { SoundTable (memory words.old store.now) }
    ensures { Stepped (Call.editing (Edit.enter_interface oid.0 ipid iid public)) (memory words.old store.now)
        (numbered (answer_number result)) (memory words.new store.now) }
{
    interface_answer(words, oid, ipid, public)?;
    table_edit::append_interface(words, ipid, iid, oid, public);
    Ok(())
}
