// Loading a snapshot: the entries that its bytes hold take the table's place.
#![tactic(auto)]

ghost use Rattle.std.specs.Prelude.{◌≡◌, true, ◌+◌, ◌≤◌, length, drop};
ghost use Rattle.kinds.specs.Answers.{answer_number};
ghost use Rattle.bindings.specs.Bindings.{same_words};
ghost use Rattle.rules.specs.Calls.{Call, Start, numbered};
ghost use Rattle.rules.specs.Contract.{Whole};
ghost use Rattle.rules.specs.Snapshot.{snapshot_bytes};
ghost use Rattle.table_view.specs.View.{memory, view, SoundTable, Performed};
ghost use Rattle.call_load.specs.Loading.{SnapshotRead};

use kinds::{Refusal, limits};
use snapshot_reader::sections;

// Whether two slices hold the same bytes.
pub fn same_bytes(a: &[u8], b: &[u8]) -> bool
    ensures { result ≡ same_words a.now b.now }
{
    a == b
}

// Whether bytes are the snapshot of a sound table.
fn is_snapshot_of(words: &[u64], store: &[u8], s: &[u8]) -> bool
    requires { SoundTable (memory words.now store.now) }
    ensures { result ≡ same_words (snapshot_bytes (view (memory words.now store.now))) s.now }
{
    let mut own = [0u8; limits::LONGEST_SNAPSHOT];
    match call_save::write_snapshot_step(words, store, &mut own) {
        Ok(n) => same_bytes(&own[..n], s),
        Err(_) => false,
    }
}

// Reads a snapshot into a table; false where the bytes are the snapshot of no sound table.
fn read_snapshot(words: &mut [u64], store: &mut [u8], s: &[u8]) -> bool
    requires { Whole words.old × Whole store.old }
    ensures { SnapshotRead s.now result (view (memory words.new store.new)) }
{
    if !sections::read_table(words, store, s) {
        return false;
    }
    if !table_judge::sound(words, store) {
        return false;
    }
    is_snapshot_of(words, store, s)
}

// Loads a snapshot: 0, or 1 where a length is wrong; 23. What the table held is forgotten. It looks at nothing of it but the lengths.
pub fn load_snapshot(words: &mut [u64], store: &mut [u8], snapshot: &[u8]) -> Result<(), Refusal>
    ensures { Performed (Call.starting (Start.load_snapshot snapshot.now)) (memory words.old store.old) (numbered (answer_number result))
        (memory words.new store.new) }
{
    if words.len() != limits::WORDS {
        return Err(Refusal::Unsound);
    }
    if store.len() != limits::BYTES {
        return Err(Refusal::Unsound);
    }
    let mut new_words = [0u64; limits::WORDS];
    let mut new_store = [0u8; limits::BYTES];
    if !read_snapshot(&mut new_words, &mut new_store, snapshot) {
        return Err(Refusal::NoSnapshot);
    }
    words.copy_from_slice(&new_words);
    store.copy_from_slice(&new_store);
    Ok(())
}
