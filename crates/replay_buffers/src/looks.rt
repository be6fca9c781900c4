// Calls that leave the table as it is.
ghost use Rattle.std.specs.Prelude.{◌≡◌, length};
ghost use Rattle.fields.specs.Fields.{field, zeros};
ghost use Rattle.bindings.specs.Filter.{words_in};
ghost use Rattle.recording.specs.Recording.{numbers_of};
ghost use Rattle.rules.specs.Calls.{looking, resolve, resolve_filtered, next_stop, write_snapshot};
ghost use Rattle.table_view.specs.View.{memory, SoundTable};
ghost use Rattle.replay_step.specs.Steps.{CallDone};

use call_look::{Resolved, StopPlace};
use kinds::{Oxid, limits};
use replay_step::Step;

// Code 13.
pub fn resolve(words: &[u64], store: &[u8], call: &[u8], answer: &[u8], shown: &[u8]) -> Step
    requires { SoundTable (memory words.now store.now) × (length answer.now ≡ 32) }
    ensures { CallDone (looking (resolve (field call.now 1 8) (zeros (field call.now 9 8))))
        answer.now shown.now (memory words.now store.now)
        result (memory words.now store.now) }
{
    let oxid = Oxid(fields::read_u64(call, 1));
    let n = crate::shorter(fields::read_u64(call, 9), limits::LONGEST_LIST);
    let mut buffer = [0u8; limits::LONGEST_LIST];
    resolve_into(words, store, oxid, answer, shown, &mut buffer[..n])
}

// The same into a buffer of any length.
fn resolve_into(
    words: &[u64],
    store: &[u8],
    oxid: Oxid,
    answer: &[u8],
    shown: &[u8],
    buffer: &mut [u8],
) -> Step
    requires { SoundTable (memory words.now store.now) × (length answer.now ≡ 32) }
    ensures { CallDone (looking (resolve oxid.0 buffer.old))
        answer.now shown.now (memory words.now store.now)
        result (memory words.now store.now) }
{
    let r = Resolved::from(call_look::resolve_step(words, store, oxid, buffer));
    let n = r.length;
    let unknown = r.unknown;
    crate::shown_step(
        answer,
        shown,
        &buffer[..n],
        r.answer,
        n as u64,
        unknown.low,
        unknown.high,
        0,
    )
}

// Code 14: protocols is the first list.
pub fn resolve_filtered(
    words: &[u64],
    store: &[u8],
    call: &[u8],
    protocols: &[u8],
    answer: &[u8],
    shown: &[u8],
) -> Step
    requires { SoundTable (memory words.now store.now) × (length answer.now ≡ 32) }
    ensures { CallDone (looking (resolve_filtered (field call.now 1 8) (numbers_of 2 protocols.now) (zeros (field call.now 9 8))))
        answer.now shown.now (memory words.now store.now)
        result (memory words.now store.now) }
{
    let oxid = Oxid(fields::read_u64(call, 1));
    let n = crate::shorter(fields::read_u64(call, 9), limits::LONGEST_LIST);
    let mut buffer = [0u8; limits::LONGEST_LIST];
    resolve_filtered_into(
        words,
        store,
        oxid,
        protocols,
        answer,
        shown,
        &mut buffer[..n],
    )
}

// The same into a buffer of any length.
fn resolve_filtered_into(
    words: &[u64],
    store: &[u8],
    oxid: Oxid,
    protocols: &[u8],
    answer: &[u8],
    shown: &[u8],
    buffer: &mut [u8],
) -> Step
    requires { SoundTable (memory words.now store.now) × (length answer.now ≡ 32) }
    ensures { CallDone (looking (resolve_filtered oxid.0 (words_in protocols.now) buffer.old))
        answer.now shown.now (memory words.now store.now)
        result (memory words.now store.now) }
{
    let r = Resolved::from(call_look::resolve_filtered_bytes_step(
        words, store, oxid, protocols, buffer,
    ));
    let n = r.length;
    let unknown = r.unknown;
    crate::shown_step(
        answer,
        shown,
        &buffer[..n],
        r.answer,
        n as u64,
        unknown.low,
        unknown.high,
        0,
    )
}

// Code 17: reference is the first list.
pub fn next_stop(words: &[u64], store: &[u8], reference: &[u8], answer: &[u8], shown: &[u8]) -> Step
    requires { SoundTable (memory words.now store.now) × (length answer.now ≡ 8) }
    ensures { CallDone (looking (next_stop reference.now))
        answer.now shown.now (memory words.now store.now)
        result (memory words.now store.now) }
{
    let x = StopPlace::from(call_look::next_stop_step(words, store, reference));
    let from = x.from;
    let to = x.to;
    if x.in_store {
        return crate::shown_step(answer, shown, &store[from..to], x.answer, 0, 0, 0, 0);
    }
    crate::shown_step(answer, shown, &reference[from..to], x.answer, 0, 0, 0, 0)
}

// Code 18.
pub fn write_snapshot(words: &[u64], store: &[u8], call: &[u8], answer: &[u8], shown: &[u8]) -> Step
    requires { SoundTable (memory words.now store.now) × (length answer.now ≡ 16) }
    ensures { CallDone (looking (write_snapshot (zeros (field call.now 1 8))))
        answer.now shown.now (memory words.now store.now)
        result (memory words.now store.now) }
{
    let n = crate::shorter(fields::read_u64(call, 1), limits::LONGEST_SNAPSHOT);
    let mut buffer = [0u8; limits::LONGEST_SNAPSHOT];
    write_into(words, store, answer, shown, &mut buffer[..n])
}

// The same into a buffer of any length.
fn write_into(words: &[u64], store: &[u8], answer: &[u8], shown: &[u8], buffer: &mut [u8]) -> Step
    requires { SoundTable (memory words.now store.now) × (length answer.now ≡ 16) }
    ensures { CallDone (looking (write_snapshot buffer.old))
        answer.now shown.now (memory words.now store.now)
        result (memory words.now store.now) }
{
    let w = fields::Written::from(call_save::write_snapshot_step(words, store, buffer));
    let n = w.length;
    crate::shown_step(answer, shown, &buffer[..n], w.answer, n as u64, 0, 0, 0)
}
