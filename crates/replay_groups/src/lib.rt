// A record's call by its code, in groups of codes. One match over the 20 codes was tried: the check of that function did not end in minutes.
#![tactic(auto)]

ghost use Rattle.std.specs.Prelude.{◌≡◌, true, ◌≤◌, length};
ghost use Rattle.table_view.specs.View.{memory, SoundTable};
ghost use Rattle.fields.specs.Fields.{field};
ghost use Rattle.recording.specs.Recording.{well_formed};
ghost use Rattle.replay_groups.specs.Records.{sections, placed, InOrder, RecordDone};

use recording::Ends;
use replay_calls::plain;
use replay_step::Step;
use table_columns::buckets;

// Codes 0 to 4: a reset and entries.
fn enter_group(
    words: &mut [u64],
    store: &mut [u8],
    call: &[u8],
    first: &[u8],
    second: &[u8],
    answer: &[u8],
    shown: &[u8],
) -> Step
    requires { SoundTable (memory words.old store.old) × (well_formed (sections call.now first.now second.now answer.now shown.now) ≡ true) × (field call.now 0 1 ≤ 4) }
    ensures { RecordDone (sections call.now first.now second.now answer.now shown.now)
        (memory words.old store.old) result (memory words.new store.new) }
{
    let code = recording::byte(call, 0);
    if code == 0 {
        return plain::reset(words, store, call, answer, shown);
    }
    if code == 1 {
        return plain::enter_exporter(words, store, call, first, answer, shown);
    }
    if code == 2 {
        return plain::remove_exporter(words, store, call, answer, shown);
    }
    if code == 3 {
        return plain::enter_object(words, store, call, answer, shown);
    }
    plain::enter_interface(words, store, call, answer, shown)
}

// Codes 5 to 9: counts, by item or list. The hint is a row that an add or a release tries first, and may be any number.
fn count_group(
    words: &mut [u64],
    store: &[u8],
    hint: u8,
    call: &[u8],
    first: &[u8],
    second: &[u8],
    answer: &[u8],
    shown: &[u8],
) -> Step
    requires { SoundTable (memory words.old store.now) × (well_formed (sections call.now first.now second.now answer.now shown.now) ≡ true)
        × (5 ≤ field call.now 0 1) × (field call.now 0 1 ≤ 9) }
    ensures { RecordDone (sections call.now first.now second.now answer.now shown.now)
        (memory words.old store.now) result (memory words.new store.now) }
{
    let code = recording::byte(call, 0);
    if code == 5 {
        return plain::add(words, store, hint, call, answer, shown);
    }
    if code == 6 {
        return plain::release(words, store, hint, call, answer, shown);
    }
    if code == 7 {
        return plain::drop_client(words, store, call, answer, shown);
    }
    if code == 8 {
        return replay_buffers::add_list(words, store, call, first, answer, shown);
    }
    replay_buffers::release_list(words, store, call, first, answer, shown)
}

// Codes 10 to 12: pings and the clock.
fn ping_group(
    words: &mut [u64],
    store: &[u8],
    call: &[u8],
    first: &[u8],
    second: &[u8],
    answer: &[u8],
    shown: &[u8],
) -> Step
    requires { SoundTable (memory words.old store.now) × (well_formed (sections call.now first.now second.now answer.now shown.now) ≡ true)
        × (10 ≤ field call.now 0 1) × (field call.now 0 1 ≤ 12) }
    ensures { RecordDone (sections call.now first.now second.now answer.now shown.now)
        (memory words.old store.now) result (memory words.new store.now) }
{
    let code = recording::byte(call, 0);
    if code == 10 {
        return plain::simple_ping(words, store, call, answer, shown);
    }
    if code == 11 {
        return plain::complex_ping(words, store, call, first, second, answer, shown);
    }
    plain::clock(words, store, call, answer, shown)
}

// Codes 13 to 17: calls that leave the table as it is.
fn read_group(
    words: &[u64],
    store: &[u8],
    call: &[u8],
    first: &[u8],
    second: &[u8],
    answer: &[u8],
    shown: &[u8],
) -> Step
    requires { SoundTable (memory words.now store.now) × (well_formed (sections call.now first.now second.now answer.now shown.now) ≡ true)
        × (13 ≤ field call.now 0 1) × (field call.now 0 1 ≤ 17) }
    ensures { RecordDone (sections call.now first.now second.now answer.now shown.now)
        (memory words.now store.now) result (memory words.now store.now) }
{
    let code = recording::byte(call, 0);
    if code == 13 {
        return replay_buffers::resolve(words, store, call, answer, shown);
    }
    if code == 14 {
        return replay_buffers::resolve_filtered(words, store, call, first, answer, shown);
    }
    if code == 15 {
        return plain::census(words, store, answer, shown);
    }
    if code == 16 {
        return plain::members(words, store, call, answer, shown);
    }
    replay_buffers::next_stop(words, store, first, answer, shown)
}

// Codes 18 and 19: snapshots.
fn snapshot_group(
    words: &mut [u64],
    store: &mut [u8],
    call: &[u8],
    first: &[u8],
    second: &[u8],
    answer: &[u8],
    shown: &[u8],
) -> Step
    requires { SoundTable (memory words.old store.old) × (well_formed (sections call.now first.now second.now answer.now shown.now) ≡ true)
        × (18 ≤ field call.now 0 1) }
    ensures { RecordDone (sections call.now first.now second.now answer.now shown.now)
        (memory words.old store.old) result (memory words.new store.new) }
{
    let code = recording::byte(call, 0);
    if code == 18 {
        return replay_buffers::write_snapshot(words, store, call, answer, shown);
    }
    plain::load_snapshot(words, store, first, answer, shown)
}

// A call by its sections.
fn perform_call(
    words: &mut [u64],
    store: &mut [u8],
    hint: u8,
    call: &[u8],
    first: &[u8],
    second: &[u8],
    answer: &[u8],
    shown: &[u8],
) -> Step
    requires { SoundTable (memory words.old store.old) × (well_formed (sections call.now first.now second.now answer.now shown.now) ≡ true) }
    ensures { RecordDone (sections call.now first.now second.now answer.now shown.now)
        (memory words.old store.old) result (memory words.new store.new) }
{
    let code = recording::byte(call, 0);
    if code <= 4 {
        return enter_group(words, store, call, first, second, answer, shown);
    }
    if code <= 9 {
        return count_group(words, store, hint, call, first, second, answer, shown);
    }
    if code <= 12 {
        return ping_group(words, store, call, first, second, answer, shown);
    }
    if code <= 17 {
        return read_group(words, store, call, first, second, answer, shown);
    }
    snapshot_group(words, store, call, first, second, answer, shown)
}

// The record from at, whose sections end there. What the hints hold is undecided.
pub fn perform(
    words: &mut [u64],
    store: &mut [u8],
    hints: &mut [u8; buckets::BUCKETS],
    s: &[u8],
    at: usize,
    e: Ends,
) -> Step
    requires { SoundTable (memory words.old store.old) × InOrder (length s.now) at e × (well_formed (placed s.now at e) ≡ true) }
    ensures { RecordDone (placed s.now at e) (memory words.old store.old)
        result (memory words.new store.new) }
{
    let from = at + 8;
    let call_end = e.call;
    let call = &s[from..call_end];
    let first = call_end + 8;
    let first_end = e.first;
    let second = first_end + 8;
    let second_end = e.second;
    let answer = second_end + 8;
    let answer_end = e.answer;
    let shown = answer_end + 8;
    let shown_end = e.shown;
    let hint = replay_calls::noted_row(words, store, hints, call);
    perform_call(
        words,
        store,
        hint,
        call,
        &s[first..first_end],
        &s[second..second_end],
        &s[answer..answer_end],
        &s[shown..shown_end],
    )
}
