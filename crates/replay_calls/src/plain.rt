// The calls that show nothing: each reads its numbers of its section, performs its step and compares.
ghost use Rattle.std.specs.Prelude.{◌≡◌, not, eqb, length};
ghost use Rattle.fields.specs.Fields.{field, guid_at};
ghost use Rattle.rules.specs.Calls.{starting, looking, editing, reset, enter_exporter, remove_exporter, enter_object, enter_interface};
ghost use Rattle.rules.specs.Calls.{add, release, drop_client, simple_ping, complex_ping, clock, census, members, load_snapshot};
ghost use Rattle.recording.specs.Recording.{numbers_of};
ghost use Rattle.table_view.specs.View.{memory, SoundTable};
ghost use Rattle.replay_step.specs.Steps.{CallDone};

use call_look::MemberCount;
use call_ping::Pinged;
use call_references::Released;
use call_remove::Expired;
use kinds::{Oid, Oxid, SetId};
use replay_step::Step;

// Code 12.
pub fn clock(words: &mut [u64], store: &[u8], call: &[u8], answer: &[u8], shown: &[u8]) -> Step
    requires { SoundTable (memory words.old store.now) × (length answer.now ≡ 40) }
    ensures { CallDone (editing (clock (field call.now 1 8))) answer.now shown.now (memory words.old store.now)
        result (memory words.new store.now) }
{
    let r = Expired::from(call_remove::clock_step(words, store, fields::read_u64(call, 1)));
    replay_step::step_of(
        answer,
        shown,
        r.answer,
        r.exporters as u64,
        r.objects as u64,
        r.interfaces as u64,
        r.sets as u64,
    )
}

// Code 7.
pub fn drop_client(
    words: &mut [u64],
    store: &[u8],
    call: &[u8],
    answer: &[u8],
    shown: &[u8],
) -> Step
    requires { SoundTable (memory words.old store.now) × (length answer.now ≡ 8) }
    ensures { CallDone (editing (drop_client (field call.now 1 4))) answer.now shown.now (memory words.old store.now)
        result (memory words.new store.now) }
{
    let number = kinds::number(call_references::drop_client_step(
        words,
        store,
        fields::read_u32(call, 1),
    ));
    replay_step::step_of(answer, shown, number, 0, 0, 0, 0)
}

// Code 10.
pub fn simple_ping(
    words: &mut [u64],
    store: &[u8],
    call: &[u8],
    answer: &[u8],
    shown: &[u8],
) -> Step
    requires { SoundTable (memory words.old store.now) × (length answer.now ≡ 8) }
    ensures { CallDone (editing (simple_ping (field call.now 1 8))) answer.now shown.now (memory words.old store.now)
        result (memory words.new store.now) }
{
    let number = kinds::number(call_ping::simple_ping_step(
        words,
        store,
        SetId(fields::read_u64(call, 1)),
    ));
    replay_step::step_of(answer, shown, number, 0, 0, 0, 0)
}

// Code 5. The hint is a row that is tried first, and may be any number.
pub fn add(
    words: &mut [u64],
    store: &[u8],
    hint: u8,
    call: &[u8],
    answer: &[u8],
    shown: &[u8],
) -> Step
    requires { SoundTable (memory words.old store.now) × (length answer.now ≡ 8) }
    ensures { CallDone (editing (add (field call.now 1 4) (guid_at call.now 5) (field call.now 21 4) (field call.now 25 4)))
        answer.now shown.now (memory words.old store.now)
        result (memory words.new store.now) }
{
    let ipid = fields::read_guid(call, 5);
    let row = call_references::interface_row(words, store, hint, ipid);
    let number = kinds::number(call_references::add_at(
        words,
        store,
        fields::read_u32(call, 1),
        ipid,
        row,
        fields::read_u32(call, 21),
        fields::read_u32(call, 25),
    ));
    replay_step::step_of(answer, shown, number, 0, 0, 0, 0)
}

// Code 6, with such a hint.
pub fn release(
    words: &mut [u64],
    store: &[u8],
    hint: u8,
    call: &[u8],
    answer: &[u8],
    shown: &[u8],
) -> Step
    requires { SoundTable (memory words.old store.now) × (length answer.now ≡ 40) }
    ensures { CallDone (editing (release (field call.now 1 4) (guid_at call.now 5) (field call.now 21 4) (field call.now 25 4)))
        answer.now shown.now (memory words.old store.now)
        result (memory words.new store.now) }
{
    let ipid = fields::read_guid(call, 5);
    let row = call_references::interface_row(words, store, hint, ipid);
    let r = Released::from(call_references::release_at(
        words,
        store,
        fields::read_u32(call, 1),
        ipid,
        row,
        fields::read_u32(call, 21),
        fields::read_u32(call, 25),
    ));
    replay_step::step_of(
        answer,
        shown,
        r.answer,
        r.public as u64,
        r.private as u64,
        r.interfaces as u64,
        r.objects as u64,
    )
}

// Code 4.
pub fn enter_interface(
    words: &mut [u64],
    store: &[u8],
    call: &[u8],
    answer: &[u8],
    shown: &[u8],
) -> Step
    requires { SoundTable (memory words.old store.now) × (length answer.now ≡ 8) }
    ensures { CallDone (editing (enter_interface (field call.now 1 8) (guid_at call.now 9) (guid_at call.now 25) (field call.now 41 4)))
        answer.now shown.now (memory words.old store.now)
        result (memory words.new store.now) }
{
    let oid = Oid(fields::read_u64(call, 1));
    let ipid = fields::read_guid(call, 9);
    let iid = fields::read_guid(call, 25);
    let public = fields::read_u32(call, 41);
    let number = kinds::number(call_enter::enter_interface_step(
        words, store, oid, ipid, iid, public,
    ));
    replay_step::step_of(answer, shown, number, 0, 0, 0, 0)
}

// Code 15.
pub fn census(words: &[u64], store: &[u8], answer: &[u8], shown: &[u8]) -> Step
    requires { SoundTable (memory words.now store.now) × (length answer.now ≡ 40) }
    ensures { CallDone (looking census) answer.now shown.now (memory words.now store.now)
        result (memory words.now store.now) }
{
    let r = call_look::census_step(words, store);
    replay_step::step_of(
        answer,
        shown,
        0,
        r.exporters as u64,
        r.objects as u64,
        r.interfaces as u64,
        r.sets as u64,
    )
}

// Code 2.
pub fn remove_exporter(
    words: &mut [u64],
    store: &mut [u8],
    call: &[u8],
    answer: &[u8],
    shown: &[u8],
) -> Step
    requires { SoundTable (memory words.old store.old) × (length answer.now ≡ 8) }
    ensures { CallDone (editing (remove_exporter (field call.now 1 8))) answer.now shown.now (memory words.old store.old)
        result (memory words.new store.new) }
{
    let number = kinds::number(call_remove::remove_exporter_step(
        words,
        store,
        Oxid(fields::read_u64(call, 1)),
    ));
    replay_step::step_of(answer, shown, number, 0, 0, 0, 0)
}

// Code 1: list is the first list.
pub fn enter_exporter(
    words: &mut [u64],
    store: &mut [u8],
    call: &[u8],
    list: &[u8],
    answer: &[u8],
    shown: &[u8],
) -> Step
    requires { SoundTable (memory words.old store.old) × (length answer.now ≡ 8) }
    ensures { CallDone (editing (enter_exporter (field call.now 1 8) (guid_at call.now 9) list.now))
        answer.now shown.now (memory words.old store.old)
        result (memory words.new store.new) }
{
    let oxid = Oxid(fields::read_u64(call, 1));
    let unknown = fields::read_guid(call, 9);
    let number = kinds::number(call_enter::enter_exporter_step(words, store, oxid, unknown, list));
    replay_step::step_of(answer, shown, number, 0, 0, 0, 0)
}

// Code 3.
pub fn enter_object(
    words: &mut [u64],
    store: &[u8],
    call: &[u8],
    answer: &[u8],
    shown: &[u8],
) -> Step
    requires { SoundTable (memory words.old store.now) × (length answer.now ≡ 8) }
    ensures { CallDone
        (editing (enter_object (field call.now 1 8) (field call.now 9 8) (guid_at call.now 17) (guid_at call.now 33)
        (field call.now 49 4) (not (eqb (field call.now 53 1) 0))))
        answer.now shown.now (memory words.old store.now)
        result (memory words.new store.now) }
{
    let oid = Oid(fields::read_u64(call, 1));
    let oxid = Oxid(fields::read_u64(call, 9));
    let ipid = fields::read_guid(call, 17);
    let iid = fields::read_guid(call, 33);
    let public = fields::read_u32(call, 49);
    let mark = recording::byte(call, 53);
    let number = kinds::number(call_enter::enter_object_step(
        words,
        store,
        oid,
        oxid,
        ipid,
        iid,
        public,
        mark != 0,
    ));
    replay_step::step_of(answer, shown, number, 0, 0, 0, 0)
}

// Code 0.
pub fn reset(words: &mut [u64], store: &[u8], call: &[u8], answer: &[u8], shown: &[u8]) -> Step
    requires { SoundTable (memory words.old store.now) × (length answer.now ≡ 8) }
    ensures { CallDone (starting (reset (field call.now 1 8))) answer.now shown.now (memory words.old store.now)
        result (memory words.new store.now) }
{
    let number = kinds::number(call_enter::reset(words, store, fields::read_u64(call, 1)));
    replay_step::step_of(answer, shown, number, 0, 0, 0, 0)
}

// Code 19: snapshot is the first list.
pub fn load_snapshot(
    words: &mut [u64],
    store: &mut [u8],
    snapshot: &[u8],
    answer: &[u8],
    shown: &[u8],
) -> Step
    requires { SoundTable (memory words.old store.old) × (length answer.now ≡ 8) }
    ensures { CallDone (starting (load_snapshot snapshot.now)) answer.now shown.now (memory words.old store.old)
        result (memory words.new store.new) }
{
    let number = kinds::number(call_load::load_snapshot(words, store, snapshot));
    replay_step::step_of(answer, shown, number, 0, 0, 0, 0)
}

// Code 16.
pub fn members(words: &[u64], store: &[u8], call: &[u8], answer: &[u8], shown: &[u8]) -> Step
    requires { SoundTable (memory words.now store.now) × (length answer.now ≡ 16) }
    ensures { CallDone (looking (members (field call.now 1 8))) answer.now shown.now (memory words.now store.now)
        result (memory words.now store.now) }
{
    let r = MemberCount::from(call_look::members_step(
        words,
        store,
        SetId(fields::read_u64(call, 1)),
    ));
    replay_step::step_of(answer, shown, r.answer, r.count as u64, 0, 0, 0)
}

// Code 11: adds and deletes are the two lists.
pub fn complex_ping(
    words: &mut [u64],
    store: &[u8],
    call: &[u8],
    adds: &[u8],
    deletes: &[u8],
    answer: &[u8],
    shown: &[u8],
) -> Step
    requires { SoundTable (memory words.old store.now) × (length answer.now ≡ 24) }
    ensures { CallDone (editing (complex_ping (field call.now 1 8) (field call.now 9 2) (numbers_of 8 adds.now) (numbers_of 8 deletes.now)))
        answer.now shown.now (memory words.old store.now)
        result (memory words.new store.now) }
{
    let set = SetId(fields::read_u64(call, 1));
    let sequence = fields::read_u16(call, 9);
    let r = Pinged::from(call_ping::complex_ping_bytes_step(
        words, store, set, sequence, adds, deletes,
    ));
    replay_step::step_of(answer, shown, r.answer, r.set.0, r.backoff as u64, 0, 0)
}
