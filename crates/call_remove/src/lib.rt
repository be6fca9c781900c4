// Entries that go: by an exporter's removal, and by the clock.
#![tactic(auto)]

ghost use Rattle.std.specs.Prelude.{◌≡◌, ◌<◌};
ghost use Rattle.kinds.specs.Answers.{answer_number};
ghost use Rattle.rules.specs.Calls.{Call, Edit, numbered};
ghost use Rattle.table_view.specs.View.{memory, SoundTable, Stepped};
ghost use Rattle.call_remove.specs.Replies.{clock_reply, expired};

use kinds::{Oxid, Refusal};
use table_settle::Leaving;
use table_view::find;

// The call on a sound table.
pub fn remove_exporter_step(words: &mut [u64], store: &mut [u8], oxid: Oxid) -> Result<(), Refusal>
    requires { SoundTable (memory words.old store.old) }
    ensures { Stepped (Call.editing (Edit.remove_exporter oxid.0)) (memory words.old store.old)
        (numbered (answer_number result)) (memory words.new store.new) }
{
    let i = find::exporter_row(words, oxid);
    if find::exporter_count(words) <= i {
        return Err(Refusal::NoExporter);
    }
    table_settle::remove_leaving(words, Leaving::ExporterRemoved(oxid));
    table_edit::remove_exporter(words, store, i);
    Ok(())
}

// How many of each kind went. An exporter never goes by the clock.
#[derive(Clone, Copy)]
pub struct Gone {
    pub objects: usize,
    pub interfaces: usize,
    pub sets: usize,
}

// The same with the answer number, as C gets it.
#[repr(C)]
#[derive(Clone, Copy)]
pub struct Expired {
    pub answer: u32,
    pub exporters: usize,
    pub objects: usize,
    pub interfaces: usize,
    pub sets: usize,
}

impl From<Result<Gone, Refusal>> for Expired {
    ghost from_gives = { λ r x. x ≡ expired r };

    fn from(r: Result<Gone, Refusal>) -> Expired {
        match r {
            Ok(gone) => Expired {
                answer: 0,
                exporters: 0,
                objects: gone.objects,
                interfaces: gone.interfaces,
                sets: gone.sets,
            },
            Err(why) => Expired {
                answer: u32::from(why),
                exporters: 0,
                objects: 0,
                interfaces: 0,
                sets: 0,
            },
        }
    }
}

// The call on a sound table.
pub fn clock_step(words: &mut [u64], store: &[u8], time: u64) -> Result<Gone, Refusal>
    requires { SoundTable (memory words.old store.now) }
    ensures { Stepped (Call.editing (Edit.clock time)) (memory words.old store.now)
        (clock_reply (expired result)) (memory words.new store.now) }
{
    if time < find::clock(words) {
        return Err(Refusal::ClockBack);
    }
    let objects = find::object_count(words);
    let interfaces = find::interface_count(words);
    let sets = find::set_count(words);
    table_settle::drop_sets(words, time);
    table_edit::set_clock(words, time);
    table_settle::remove_leaving(words, Leaving::Unheard(time));
    Ok(Gone {
        objects: objects - find::object_count(words),
        interfaces: interfaces - find::interface_count(words),
        sets: sets - find::set_count(words),
    })
}
