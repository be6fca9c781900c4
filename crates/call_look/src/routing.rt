// Where to go next with a reference: its exporter's list where that is live, else the reference's own list.
ghost use Rattle.std.specs.Prelude.{◌≡◌, true, ◌<◌, Ok};
ghost use Rattle.rules.specs.Sound.{lists_kept};
ghost use Rattle.rules.specs.Contract.{Whole};
ghost use Rattle.table_view.specs.View.{exporter_count, memory, view, SoundTable};
ghost use Rattle.call_look.specs.NextStop.{stopped, stop_in_store, StopFound};

use kinds::Refusal;
use references::Reference;
use std::ops::Range;
use table_view::find;

// Where a next stop stands. A place in the store holds until the next call that changes the store.
#[derive(Drop)]
pub enum Stop {
    InStore(Range<usize>),
    InReference(Range<usize>),
}

// The same, or the number of a refusal with zeros, as C takes it.
#[repr(C)]
#[derive(Clone, Copy)]
pub struct StopPlace {
    pub answer: u32,
    pub in_store: bool,
    pub from: usize,
    pub to: usize,
}

impl From<Result<Stop, Refusal>> for StopPlace {
    ghost from_gives = { λ stop given. given ≡ stopped stop };

    fn from(stop: Result<Stop, Refusal>) -> StopPlace {
        match stop {
            Ok(Stop::InStore(there)) => StopPlace {
                answer: 0,
                in_store: true,
                from: there.start,
                to: there.end,
            },
            Ok(Stop::InReference(there)) => StopPlace {
                answer: 0,
                in_store: false,
                from: there.start,
                to: there.end,
            },
            Err(why) => StopPlace {
                answer: u32::from(why),
                in_store: false,
                from: 0,
                to: 0,
            },
        }
    }
}

// The list of exporter i, where it keeps the list rules.
fn in_store(words: &[u64], store: &[u8], i: usize) -> Stop
    requires { Whole store.now × (i < exporter_count words.now)
        × (lists_kept (view (memory words.now store.now)) ≡ true) }
    ensures { stopped (Ok result) ≡ stop_in_store (memory words.now store.now) i }
{
    let from = find::list_start(store, i);
    Stop::InStore(from..from + find::list(words, store, i).len())
}

// The call on a sound table.
pub fn next_stop_step(words: &[u64], store: &[u8], reference: &[u8]) -> Result<Stop, Refusal>
    requires { SoundTable (memory words.now store.now) }
    ensures { StopFound (memory words.now store.now) reference.now (stopped result) }
{
    let own = references::tail_place(reference)?;
    let named = Reference::fields(reference);
    if named.flags == Reference::CUSTOM {
        return Err(Refusal::Layout);
    }
    let i = find::exporter_row(words, named.block.oxid);
    if i < find::exporter_count(words) {
        return Ok(in_store(words, store, i));
    }
    Ok(Stop::InReference(own))
}
