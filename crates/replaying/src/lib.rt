// The replay of a recorded shift from a reset at 0.
#![tactic(auto)]

mod shift;

ghost use Rattle.std.specs.Prelude.{◌≡◌};
ghost use Rattle.table_view.specs.View.{memory};
ghost use Rattle.balance.specs.Balance.{no_tally};
ghost use Rattle.replay_rules.specs.Replay.{Replayed};

use kinds::{answer, limits};
use replay_rules::Outcome;
use tally::Tally;

// A replay that is refused: no record differs, and the tally is zero.
fn refused(number: u32) -> Outcome
    ensures { result ≡ record { answer = number; differs = 0; tally = no_tally } }
{
    Outcome {
        answer: number,
        differs: 0,
        tally: Tally {
            granted: 0,
            taken: 0,
            rundown: 0,
        },
    }
}

// A recorded shift replayed from a reset at 0: whether its answers are ours, and the tally.
pub fn replay(words: &mut [u64], store: &mut [u8], s: &[u8]) -> Outcome
    ensures { Replayed (memory words.old store.old) s.now result (memory words.new store.new) }
{
    if words.len() != limits::WORDS {
        return refused(answer::UNSOUND);
    }
    if store.len() != limits::BYTES {
        return refused(answer::UNSOUND);
    }
    let number = recording::recording_answer(s);
    if number != 0 {
        return refused(number);
    }
    shift::replay_records(words, store, s)
}
