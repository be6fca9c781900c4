// The records of a recording, one after the other.
ghost use Rattle.std.specs.Prelude.{◌≡◌, true, drop};
ghost use Rattle.table_view.specs.View.{view, memory, SoundTable};
ghost use Rattle.rules.specs.Contract.{Whole};
ghost use Rattle.balance.specs.Balance.{held_in};
ghost use Rattle.recording.specs.Recording.{well_formed, sections_at, recording_answer};
ghost use Rattle.recording.specs.Places.{record_ends, RecordAt};
ghost use Rattle.replay_rules.specs.Replay.{Replayed};
ghost use Rattle.replaying.specs.Turns.{TurnDone};

use replay_rules::Outcome;
use table_columns::buckets;
use tally::Tally;

// After a record: whether its answer is ours, where it ends, the table's sum and the tally.
#[derive(Clone, Copy)]
pub struct Turn {
    pub agrees: bool,
    pub end: usize,
    pub held: u64,
    pub tally: Tally,
}

// The record from at; held is the table's sum before it.
fn take_turn(
    words: &mut [u64],
    store: &mut [u8],
    hints: &mut [u8; buckets::BUCKETS],
    s: &[u8],
    at: usize,
    held: u64,
    tally: Tally,
) -> Turn
    requires { SoundTable (memory words.old store.old) × RecordAt s.now at (record_ends s.now at) × (well_formed (sections_at (drop at s.now)) ≡ true)
        × (held ≡ held_in (view (memory words.old store.old))) }
    ensures { TurnDone s.now at (memory words.old store.old) tally
        result (memory words.new store.new) }
{
    let e = recording::record_ends(s, at);
    let d = replay_groups::perform(words, store, hints, s, at, e);
    let from = at + 8;
    let to = e.call;
    let call = &s[from..to];
    let code = recording::byte(call, 0);
    let answer = e.second + 8;
    let answer_end = e.answer;
    let sum = replay_tally::sum_after(
        words,
        call,
        &s[answer..answer_end],
        code,
        d.agrees,
        d.accepted,
        held,
    );
    let next = replay_tally::tally_after(tally, code, d.accepted, held, sum);
    Turn {
        agrees: d.agrees,
        end: e.shown,
        held: sum,
        tally: next,
    }
}

// A recording that is not refused, from a reset at 0.
pub fn replay_records(words: &mut [u64], store: &mut [u8], s: &[u8]) -> Outcome
    requires { Whole words.old × Whole store.old × (recording_answer s.now ≡ 0) }
    ensures { Replayed (memory words.old store.old) s.now result (memory words.new store.new) }
{
    // The lengths are right, so it is not refused.
    let _ = call_enter::reset(words, store, 0);
    let mut left = fields::read_u64(s, 0);
    let mut at = 8;
    let mut number = 1;
    let mut hints = [0u8; buckets::BUCKETS];
    let mut held = 0;
    let mut tally = Tally {
        granted: 0,
        taken: 0,
        rundown: 0,
    };
    while 0 < left {
        let t = take_turn(words, store, &mut hints, s, at, held, tally);
        tally = t.tally;
        if !t.agrees {
            return Outcome {
                answer: 0,
                differs: number,
                tally: tally,
            };
        }
        at = t.end;
        held = t.held;
        number += 1;
        left -= 1;
    }
    Outcome {
        answer: 0,
        differs: 0,
        tally: tally,
    }
}
