// The calls of a record that write to an output buffer or show a part: each is performed, and the shown bytes are compared. Of the
// buffer a record tells the length; a local one as long as any answer stands in for a longer one.
#![tactic(auto)]

pub use listed::{add_list, release_list};
pub use looks::{next_stop, resolve, resolve_filtered, write_snapshot};

mod listed;
mod looks;

ghost use Rattle.std.specs.Prelude.{◌≡◌, min};
ghost use Rattle.replay_buffers.specs.Shown.{shown_step};

use replay_step::Step;

// The step of a call by what it answers and shows.
fn shown_step(
    answer: &[u8],
    shown: &[u8],
    ours: &[u8],
    number: u32,
    a: u64,
    b: u64,
    c: u64,
    d: u64,
) -> Step
    ensures { result ≡ shown_step answer.now shown.now ours.now number a b c d }
{
    let numbers = replay_step::answers(answer, number as u64, a, b, c, d);
    Step {
        agrees: replay_step::both(numbers, call_load::same_bytes(shown, ours)),
        accepted: number == 0,
    }
}

// A recorded length, but no more than the most.
fn shorter(recorded: u64, most: usize) -> usize
    ensures { result ≡ min recorded most }
{
    if recorded < most as u64 {
        recorded as usize
    } else {
        most
    }
}
