// References that come in over several packets.
ghost use Rattle.std.specs.Prelude.{◌≡◌, length};
ghost use Rattle.fragments.specs.Fragments.{none, pushed, finished, final_after};

use fragments::{Finished, Fragments};

// The state before the first fragment.
#[unsafe(no_mangle)]
pub extern "C" fn rimonakh_fragments_none() -> Fragments
    ensures { result ≡ none }
{
    Fragments::none()
}

// The state after one fragment more.
#[unsafe(no_mangle)]
pub extern "C" fn rimonakh_fragments_push(
    state: Fragments,
    waiting: &mut [u8],
    fragment: &[u8],
) -> Fragments
    ensures { (result ≡ (pushed (record { state = state; waiting = waiting.old }) fragment.now).state)
        × (waiting.new ≡ (pushed (record { state = state; waiting = waiting.old }) fragment.now).waiting) }
{
    state.push(waiting, fragment)
}

// Declares the end: the fields, and the list or object data at the front of last; or a refusal.
#[unsafe(no_mangle)]
pub extern "C" fn rimonakh_fragments_finish(
    state: Fragments,
    waiting: &[u8],
    last: &mut [u8],
) -> Finished
    ensures { (result ≡ finished (record { state = state; waiting = waiting.now }) (length last.old))
        × (last.new ≡ final_after (record { state = state; waiting = waiting.now }) last.old) }
{
    Finished::from(state.finish(waiting, last))
}
