// Lists of adds and releases.
ghost use Rattle.std.specs.Prelude.{◌≡◌, cond, ◌≤◌, eqb, length};
ghost use Rattle.fields.specs.Fields.{field, zeros};
ghost use Rattle.rules.specs.Calls.{count_list, adding, releasing};
ghost use Rattle.rules.specs.Items.{item_count};
ghost use Rattle.rules.specs.Rules.{most_listed};
ghost use Rattle.table_view.specs.View.{memory, SoundTable};
ghost use Rattle.call_lists.specs.Listing.{way_of};
ghost use Rattle.replay_step.specs.Steps.{CallDone};

use kinds::answer;
use replay_step::Step;

// Code 8: items is the first list.
pub fn add_list(
    words: &mut [u64],
    store: &[u8],
    call: &[u8],
    items: &[u8],
    answer: &[u8],
    shown: &[u8],
) -> Step
    requires { SoundTable (memory words.old store.now) × (length answer.now ≡ 8) }
    ensures { CallDone (count_list adding (field call.now 1 4) items.now (zeros (field call.now 5 8)))
        answer.now shown.now (memory words.old store.now)
        result (memory words.new store.now) }
{
    count_list(words, store, false, call, items, answer, shown)
}

// Code 9, likewise.
pub fn release_list(
    words: &mut [u64],
    store: &[u8],
    call: &[u8],
    items: &[u8],
    answer: &[u8],
    shown: &[u8],
) -> Step
    requires { SoundTable (memory words.old store.now) × (length answer.now ≡ 8) }
    ensures { CallDone (count_list releasing (field call.now 1 4) items.now (zeros (field call.now 5 8)))
        answer.now shown.now (memory words.old store.now)
        result (memory words.new store.now) }
{
    count_list(words, store, true, call, items, answer, shown)
}

// A list given back, or else added.
fn count_list(
    words: &mut [u64],
    store: &[u8],
    back: bool,
    call: &[u8],
    items: &[u8],
    answer: &[u8],
    shown: &[u8],
) -> Step
    requires { SoundTable (memory words.old store.now) × (length answer.now ≡ 8) }
    ensures { CallDone (count_list (way_of back) (field call.now 1 4) items.now (zeros (field call.now 5 8)))
        answer.now shown.now (memory words.old store.now)
        result (memory words.new store.now) }
{
    if items.len() / 24 <= FEW {
        let mut buffer = [0u8; FEW];
        return count_within(words, store, back, call, items, answer, shown, &mut buffer);
    }
    let mut buffer = [0u8; answer::MOST_LISTED];
    count_within(words, store, back, call, items, answer, shown, &mut buffer)
}

// A list of so many items takes a small buffer: clearing the large one would be most of the time of a short list.
const FEW: usize = 256;

// The same in a buffer that has a byte for each item of a list that is not refused.
fn count_within(
    words: &mut [u64],
    store: &[u8],
    back: bool,
    call: &[u8],
    items: &[u8],
    answer: &[u8],
    shown: &[u8],
    buffer: &mut [u8],
) -> Step
    requires { SoundTable (memory words.old store.now) × (length answer.now ≡ 8)
        × (item_count items.now ≤ most_listed → item_count items.now ≤ length buffer.old) }
    ensures { CallDone (count_list (way_of back) (field call.now 1 4) items.now (zeros (field call.now 5 8)))
        answer.now shown.now (memory words.old store.now)
        result (memory words.new store.now) }
{
    let client = fields::read_u32(call, 1);
    let n = crate::shorter(fields::read_u64(call, 5), buffer.len());
    count_into(
        words,
        store,
        back,
        client,
        items,
        answer,
        shown,
        &mut buffer[..n],
    )
}

// The same into a buffer of any length.
fn count_into(
    words: &mut [u64],
    store: &[u8],
    back: bool,
    client: u32,
    items: &[u8],
    answer: &[u8],
    shown: &[u8],
    buffer: &mut [u8],
) -> Step
    requires { SoundTable (memory words.old store.now) × (length answer.now ≡ 8) }
    ensures { CallDone (count_list (way_of back) client items.now buffer.old)
        answer.now shown.now (memory words.old store.now)
        result (memory words.new store.now) }
{
    let number = kinds::number(call_lists::noted_list_step(
        words, store, back, client, items, buffer,
    ));
    let n = written(number, items.len() / 24);
    crate::shown_step(answer, shown, &buffer[..n], number, 0, 0, 0, 0)
}

// So many bytes where a call is accepted, else none.
fn written(number: u32, n: usize) -> usize
    ensures { result ≡ cond (eqb number 0) n 0 }
{
    if number == 0 { n } else { 0 }
}
