// Resolving an exporter.
ghost use Rattle.std.specs.Prelude.{◌≡◌, false, List, ℕ};
ghost use Rattle.bindings.specs.Filter.{words_in, Marks};
ghost use Rattle.rules.specs.Calls.{Call, Look};
ghost use Rattle.rules.specs.Rules.{too_many};
ghost use Rattle.table_view.specs.View.{memory, SoundTable, Stepped};
ghost use Rattle.call_look.specs.Replies.{resolve_reply, resolved};

use bindings::filter;
use kinds::{Guid, Oxid, Refusal, answer, limits};
use table_view::find;

// The length of the list that was written, and the remote-unknown IPID.
#[derive(Clone, Copy)]
pub struct Resolution {
    pub length: usize,
    pub unknown: Guid,
}

// The same with the answer number, as C gets it.
#[repr(C)]
#[derive(Clone, Copy)]
pub struct Resolved {
    pub answer: u32,
    pub length: usize,
    pub unknown: Guid,
}

impl From<Result<Resolution, Refusal>> for Resolved {
    ghost from_gives = { λ r x. x ≡ resolved r };

    fn from(r: Result<Resolution, Refusal>) -> Resolved {
        match r {
            Ok(x) => Resolved {
                answer: 0,
                length: x.length,
                unknown: x.unknown,
            },
            Err(why) => Resolved {
                answer: u32::from(why),
                length: 0,
                unknown: Guid::NIL,
            },
        }
    }
}

// The call on a sound table.
pub fn resolve_step(
    words: &[u64],
    store: &[u8],
    oxid: Oxid,
    buffer: &mut [u8],
) -> Result<Resolution, Refusal>
    requires { SoundTable (memory words.now store.now) }
    ensures { Stepped (Call.looking (Look.resolve oxid.0 buffer.old)) (memory words.now store.now)
        (resolve_reply (resolved result) buffer.new) (memory words.now store.now) }
{
    let i = find::exporter_row(words, oxid);
    if find::exporter_count(words) <= i {
        return Err(Refusal::NoExporter);
    }
    let list = find::list(words, store, i);
    if buffer.len() < list.len() {
        return Err(Refusal::NoRoom);
    }
    fields::copy(buffer, 0, list);
    Ok(Resolution {
        length: list.len(),
        unknown: find::unknown(words, i),
    })
}

// A request of more protocols is read once, into marks.
const FEW: usize = 64;

// The call on a sound table.
pub fn resolve_filtered_step(
    words: &[u64],
    store: &[u8],
    oxid: Oxid,
    protocols: &[u16],
    buffer: &mut [u8],
) -> Result<Resolution, Refusal>
    requires { SoundTable (memory words.now store.now) }
    ensures { Stepped (Call.looking (Look.resolve_filtered oxid.0 protocols.now buffer.old)) (memory words.now store.now)
        (resolve_reply (resolved result) buffer.new) (memory words.now store.now) }
{
    if protocols.len() <= FEW {
        return resolve_searched(words, store, oxid, protocols, buffer);
    }
    if answer::MOST_LISTED < protocols.len() {
        return Err(Refusal::TooMany);
    }
    let mut marks = [0u64; filter::MARKS];
    filter::mark_all(&mut marks, protocols);
    resolve_marked(words, store, oxid, &marks, buffer)
}

// The same with a search of the protocols for each binding.
fn resolve_searched(
    words: &[u64],
    store: &[u8],
    oxid: Oxid,
    protocols: &[u16],
    buffer: &mut [u8],
) -> Result<Resolution, Refusal>
    requires { SoundTable (memory words.now store.now) }
    ensures { Stepped (Call.looking (Look.resolve_filtered oxid.0 protocols.now buffer.old)) (memory words.now store.now)
        (resolve_reply (resolved result) buffer.new) (memory words.now store.now) }
{
    if answer::MOST_LISTED < protocols.len() {
        return Err(Refusal::TooMany);
    }
    let i = find::exporter_row(words, oxid);
    if find::exporter_count(words) <= i {
        return Err(Refusal::NoExporter);
    }
    let list = find::list(words, store, i);
    // a stored list keeps the rules, so that it is refused for want of room alone
    let length = filter::write_filtered(list, protocols, buffer)?;
    Ok(Resolution {
        length,
        unknown: find::unknown(words, i),
    })
}

// The same of protocols that are marked, within the limit: of them only the towers that the list has matter.
fn resolve_marked(
    words: &[u64],
    store: &[u8],
    oxid: Oxid,
    marks: &[u64; filter::MARKS],
    buffer: &mut [u8],
) -> Result<Resolution, Refusal>
    requires { SoundTable (memory words.now store.now) }
    ensures { (protocols : List ℕ) → too_many protocols ≡ false → Marks marks.now protocols
        → Stepped (Call.looking (Look.resolve_filtered oxid.0 protocols buffer.old)) (memory words.now store.now)
        (resolve_reply (resolved result) buffer.new) (memory words.now store.now) }
{
    let i = find::exporter_row(words, oxid);
    if find::exporter_count(words) <= i {
        return Err(Refusal::NoExporter);
    }
    let list = find::list(words, store, i);
    let mut towers = [0u16; limits::LONGEST_LIST / 2];
    let n = filter::requested_towers(list, marks, &mut towers);
    resolve_searched(words, store, oxid, &towers[..n], buffer)
}

// The same of protocols in bytes, two for each, little-endian, in any place.
pub fn resolve_filtered_bytes_step(
    words: &[u64],
    store: &[u8],
    oxid: Oxid,
    protocols: &[u8],
    buffer: &mut [u8],
) -> Result<Resolution, Refusal>
    requires { SoundTable (memory words.now store.now) }
    ensures { Stepped (Call.looking (Look.resolve_filtered oxid.0 (words_in protocols.now) buffer.old)) (memory words.now store.now)
        (resolve_reply (resolved result) buffer.new) (memory words.now store.now) }
{
    if answer::MOST_LISTED < protocols.len() / 2 {
        return Err(Refusal::TooMany);
    }
    let mut marks = [0u64; filter::MARKS];
    filter::mark_all_bytes(&mut marks, protocols);
    resolve_marked(words, store, oxid, &marks, buffer)
}
