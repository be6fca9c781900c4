// Our answer to the call of a record, from its bytes: its number, its results, and the bytes that it shows.
#![tactic(auto)]

mod results;

use fields::{Written, read_guid, read_u16, read_u32, read_u64};
use kinds::{Oid, Oxid, Refusal, SetId};
use resolver::Stop;
use std::ops::Range;

// The number of an answer and its results, 0 where it has fewer, and how many bytes it shows.
#[derive(Clone, Copy)]
pub struct Answered {
    pub numbers: [u64; 5],
    pub shown: usize,
}

// The most bytes that a call shows: a binding list of 65,535 words in a reference.
pub const MOST_SHOWN: usize = 131074;

// The answer of a call; what it shows is written to the front of a buffer.
pub fn performed(
    words: &mut [u64],
    store: &mut [u8],
    call: &[u8],
    first: &[u8],
    second: &[u8],
    buffer: &mut [u8],
) -> Answered {
    let id = read_u64(call, 1);
    match recording::byte(call, 0) {
        0 => resolver::reset(words, store, id).into(),
        1 => resolver::enter_exporter(words, store, Oxid(id), read_guid(call, 9), first).into(),
        2 => resolver::remove_exporter(words, store, Oxid(id)).into(),
        3 => enter_object(words, store, call),
        4 => enter_interface(words, store, call),
        5 | 6 => counted(words, store, call),
        7 => resolver::drop_client(words, store, read_u32(call, 1)).into(),
        8 | 9 => items(words, store, call, first, buffer),
        10 => resolver::simple_ping(words, store, SetId(id)).into(),
        11 => complex_ping(words, store, call, first, second),
        12 => resolver::clock(words, store, id).into(),
        13 => resolver::resolve(words, store, Oxid(id), front(buffer, read_u64(call, 9))).into(),
        14 => resolve_filtered(words, store, call, first, buffer),
        16 => resolver::members(words, store, SetId(id)).into(),
        17 => next_stop(words, store, first, buffer),
        18 => Written::from(resolver::write_snapshot(words, store, front(buffer, id))).into(),
        19 => resolver::load_snapshot(words, store, first).into(),
        _ => resolver::census(words, store).into(),
    }
}

// As many bytes of a buffer as a recorded length says, or all: no call writes more.
fn front(buffer: &mut [u8], n: u64) -> &mut [u8] {
    let end = n.min(buffer.len() as u64) as usize;
    &mut buffer[..end]
}

fn enter_object(words: &mut [u64], store: &[u8], s: &[u8]) -> Answered {
    resolver::enter_object(
        words,
        store,
        Oid(read_u64(s, 1)),
        Oxid(read_u64(s, 9)),
        read_guid(s, 17),
        read_guid(s, 33),
        read_u32(s, 49),
        !fields::is_zero(s, 53, 1),
    )
    .into()
}

fn enter_interface(words: &mut [u64], store: &[u8], s: &[u8]) -> Answered {
    let oid = Oid(read_u64(s, 1));
    resolver::enter_interface(
        words,
        store,
        oid,
        read_guid(s, 9),
        read_guid(s, 25),
        read_u32(s, 41),
    )
    .into()
}

// An add, which is code 5, or a release.
fn counted(words: &mut [u64], store: &[u8], s: &[u8]) -> Answered {
    let client = read_u32(s, 1);
    let ipid = read_guid(s, 5);
    let public = read_u32(s, 21);
    let private = read_u32(s, 25);
    if recording::byte(s, 0) == 5 {
        resolver::add(words, store, client, ipid, public, private).into()
    } else {
        resolver::release(words, store, client, ipid, public, private).into()
    }
}

// An add list, which is code 8, or a release list: a result for each item.
fn items(words: &mut [u64], store: &[u8], s: &[u8], items: &[u8], buffer: &mut [u8]) -> Answered {
    let client = read_u32(s, 1);
    let to = front(buffer, read_u64(s, 5));
    let done = if recording::byte(s, 0) == 8 {
        resolver::add_list(words, store, client, items, to)
    } else {
        resolver::release_list(words, store, client, items, to)
    };
    Answered::showing(kinds::number(done), items.len() / 24)
}

// The lists are in bytes, so it is the step that is asked for.
fn complex_ping(
    words: &mut [u64],
    store: &[u8],
    s: &[u8],
    adds: &[u8],
    deletes: &[u8],
) -> Answered {
    if !table_judge::sound(words, store) {
        return Refusal::Unsound.into();
    }
    let set = SetId(read_u64(s, 1));
    call_ping::complex_ping_bytes_step(words, store, set, read_u16(s, 9), adds, deletes).into()
}

// The protocols are in bytes too.
fn resolve_filtered(
    words: &[u64],
    store: &[u8],
    s: &[u8],
    protocols: &[u8],
    buffer: &mut [u8],
) -> Answered {
    if !table_judge::sound(words, store) {
        return Refusal::Unsound.into();
    }
    let oxid = Oxid(read_u64(s, 1));
    let to = front(buffer, read_u64(s, 9));
    call_look::resolve_filtered_bytes_step(words, store, oxid, protocols, to).into()
}

// A part of the store or of the reference.
fn next_stop(words: &[u64], store: &[u8], reference: &[u8], buffer: &mut [u8]) -> Answered {
    match resolver::next_stop_place(words, store, reference) {
        Ok(Stop::InStore(place)) => shown(buffer, store, place),
        Ok(Stop::InReference(place)) => shown(buffer, reference, place),
        Err(why) => why.into(),
    }
}

// The bytes of a place, at the front of a buffer.
fn shown(buffer: &mut [u8], s: &[u8], place: Range<usize>) -> Answered {
    let part = s.get(place).unwrap_or(&[]);
    fields::copy(buffer, 0, part);
    Answered::showing(0, part.len())
}
