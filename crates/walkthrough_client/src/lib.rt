// A client of the walkthrough, and the clock.
#![tactic(auto)]

use kinds::{Guid, Oid, Oxid, Refusal, SetId, answer, limits};
use print::Buffer;
use recorder::Log;
use references::{Block, Reference};
use resolver::{Expired, MemberCount, Pinged, Released, Resolved, StopPlace};
use walkthrough_server::{Store, Words, say};

// Goes where the reference leads, takes references of its own, and puts the object into a set; the set.
pub fn take_up<'a>(
    out: &mut Buffer,
    log: &mut Log,
    words: &mut Words,
    store: &'a Store,
    reference: &'a [u8; walkthrough_server::REFERENCE],
) -> SetId {
    let block = look_up(out, log, words, store, reference);
    let what = "client: takes 2 public and 1 private references more";
    add(out, log, words, store, 0, block.ipid, 2, 1, what);
    make_set(out, log, words, store, block.oid)
}

// Reads the reference and asks for addresses; its block.
fn look_up<'a>(
    out: &mut Buffer,
    log: &mut Log,
    words: &Words,
    store: &'a Store,
    reference: &'a [u8],
) -> Block {
    let block = read(out, reference);
    next_stop(out, log, words, store, reference);
    resolve(out, log, words, store, block.oxid);
    resolve_udp(out, log, words, store, block.oxid);
    block
}

// The block of the reference.
fn read(out: &mut Buffer, reference: &[u8]) -> Block {
    let read = Reference::read(reference);
    let block = read.unwrap_or(Reference::zero()).block;
    let Block {
        oxid: Oxid(oxid),
        oid: Oid(oid),
        public,
        ..
    } = block;
    let pinged = if block.no_ping() {
        "not pinged"
    } else {
        "pinged"
    };
    let what = format_args!(
        "client: reads the reference, OXID 0x{oxid:x}, OID 0x{oid:x}, {public} public references, {pinged}"
    );
    say::step(out, kinds::number(read), what);
    block
}

fn next_stop<'a>(
    out: &mut Buffer,
    log: &mut Log,
    words: &Words,
    store: &'a Store,
    reference: &'a [u8],
) {
    let place = StopPlace::from(resolver::next_stop_place(words, store, reference));
    let stop = resolver::next_stop(words, store, reference);
    recorder::next_stop(log, reference, place.answer, stop);
    directed(out, place, stop);
}

fn directed(out: &mut Buffer, place: StopPlace, stop: &[u8]) {
    let whose = if place.in_store {
        "the exporter's"
    } else {
        "the reference's own"
    };
    let address = say::address(stop);
    say::step(
        out,
        place.answer,
        format_args!("client: asks where to go next, {whose} list, {address}"),
    );
}

fn resolve(out: &mut Buffer, log: &mut Log, words: &Words, store: &Store, oxid: Oxid) {
    let mut list = [0u8; limits::LONGEST_LIST];
    let found = resolver::resolve(words, store, oxid, &mut list);
    let r = Resolved::from(found);
    recorder::resolve(log, oxid, r.answer, r.unknown, &list, r.length);
    match found {
        Ok(x) => resolved(out, &list[..fields::within(&list, x.length)]),
        Err(why) => refused(out, why),
    }
}

fn resolved(out: &mut Buffer, list: &[u8]) {
    let n = list.len();
    let address = say::address(list);
    say::step(
        out,
        answer::DONE,
        format_args!("client: resolves the exporter, {n} bytes, {address}"),
    );
}

fn refused(out: &mut Buffer, why: Refusal) {
    let number = u32::from(why);
    let code = kinds::wire_code(number);
    say::step(
        out,
        number,
        format_args!("client: resolves the exporter, code {code} on the wire"),
    );
}

// Asks for addresses of one protocol alone, UDP, which the server does not offer.
fn resolve_udp(out: &mut Buffer, log: &mut Log, words: &Words, store: &Store, oxid: Oxid) {
    let mut list = [0u8; limits::LONGEST_LIST];
    let r = Resolved::from(resolver::resolve_filtered(words, store, oxid, &[8], &mut list));
    recorder::resolve_filtered(log, oxid, b"\x08\x00", r.answer, r.unknown, &list, r.length);
    say::step(
        out,
        r.answer,
        format_args!("client: resolves it for UDP alone, {} bytes", r.length),
    );
}

// Two minutes after a time, where there is such a time.
fn later(time: u64) -> u64 {
    if time <= 0xFFFFFFFFFFFFFF00 {
        time + 120
    } else {
        time
    }
}

// The clock runs on for so many periods of two minutes, and the client pings or not.
pub fn wait(
    out: &mut Buffer,
    log: &mut Log,
    words: &mut Words,
    store: &Store,
    set: SetId,
    clock: u64,
    periods: u32,
    pinging: bool,
) {
    let mut time = clock;
    for _ in 0..periods {
        time = later(time);
        pass(out, log, words, store, time);
        if pinging {
            ping(out, log, words, store, set);
        }
    }
}

// Pings once more, and gives the references back. Another client has taken a private reference.
pub fn leave(out: &mut Buffer, log: &mut Log, words: &mut Words, store: &Store, set: SetId) {
    ping(out, log, words, store, set);
    let what = "client 1: takes 1 private reference";
    add(
        out,
        log,
        words,
        store,
        1,
        walkthrough_server::IPID,
        0,
        1,
        what,
    );
    release(out, log, words, store);
    count(out, log, words, store, set);
}

// The object stays until the references of the other client, which is lost, are dropped.
pub fn lose_other(out: &mut Buffer, log: &mut Log, words: &mut Words, store: &Store, set: SetId) {
    walkthrough_server::drop_client(out, log, words, store);
    count(out, log, words, store, set);
    walkthrough_server::census(out, log, words, store);
}

// Pings no more, and comes back when the object and the set are gone.
pub fn fall_silent<'a>(
    out: &mut Buffer,
    log: &mut Log,
    words: &mut Words,
    store: &'a Store,
    reference: &'a [u8; walkthrough_server::REFERENCE],
    clock: u64,
) {
    let set = take_up(out, log, words, store, reference);
    wait(out, log, words, store, set, clock, 3, false);
    release(out, log, words, store);
    ping(out, log, words, store, set);
    walkthrough_server::census(out, log, words, store);
}

// A reference is read after its exporter left.
pub fn come_late<'a>(
    out: &mut Buffer,
    log: &mut Log,
    words: &Words,
    store: &'a Store,
    reference: &'a [u8; walkthrough_server::REFERENCE],
) {
    resolve(out, log, words, store, walkthrough_server::OXID);
    next_stop(out, log, words, store, reference);
}

fn add(
    out: &mut Buffer,
    log: &mut Log,
    words: &mut Words,
    store: &Store,
    client: u32,
    ipid: Guid,
    public: u32,
    private: u32,
    what: &str,
) {
    let added = resolver::add(words, store, client, ipid, public, private);
    let number = kinds::number(added);
    recorder::add(log, client, ipid, public, private, number);
    say::step(out, number, what);
}

// Pings with one object in a new set; the set.
fn make_set(out: &mut Buffer, log: &mut Log, words: &mut Words, store: &Store, oid: Oid) -> SetId {
    let pinged = resolver::complex_ping(words, store, SetId(0), 1, &[oid.0], &[]);
    let r = Pinged::from(pinged);
    recorder::make_set(log, oid, r.answer, r.set, r.backoff);
    let what = format_args!(
        "client: pings with the object in a new set, set {}, backoff {}",
        r.set.0, r.backoff
    );
    say::step(out, r.answer, what);
    r.set
}

fn pass(out: &mut Buffer, log: &mut Log, words: &mut Words, store: &Store, time: u64) {
    let r = Expired::from(resolver::clock(words, store, time));
    let [exporters, objects, interfaces, sets] = [r.exporters, r.objects, r.interfaces, r.sets].map(
        |n| n as u64,
    );
    recorder::clock(
        log,
        time,
        &[r.answer as u64, exporters, objects, interfaces, sets],
    );
    let what = format_args!(
        "clock: two minutes later, {objects} objects, {interfaces} interfaces and {sets} sets went"
    );
    say::step(out, r.answer, what);
}

fn ping(out: &mut Buffer, log: &mut Log, words: &mut Words, store: &Store, set: SetId) {
    let number = kinds::number(resolver::simple_ping(words, store, set));
    recorder::simple_ping(log, set, number);
    say::step(out, number, "client: pings its set");
}

fn release(out: &mut Buffer, log: &mut Log, words: &mut Words, store: &Store) {
    let taken = resolver::release(words, store, 0, walkthrough_server::IPID, 7, 1);
    let r = Released::from(taken);
    let results = [r.answer, r.public, r.private, r.interfaces, r.objects].map(u64::from);
    recorder::release(log, 0, walkthrough_server::IPID, 7, 1, &results);
    released(out, r);
}

fn released(out: &mut Buffer, r: Released) {
    let Released {
        public,
        private,
        ..
    } = r;
    let interface = if r.interfaces == 0 { "no" } else { "the" };
    let object = if r.objects == 0 { "no" } else { "the" };
    let what = format_args!(
        "client: gives 7 public and 1 private references back, took {public} and {private}, {interface} interface went, {object} object went"
    );
    say::step(out, r.answer, what);
}

fn count(out: &mut Buffer, log: &mut Log, words: &Words, store: &Store, set: SetId) {
    let r = MemberCount::from(resolver::members(words, store, set));
    recorder::members(log, set, r.answer, r.count);
    say::step(
        out,
        r.answer,
        format_args!("client: counts the members of its set, {}", r.count),
    );
}
