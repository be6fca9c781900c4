// The process-data server of the walkthrough, and what is printed and recorded of each step.
#![tactic(auto)]

pub mod say;

use fields::Written;
use kinds::{Guid, Oid, Oxid, limits};
use print::Buffer;
use recorder::Log;
use references::{Block, Reference};
use resolver::LiveCounts;

// The table's words, and the bytes that it stores.
pub type Words = [u64; limits::WORDS];

pub type Store = [u8; limits::BYTES];

// Identifiers that the server chose.
pub const OXID: Oxid = Oxid(0x1101);

const OID: Oid = Oid(0x7E0A);

const UNKNOWN: Guid = Guid {
    low: 0x0000110100000001,
    high: 0x4600000000000001,
};

// The IPID of the group's interface.
pub const IPID: Guid = Guid {
    low: 0x0000110100000002,
    high: 0x4600000000000002,
};

// {39c13a54-011e-11d0-9675-0020afd8adb3}, a group of items.
const IID: Guid = Guid {
    low: 0x11D0011E39C13A54,
    high: 0xB3ADD8AF20007596,
};

// The group with 5 public references, pinged.
fn block() -> Block {
    Block::new(0, 5, OXID, OID, IPID)
}

// The string binding of the exporter, "10.1.4.20[49500]" over TCP, and that of the resolver on its machine, which has no endpoint.
const EXPORTER: [u16; 18] = [
    7, 49, 48, 46, 49, 46, 52, 46, 50, 48, 91, 52, 57, 53, 48, 48, 93, 0,
];

const RESOLVER: [u16; 11] = [7, 49, 48, 46, 49, 46, 52, 46, 50, 48, 0];

// The bytes of the reference: header, object block and the resolver's binding list.
pub const REFERENCE: usize = 94;

// The bytes of the snapshot at noon: one exporter, one object, one interface, one set with a member.
pub const SNAPSHOT: usize = 225;

// Eight minutes to noon, in seconds of the day.
pub const OPENED: u64 = 42720;

// Registers at eight minutes to noon.
pub fn open(out: &mut Buffer, log: &mut Log, words: &mut Words, store: &mut Store) {
    reset(out, log, words, store);
    let mut list = [0u8; 44];
    // The list is as long as its binding, so it is not refused.
    let _ = list_writer::write(&EXPORTER, &[], &mut list);
    register(out, log, words, store, &list);
}

fn reset(out: &mut Buffer, log: &mut Log, words: &mut Words, store: &Store) {
    let number = kinds::number(resolver::reset(words, store, OPENED));
    recorder::reset(log, OPENED, number);
    say::step(
        out,
        number,
        "server: resets its table at eight minutes to noon",
    );
}

fn register(out: &mut Buffer, log: &mut Log, words: &mut Words, store: &mut Store, list: &[u8]) {
    let entered = resolver::enter_exporter(words, store, OXID, UNKNOWN, list);
    let number = kinds::number(entered);
    recorder::enter_exporter(log, OXID, UNKNOWN, list, number);
    say::step(out, number, "server: registers as exporter");
}

// Enters the group and writes its reference, which carries the resolver's address (MS-DCOM, sections 2.2.18.4 and 2.2.19.3).
pub fn offer(
    out: &mut Buffer,
    log: &mut Log,
    words: &mut Words,
    store: &Store,
    reference: &mut [u8; REFERENCE],
) {
    enter(out, log, words, store);
    let mut list = [0u8; 30];
    // The list is as long as its binding, so it is not refused.
    let _ = list_writer::write(&RESOLVER, &[], &mut list);
    write(out, &list, reference);
}

fn enter(out: &mut Buffer, log: &mut Log, words: &mut Words, store: &Store) {
    let entered = resolver::enter_object(words, store, OID, OXID, IPID, IID, 5, false);
    let number = kinds::number(entered);
    recorder::enter_object(log, OID, OXID, IPID, IID, 5, number);
    say::step(
        out,
        number,
        "server: enters the tank level group with 5 public references",
    );
}

fn write(out: &mut Buffer, list: &[u8], reference: &mut [u8; REFERENCE]) {
    let r = Reference::standard(IID, block());
    let written = reference_writer::write(r, list, b"", reference);
    let n = written.unwrap_or(0);
    say::step(
        out,
        kinds::number(written),
        format_args!("server: writes the reference, {n} bytes"),
    );
}

// The snapshot of the box that goes.
pub fn save(out: &mut Buffer, log: &mut Log, words: &Words, store: &Store, snapshot: &mut [u8]) {
    let r = Written::from(resolver::write_snapshot(words, store, snapshot));
    recorder::write_snapshot(log, r.answer, snapshot, r.length);
    say::step(
        out,
        r.answer,
        format_args!(
            "server: writes a snapshot of its table at noon, {} bytes",
            r.length
        ),
    );
}

// The box that comes; the clock from which it goes on by the seconds that pass there: the snapshot's, not its own.
pub fn take_over(
    out: &mut Buffer,
    log: &mut Log,
    words: &mut Words,
    store: &mut Store,
    snapshot: &[u8],
) -> u64 {
    let number = kinds::number(resolver::load_snapshot(words, store, snapshot));
    recorder::load_snapshot(log, snapshot, number);
    say::step(
        out,
        number,
        "server: loads it into another box, which takes over",
    );
    fields::read_u64(snapshot, 2)
}

// Drops a client that was lost.
pub fn drop_client(out: &mut Buffer, log: &mut Log, words: &mut Words, store: &Store) {
    let number = kinds::number(resolver::drop_client(words, store, 1));
    recorder::drop_client(log, 1, number);
    say::step(
        out,
        number,
        "server: drops the private references of client 1",
    );
}

// Leaves.
pub fn close(out: &mut Buffer, log: &mut Log, words: &mut Words, store: &mut Store) {
    let number = kinds::number(resolver::remove_exporter(words, store, OXID));
    recorder::remove_exporter(log, OXID, number);
    say::step(out, number, "server: leaves");
}

// What is live.
pub fn census(out: &mut Buffer, log: &mut Log, words: &Words, store: &Store) {
    let r = LiveCounts::from(resolver::census(words, store));
    let [exporters, objects, interfaces, sets] = [r.exporters, r.objects, r.interfaces, r.sets].map(
        |n| n as u64,
    );
    recorder::census(
        log,
        &[r.answer as u64, exporters, objects, interfaces, sets],
    );
    let what = format_args!(
        "server: census, {exporters} exporters, {objects} objects, {interfaces} interfaces, {sets} sets"
    );
    say::step(out, r.answer, what);
}
