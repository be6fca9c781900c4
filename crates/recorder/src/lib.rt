// Writes the recording of a run (docs/RECORDING.md): a record for each call, with its answer. A call's code stands beside its name alone. A recording begins with the number of
// its records; each record is five sections, each after its number of bytes. What has no room is left out.
#![tactic(auto)]

ghost use Rattle.std.specs.Prelude.{◌≤◌};

use Number::{Byte, Long, Short, Word};
use kinds::{Guid, Oid, Oxid, SetId};

// A recording and the room for it.
pub type Log = [u8; ROOM];

pub const ROOM: usize = 8192;

// A number of a call, of as many bytes as its kind has.
#[derive(Clone, Copy)]
enum Number {
    Byte(u8),
    Short(u16),
    Word(u32),
    Long(u64),
}

impl Number {
    fn value(self) -> u64 {
        match self {
            Byte(n) => n as u64,
            Short(n) => n as u64,
            Word(n) => n as u64,
            Long(n) => n,
        }
    }

    fn width(self) -> usize
        ensures { result ≤ 8 }
    {
        match self {
            Byte(_) => 1,
            Short(_) => 2,
            Word(_) => 4,
            Long(_) => 8,
        }
    }
}

// Where the records end.
pub fn end(log: &[u8]) -> usize {
    (0..fields::read_u64(log, 0)).fold(8, |at, _| recording::record_ends(log, at).shown)
}

// Where a section that is put at a place ends; one that has no room is left out.
fn section(log: &mut Log, at: usize, s: &[u8]) -> usize {
    let n = s.len();
    if ROOM - 8 < at || ROOM - 8 - at < n {
        return at;
    }
    fields::write_u64(log, at, n as u64);
    fields::copy(log, at + 8, s);
    at + 8 + n
}

// Where a section of numbers that is put at a place ends. A number covers the zeros of a narrow one before it.
fn packed(log: &mut Log, at: usize, numbers: &[Number]) -> usize {
    let mut s = [0u8; 64];
    let mut n = 0;
    for number in numbers {
        fields::write_u64(&mut s, n, number.value());
        n = fields::within(&s, n + number.width());
    }
    section(log, at, &s[..n])
}

// The same of results, of eight bytes each; a call has five at most, its answer number first.
fn answered(log: &mut Log, at: usize, results: &[u64]) -> usize {
    let mut s = [0u8; 40];
    for (to, n) in s.chunks_exact_mut(8).zip(results) {
        fields::write_u64(to, 0, *n);
    }
    section(log, at, &s[..fields::within(&s, 8 * results.len().min(5))])
}

// A record of a call by its code and numbers, its list, its answer by number and results, and the bytes that were shown. The second
// list is empty.
fn record(log: &mut Log, numbers: &[Number], list: &[u8], results: &[u64], shown: &[u8]) {
    let from = end(log);
    let call = packed(log, from, numbers);
    let first = section(log, call, list);
    let second = section(log, first, b"");
    let answer = answered(log, second, results);
    section(log, answer, shown);
    let n = fields::read_u64(log, 0);
    fields::write_u64(log, 0, n.wrapping_add(1));
}

// A record of a call that is given no list and shows nothing.
fn plain(log: &mut Log, numbers: &[Number], results: &[u64]) {
    record(log, numbers, b"", results, b"");
}

// A record of a call with one number of eight bytes, without results.
fn single(log: &mut Log, code: u8, n: u64, number: u32) {
    plain(log, &[Byte(code), Long(n)], &[number as u64]);
}

pub fn reset(log: &mut Log, time: u64, number: u32) {
    single(log, 0, time, number);
}

pub fn enter_exporter(log: &mut Log, oxid: Oxid, unknown: Guid, list: &[u8], number: u32) {
    record(
        log,
        &[Byte(1), Long(oxid.0), Long(unknown.low), Long(unknown.high)],
        list,
        &[number as u64],
        b"",
    );
}

pub fn remove_exporter(log: &mut Log, oxid: Oxid, number: u32) {
    single(log, 2, oxid.0, number);
}

// An object that is pinged.
pub fn enter_object(
    log: &mut Log,
    oid: Oid,
    oxid: Oxid,
    ipid: Guid,
    iid: Guid,
    public: u32,
    number: u32,
) {
    plain(
        log,
        &[
            Byte(3),
            Long(oid.0),
            Long(oxid.0),
            Long(ipid.low),
            Long(ipid.high),
            Long(iid.low),
            Long(iid.high),
            Word(public),
            Byte(0),
        ],
        &[number as u64],
    );
}

// A record of an add or a release, by its code.
fn counted(
    log: &mut Log,
    code: u8,
    client: u32,
    ipid: Guid,
    public: u32,
    private: u32,
    results: &[u64],
) {
    plain(
        log,
        &[
            Byte(code),
            Word(client),
            Long(ipid.low),
            Long(ipid.high),
            Word(public),
            Word(private),
        ],
        results,
    );
}

pub fn add(log: &mut Log, client: u32, ipid: Guid, public: u32, private: u32, number: u32) {
    counted(log, 5, client, ipid, public, private, &[number as u64]);
}

// The results are the number, and what was taken and went.
pub fn release(log: &mut Log, client: u32, ipid: Guid, public: u32, private: u32, results: &[u64]) {
    counted(log, 6, client, ipid, public, private, results);
}

pub fn drop_client(log: &mut Log, client: u32, number: u32) {
    plain(log, &[Byte(7), Word(client)], &[number as u64]);
}

pub fn simple_ping(log: &mut Log, set: SetId, number: u32) {
    single(log, 10, set.0, number);
}

// A ping with one object in a new set.
pub fn make_set(log: &mut Log, oid: Oid, number: u32, set: SetId, backoff: u16) {
    record(
        log,
        &[Byte(11), Long(0), Short(1)],
        &oid.0.to_le_bytes(),
        &[number as u64, set.0, backoff as u64],
        b"",
    );
}

// The results are the number, and how many of each kind went.
pub fn clock(log: &mut Log, time: u64, results: &[u64]) {
    plain(log, &[Byte(12), Long(time)], results);
}

// A resolve by its code, with the list of that length that it wrote to a buffer.
fn resolved(
    log: &mut Log,
    code: u8,
    oxid: Oxid,
    protocols: &[u8],
    number: u32,
    unknown: Guid,
    buffer: &[u8],
    length: usize,
) {
    let n = fields::within(buffer, length);
    record(
        log,
        &[Byte(code), Long(oxid.0), Long(buffer.len() as u64)],
        protocols,
        &[number as u64, n as u64, unknown.low, unknown.high],
        &buffer[..n],
    );
}

pub fn resolve(
    log: &mut Log,
    oxid: Oxid,
    number: u32,
    unknown: Guid,
    buffer: &[u8],
    length: usize,
) {
    resolved(log, 13, oxid, b"", number, unknown, buffer, length);
}

// A resolve for protocols, two bytes each.
pub fn resolve_filtered(
    log: &mut Log,
    oxid: Oxid,
    protocols: &[u8],
    number: u32,
    unknown: Guid,
    buffer: &[u8],
    length: usize,
) {
    resolved(log, 14, oxid, protocols, number, unknown, buffer, length);
}

// The results are the number, and how many of each kind are live.
pub fn census(log: &mut Log, results: &[u64]) {
    plain(log, &[Byte(15)], results);
}

pub fn members(log: &mut Log, set: SetId, number: u32, count: usize) {
    plain(
        log,
        &[Byte(16), Long(set.0)],
        &[number as u64, count as u64],
    );
}

// A next stop with the part that it showed.
pub fn next_stop(log: &mut Log, reference: &[u8], number: u32, stop: &[u8]) {
    record(log, &[Byte(17)], reference, &[number as u64], stop);
}

// A snapshot of that length that was written to a buffer.
pub fn write_snapshot(log: &mut Log, number: u32, buffer: &[u8], length: usize) {
    let n = fields::within(buffer, length);
    record(
        log,
        &[Byte(18), Long(buffer.len() as u64)],
        b"",
        &[number as u64, n as u64],
        &buffer[..n],
    );
}

pub fn load_snapshot(log: &mut Log, snapshot: &[u8], number: u32) {
    record(log, &[Byte(19)], snapshot, &[number as u64], b"");
}
