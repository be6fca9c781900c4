// One reference through a day. A server registers and enters a tank level group, and its reference goes out in bytes. A client
// reads it, asks where to go next, resolves, takes more references and pings every two minutes from a set. At noon the gateway's
// box is swapped: another one loads its snapshot, and serves on. The client gives the references back; the object ends once the
// references of another client, which is lost, are dropped. Then the same with a client that falls silent. Each step is printed
// with its answer number. The day is recorded, and replayed at the end.
//
// The reference carries the addresses of the resolver, without an endpoint; those of the exporter, with one, stand in the table. So
// the next stop is seen to choose.
#![tactic(auto)]

use kinds::{SetId, limits};
use print::Buffer;
use recorder::Log;
use std::io;
use std::io::Write;
use tally::Tally;
use walkthrough_server::{Store, Words, say};

fn main(rt: HostRuntime) -> io::Result<()> {
    let mut out = Buffer::new(rt.stdout());
    day(&mut out);
    out.flush()
}

fn day(out: &mut Buffer) {
    say::text(
        out,
        b"     0 done, 4 the server has left, 6 the tank level group has ended, 11 the client was silent too long and begins anew\n",
    );
    let mut snapshot = [0u8; walkthrough_server::SNAPSHOT];
    let mut log: Log = [0; recorder::ROOM];
    let set = until_noon(out, &mut log, &mut snapshot);
    after_noon(out, &mut log, &snapshot, set);
    replay(out, &log);
}

// The first box; the client's set.
fn until_noon(
    out: &mut Buffer,
    log: &mut Log,
    snapshot: &mut [u8; walkthrough_server::SNAPSHOT],
) -> SetId {
    let mut words = [0u64; limits::WORDS];
    let mut store = [0u8; limits::BYTES];
    let mut reference = [0u8; walkthrough_server::REFERENCE];
    walkthrough_server::open(out, log, &mut words, &mut store);
    walkthrough_server::offer(out, log, &mut words, &store, &mut reference);
    let set = walkthrough_client::take_up(out, log, &mut words, &store, &reference);
    let opened = walkthrough_server::OPENED;
    walkthrough_client::wait(out, log, &mut words, &store, set, opened, 4, true);
    walkthrough_server::save(out, log, &words, &store, snapshot);
    set
}

// The box that takes over.
fn after_noon(
    out: &mut Buffer,
    log: &mut Log,
    snapshot: &[u8; walkthrough_server::SNAPSHOT],
    set: SetId,
) {
    let mut words = [0u64; limits::WORDS];
    let mut store = [0u8; limits::BYTES];
    let clock = walkthrough_server::take_over(out, log, &mut words, &mut store, snapshot);
    walkthrough_client::leave(out, log, &mut words, &store, set);
    walkthrough_client::lose_other(out, log, &mut words, &store, set);
    next_client(out, log, &mut words, &mut store, clock);
}

// Another client, and the end of the server.
fn next_client(out: &mut Buffer, log: &mut Log, words: &mut Words, store: &mut Store, clock: u64) {
    let mut reference = [0u8; walkthrough_server::REFERENCE];
    say::text(out, b"     the next client falls silent\n");
    walkthrough_server::offer(out, log, words, store, &mut reference);
    walkthrough_client::fall_silent(out, log, words, store, &reference, clock);
    walkthrough_server::close(out, log, words, store);
    walkthrough_client::come_late(out, log, words, store, &reference);
}

// Support replays the day in a table of its own.
fn replay(out: &mut Buffer, log: &[u8]) {
    let mut words = [0u64; limits::WORDS];
    let mut store = [0u8; limits::BYTES];
    let end = fields::within(log, recorder::end(log));
    let r = replaying::replay(&mut words, &mut store, &log[..end]);
    let Tally {
        granted,
        taken,
        rundown,
    } = r.tally;
    let tally = format_args!("granted {granted}, taken {taken}, run down {rundown}");
    match r.differs {
        0 => say::step(
            out,
            r.answer,
            format_args!("support: replays the day, agrees, {tally}"),
        ),
        k => say::step(
            out,
            r.answer,
            format_args!("support: replays the day, record {k} differs, {tally}"),
        ),
    }
}
