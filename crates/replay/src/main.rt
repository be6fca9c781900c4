// Reads a recording of at most 1 MiB from standard input, replays it, and prints whether it agrees, or the first record that differs:
// its call, what was recorded and what we answer; then the tally.
#![tactic(auto)]

use kinds::{answer, limits};
use print::{Buffer, input};
use replay_rules::Outcome;
use std::io;
use std::io::Write;
use tally::Tally;

mod record;

const LONGEST: usize = 1048576;

fn main(rt: HostRuntime) -> io::Result<()> {
    let mut bytes = [0u8; 1048577];
    whole(&rt, &mut bytes)
}

// The buffer is one byte longer than a recording may be here. Main, this and what reads are three: the check does not get through what is
// done with an array of this size.
fn whole(rt: &HostRuntime, bytes: &mut [u8; 1048577]) -> io::Result<()> {
    read(rt, bytes)
}

fn read(rt: &HostRuntime, bytes: &mut [u8]) -> io::Result<()> {
    let n = input::read_full(&mut rt.stdin(), bytes)?;
    let mut out = Buffer::new(rt.stdout());
    if LONGEST < n {
        writeln!(out, "too long: more than 1,048,576 bytes")?;
    } else {
        replayed(&mut out, &mut bytes[..n])?;
    }
    out.flush()
}

fn replayed(out: &mut Buffer, s: &mut [u8]) -> io::Result<()> {
    let r = outcome(s);
    if r.answer != answer::DONE {
        return writeln!(out, "refused {}{}", r.answer, reason(r.answer));
    }
    // The number of the record that differs, from 1; none where it is 0.
    match r.differs {
        0 => writeln!(out, "agrees")?,
        k => record::differing(out, s, k),
    }
    tallied(out, r.tally)
}

fn outcome(s: &[u8]) -> Outcome {
    let mut words = [0u64; limits::WORDS];
    let mut store = [0u8; limits::BYTES];
    replaying::replay(&mut words, &mut store, s)
}

// What is held is the rest of what was granted.
fn tallied(out: &mut Buffer, t: Tally) -> io::Result<()> {
    let held = t.granted.wrapping_sub(t.taken).wrapping_sub(t.rundown);
    writeln!(
        out,
        "granted {}, taken {}, run down {}, held {held}",
        t.granted, t.taken, t.rundown
    )
}

// Why, of each number that a recording is refused by.
fn reason(number: u32) -> &'static str {
    match number {
        answer::SHORT => ": the bytes end before a number or a section does",
        answer::LAYOUT =>
            ": a record is not in the form of its call, or bytes stand behind the last one",
        answer::TOO_MANY => ": more than 16,384 records",
        _ => "",
    }
}
