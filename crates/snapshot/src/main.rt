// Reads the snapshot of a table from standard input and prints what it holds, for people: the clock and the next set number, then
// exporters, objects, interfaces and ping sets, one to a line.
#![tactic(auto)]

use kinds::{Refusal, limits};
use print::{Buffer, input};
use std::io;
use std::io::Write;

mod rows;
mod sections;

// Reads into a buffer that is one byte longer than a snapshot may be.
fn main(rt: HostRuntime) -> io::Result<()> {
    let mut bytes = [0u8; limits::LONGEST_SNAPSHOT + 1];
    let n = input::read_full(&mut rt.stdin(), &mut bytes)?;
    let mut out = Buffer::new(rt.stdout());
    report(&mut out, &bytes[..n])?;
    out.flush()
}

fn report(out: &mut Buffer, s: &[u8]) -> io::Result<()> {
    match load(s) {
        Ok(()) => sections::print_all(out, s),
        Err(why) => writeln!(
            out,
            "refused {}: the bytes are not the snapshot of any sound table",
            u32::from(why)
        ),
    }
}

// Whether the bytes are a snapshot: a load into a table of our own.
fn load(s: &[u8]) -> Result<(), Refusal> {
    let mut words = [0u64; limits::WORDS];
    let mut store = [0u8; limits::BYTES];
    call_load::load_snapshot(&mut words, &mut store, s)
}
