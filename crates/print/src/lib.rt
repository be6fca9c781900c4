// What the programs print on standard output, gathered in a buffer of the program's and written in pieces of its size; and how they
// read standard input. No contract can speak of what is written.
#![tactic(auto)]

ghost use Rattle.std.specs.Prelude.{◌≡◌, ◌≤◌, None, Some, Err, IsOk, IfErr, IfSome, MatchOption};
ghost use Rattle.std.specs.Result.{result_err};
ghost use Rattle.std.specs.Io.{WritesAtMost};
ghost use Rattle.print.specs.declared.TheConstants.{ROOM};

use kinds::Guid;
use std::io::{Stdout, Write};
use std::{fmt, io, str};

pub mod dump;
mod hex;
pub mod input;
pub mod words;

// Holds what is gathered and not written yet. Behind the first error nothing more is written, and flush answers that error. What is
// not flushed in the end is lost. Std's BufWriter would need a heap.
#[derive(Drop)]
pub struct Buffer {
    to: Stdout,
    bytes: [u8; ROOM],
    // How many bytes are gathered, at the front.
    length: usize,
    failed: Option<io::Error>,

    ghost within: { length ≤ ROOM },
}

pub const ROOM: usize = 4096;

impl Buffer {
    pub fn new(to: Stdout) -> Buffer {
        Buffer {
            to,
            bytes: [0; ROOM],
            length: 0,
            failed: None,
        }
    }

    // Keeps the first error for flush.
    pub fn keep(&mut self, written: io::Result<()>)
        ensures first { self.old.failed ≡ None → self.new.failed ≡ result_err written }
        ensures kept { IfSome self.old.failed (λ e. self.new.failed ≡ Some e) }
    {
        self.failed = self.failed.or(written.err());
    }

    // Writes what is gathered.
    fn empty(&mut self) -> io::Result<()>
        ensures failed { IfErr result (λ e. self.new.failed ≡ Some e) }
        ensures behind { IfSome self.old.failed (λ e. (self.new.failed ≡ Some e) × IsOk result) }
    {
        let n = self.length;
        self.length = 0;
        pass(&mut self.to, &mut self.failed, &self.bytes[..n])
    }
}

// Writes bytes, or drops them behind the first error, which is kept.
fn pass(to: &mut Stdout, failed: &mut Option<io::Error>, s: &[u8]) -> io::Result<()>
    ensures failed { IfErr result (λ e. failed.new ≡ Some e) }
    ensures behind { IfSome failed.old (λ e. (failed.new ≡ Some e) × IsOk result) }
{
    if failed.is_some() {
        return Ok(());
    }
    let written = to.write_all(s);
    *failed = written.err();
    written
}

impl Write for Buffer {
    fn write(&mut self, s: &[u8]) -> io::Result<usize>
        ensures bound { WritesAtMost result s.now }
        ensures failed { IfErr result (λ e. self.new.failed ≡ Some e) }
        ensures behind { IfSome self.old.failed (λ e. (self.new.failed ≡ Some e) × IsOk result) }
    {
        self.write_all(s)?;
        Ok(s.len())
    }

    // Text that is longer than the buffer is written by itself.
    fn write_all(&mut self, s: &[u8]) -> io::Result<()>
        ensures failed { IfErr result (λ e. self.new.failed ≡ Some e) }
        ensures behind { IfSome self.old.failed (λ e. (self.new.failed ≡ Some e) × IsOk result) }
    {
        if ROOM - self.length < s.len() {
            self.empty()?;
        }
        let at = self.length;
        let n = s.len();
        if ROOM - at < n {
            return pass(&mut self.to, &mut self.failed, s);
        }
        self.bytes[at..at + n].copy_from_slice(s);
        self.length = at + n;
        Ok(())
    }

    fn flush(&mut self) -> io::Result<()>
        ensures answers { MatchOption self.new.failed (IsOk result) (λ e. result ≡ Err e) }
        ensures kept { IfSome self.old.failed (λ e. self.new.failed ≡ Some e) }
    {
        self.empty()?;
        match self.failed {
            Some(e) => Err(e),
            None => Ok(()),
        }
    }
}

// A GUID in its usual text: {00112233-4455-6677-8899-aabbccddeeff}.
#[derive(Clone, Copy)]
pub struct Braced(pub Guid);

impl fmt::Display for Braced {
    fn fmt<W: fmt::Write>(&self, f: &mut fmt::Formatter<W>) -> fmt::Result {
        let mut bytes = [0u8; 16];
        fields::write_guid(&mut bytes, 0, self.0);
        let mut text = *b"{00000000-0000-0000-0000-000000000000}";
        for (at, byte) in PLACES.iter().zip(bytes) {
            fields::copy(&mut text, *at, &hex::pair(byte));
        }
        f.write_str(str::from_utf8(&text).map_err(|_| fmt::Error)?)
    }
}

// Where the digits of each byte of a GUID stand in its text.
const PLACES: [usize; 16] = [7, 5, 3, 1, 12, 10, 17, 15, 20, 22, 25, 27, 29, 31, 33, 35];

// Two spaces for each level, before a line.
#[derive(Clone, Copy)]
pub struct Margin(pub usize);

impl fmt::Display for Margin {
    fn fmt<W: fmt::Write>(&self, f: &mut fmt::Formatter<W>) -> fmt::Result {
        for _ in 0..self.0 {
            f.write_str("  ")?;
        }
        Ok(())
    }
}
