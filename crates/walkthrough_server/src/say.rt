// What is printed of each step. A step is written once it is made.
use bindings::Part;
use print::Buffer;
use print::words::Words;
use std::fmt::Display;
use std::io;
use std::io::Write;

pub fn text(out: &mut Buffer, s: &[u8]) {
    let written = out.write_all(s);
    made(out, written);
}

// A step: its answer number, what it is, and its results.
pub fn step(out: &mut Buffer, number: u32, what: impl Display + Drop) {
    let written = writeln!(out, "{number:>3}  {what}");
    made(out, written);
}

// What was made is written now.
fn made(out: &mut Buffer, written: io::Result<()>) {
    out.keep(written);
    let flushed = out.flush();
    out.keep(flushed);
}

// The address of a list's first string binding, after its tower.
pub fn address(list: &[u8]) -> Words<'_> {
    Words(bindings::binding(list, Part::Strings, 0), 1)
}
