// The object data of a custom reference, and the data of an element.
use crate::context;
use kinds::Guid;
use print::{Braced, Buffer, Margin, dump};
use std::io;
use std::io::Write;

// A context where the CLSID says so.
pub fn object(out: &mut Buffer, clsid: Guid, s: &[u8], n: usize) -> io::Result<()> {
    if contexts::is_marshaler(clsid) {
        return context::report(out, s, n);
    }
    write!(out, "{}object data: ", Margin(n))?;
    dump::content(out, s, n);
    Ok(())
}

// Data that is a reference is printed by itself.
pub fn element(out: &mut Buffer, id: Guid, s: &[u8], n: usize) -> io::Result<()> {
    write!(out, "{}element 0: {}, ", Margin(n), Braced(id))?;
    if elements::is_reference(s) {
        writeln!(out, "{} bytes, a reference:", s.len())?;
    } else {
        dump::content(out, s, n);
    }
    Ok(())
}
