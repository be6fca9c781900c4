// Reads an object reference of at most 65,536 bytes from standard input and prints its fields, one to a line; a reference inside it
// further in.
#![tactic(auto)]

use kinds::Refusal;
use print::{Buffer, input};
use references::Reference;
use std::io;
use std::io::Write;

mod context;
mod data;
mod form;

const LONGEST: usize = 65536;

// Reads into a buffer that is one byte longer than a reference may be.
fn main(rt: HostRuntime) -> io::Result<()> {
    let mut bytes = [0u8; LONGEST + 1];
    let n = input::read_full(&mut rt.stdin(), &mut bytes)?;
    let mut out = Buffer::new(rt.stdout());
    if LONGEST < n {
        writeln!(out, "too long: more than 65,536 bytes")?;
    } else {
        report(&mut out, &bytes[..n])?;
    }
    out.flush()
}

fn report(out: &mut Buffer, s: &[u8]) -> io::Result<()> {
    match references::reference_answer(s) {
        Ok(_) => nest(out, s, 0),
        Err(why) => writeln!(out, "refused {}{}", u32::from(why), reason(why)),
    }
}

// A reference at depth n, from 0, and the reference in its element.
fn nest(out: &mut Buffer, s: &[u8], n: usize) -> io::Result<()> {
    if Reference::DEPTH <= n {
        return Ok(());
    }
    if let Ok(reference) = Reference::read(s) {
        single(out, reference, s, n)?;
    }
    let data = references::element_data(s, 0);
    if elements::is_reference(data) {
        nest(out, data, n + 1)?;
    }
    Ok(())
}

fn single(out: &mut Buffer, r: Reference, s: &[u8], n: usize) -> io::Result<()> {
    form::fields(out, r, n)?;
    let rest = references::tail(s);
    if r.flags == Reference::CUSTOM {
        data::object(out, r.clsid, rest, n)?;
    } else {
        print_bindings::parts(out, rest, n);
    }
    if r.flags == Reference::EXTENDED {
        data::element(out, r.element, references::element_data(s, 0), n)?;
    }
    Ok(())
}

// Why, of each refusal of a reference.
fn reason(why: Refusal) -> &'static str {
    match why {
        Refusal::Short => ": the bytes end before a field does",
        Refusal::Layout => ": a layout rule is broken",
        Refusal::TooDeep => ": references nested deeper than 8",
        Refusal::NilIdentifier => ": an OXID, OID or IPID is zero",
        _ => "",
    }
}
