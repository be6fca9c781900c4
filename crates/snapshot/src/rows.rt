// A row of each section, at the front of bytes: it is printed, and its length is answered.
use fields::{read_guid, read_u16, read_u32, read_u64};
use print::{Braced, Buffer};
use snapshot_rows::Section;
use std::io;
use std::io::Write;

pub fn row(out: &mut Buffer, section: Section, s: &[u8], clock: u64) -> io::Result<usize> {
    match section {
        Section::Exporters => exporter(out, s),
        Section::Objects => object(out, s, clock),
        Section::Interfaces => interface(out, s),
        Section::Sets => set(out, s, clock),
    }
}

// The seconds from a time to the clock, and what was then.
fn ago(out: &mut Buffer, what: &str, time: u64, clock: u64) -> io::Result<()> {
    match clock.checked_sub(time) {
        Some(seconds) => write!(out, ", {what} {seconds} seconds ago"),
        None => Ok(()),
    }
}

fn exporter(out: &mut Buffer, s: &[u8]) -> io::Result<usize> {
    let unknown = Braced(read_guid(s, 8));
    let length = read_u16(s, 24);
    writeln!(
        out,
        "  OXID 0x{:016x}, remote unknown {unknown}, list of {length} bytes",
        read_u64(s, 0)
    )?;
    let end = 26 + length as usize;
    if let Some(list) = s.get(26..end) {
        print_bindings::parts(out, list, 2);
    }
    Ok(end)
}

fn object(out: &mut Buffer, s: &[u8], clock: u64) -> io::Result<usize> {
    let pinged = if fields::is_zero(s, 16, 1) {
        "pinged"
    } else {
        "not pinged"
    };
    write!(
        out,
        "  OID 0x{:016x}, exporter 0x{:016x}, {pinged}",
        read_u64(s, 0),
        read_u64(s, 8)
    )?;
    ago(out, "heard", read_u64(s, 17), clock)?;
    writeln!(out)?;
    Ok(25)
}

fn interface(out: &mut Buffer, s: &[u8]) -> io::Result<usize> {
    let ipid = Braced(read_guid(s, 0));
    let iid = Braced(read_guid(s, 16));
    let oid = read_u64(s, 32);
    write!(
        out,
        "  IPID {ipid}, IID {iid}, OID 0x{oid:016x}, public {}",
        read_u32(s, 40)
    )?;
    privates(out, s)?;
    writeln!(out)?;
    Ok(76)
}

// The private references of each client that has some.
fn privates(out: &mut Buffer, s: &[u8]) -> io::Result<()> {
    for client in 0..8 {
        let n = read_u32(s, 44 + 4 * client);
        if n != 0 {
            write!(out, ", client {client} private {n}")?;
        }
    }
    Ok(())
}

// A set, and a line for each member.
fn set(out: &mut Buffer, s: &[u8], clock: u64) -> io::Result<usize> {
    let members = read_u16(s, 18) as usize;
    write!(out, "  set {}, sequence {}", read_u64(s, 0), read_u16(s, 8))?;
    ago(out, "pinged", read_u64(s, 10), clock)?;
    writeln!(out, ", members {members}")?;
    for k in 0..members {
        writeln!(out, "    OID 0x{:016x}", read_u64(s, 20 + 8 * k))?;
    }
    Ok(20 + 8 * members)
}
