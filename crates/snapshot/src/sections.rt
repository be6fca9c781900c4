// The sections of a snapshot, one after the other. Each begins with its count, of two bytes.
use crate::rows;
use print::Buffer;
use snapshot_rows::Section;
use std::io;
use std::io::Write;

pub fn print_all(out: &mut Buffer, s: &[u8]) -> io::Result<()> {
    let clock = fields::read_u64(s, 2);
    writeln!(out, "clock: {clock} seconds")?;
    writeln!(out, "next set: {}", fields::read_u64(s, 10))?;
    let exporters = behind(s, 18);
    let objects = section(out, "exporters", exporters, Section::Exporters, clock)?;
    let interfaces = section(out, "objects", objects, Section::Objects, clock)?;
    let sets = section(out, "interfaces", interfaces, Section::Interfaces, clock)?;
    section(out, "sets", sets, Section::Sets, clock)?;
    Ok(())
}

// The number of entries of the section at the front of bytes, and the entries; the bytes behind it.
fn section<'a>(
    out: &mut Buffer,
    name: &str,
    s: &'a [u8],
    kind: Section,
    clock: u64,
) -> io::Result<&'a [u8]> {
    let n = fields::read_u16(s, 0);
    writeln!(out, "{name}: {n}")?;
    let mut rest = behind(s, 2);
    for _ in 0..n {
        rest = behind(rest, rows::row(out, kind, rest, clock)?);
    }
    Ok(rest)
}

// The bytes behind the first n; none where they are not as many.
fn behind(s: &[u8], n: usize) -> &[u8] {
    s.get(n..).unwrap_or(&[])
}
