// A record as text: its call and its answer, in the words of its code.
#![tactic(auto)]

ghost use Rattle.std.specs.Prelude.{◌≤◌};

use fields::{read_guid, read_u16, read_u32, read_u64};
use kinds::Guid;
use print::{Braced, Buffer, dump};
use std::io;
use std::io::Write;

// Record k of a recording, from 1, which differs: its call and what was recorded. Where it begins.
pub fn differing(out: &mut Buffer, s: &[u8], k: u32) -> usize {
    let at = (1..k).fold(8, |at, _| recording::record_ends(s, at).shown);
    let written = record(out, s, k, at);
    out.keep(written);
    at
}

// Record k, which begins there.
fn record(out: &mut Buffer, s: &[u8], k: u32, at: usize) -> io::Result<()> {
    writeln!(out, "record {k} differs")?;
    let e = recording::record_ends(s, at);
    let c = section(s, at, e.call);
    let code = recording::byte(c, 0);
    write!(out, "call: ")?;
    call(out, code, c)?;
    writeln!(out)?;
    listed(out, "list", section(s, e.call, e.first))?;
    listed(out, "deletes", section(s, e.first, e.second))?;
    write!(out, "recorded: ")?;
    let numbers = recorded(section(s, e.second, e.answer));
    answered(out, code, &numbers, section(s, e.answer, e.shown))
}

// The bytes of the section that ends there, after one that ends at from: behind the eight bytes of their number.
pub fn section(s: &[u8], from: usize, to: usize) -> &[u8] {
    s.get(from..to).and_then(|x| x.get(8..)).unwrap_or(&[])
}

// The call of a section: its name and its numbers.
fn call(out: &mut Buffer, code: u8, s: &[u8]) -> io::Result<()> {
    let id = read_u64(s, 1);
    match code {
        0 => write!(out, "reset, time {id}"),
        1 => write!(
            out,
            "enter exporter, OXID 0x{id:016x}, remote unknown {}",
            Braced(read_guid(s, 9))
        ),
        2 => write!(out, "remove exporter, OXID 0x{id:016x}"),
        3 => enter_object(out, s),
        4 => enter_interface(out, s),
        5 => counted(out, "add", s),
        6 => counted(out, "release", s),
        7 => write!(out, "drop client {}", read_u32(s, 1)),
        8 => items(out, "add list", s),
        9 => items(out, "release list", s),
        10 => write!(out, "simple ping, set {id}"),
        11 => write!(out, "complex ping, set {id}, sequence {}", read_u16(s, 9)),
        12 => write!(out, "clock, time {id}"),
        13 => resolve(out, "resolve", s),
        14 => resolve(out, "resolve by protocols", s),
        15 => write!(out, "census"),
        16 => write!(out, "members, set {id}"),
        17 => write!(out, "next stop"),
        18 => write!(out, "write snapshot, a buffer of {id} bytes"),
        19 => write!(out, "load snapshot"),
        _ => Ok(()),
    }
}

fn enter_object(out: &mut Buffer, s: &[u8]) -> io::Result<()> {
    write!(
        out,
        "enter object, OID 0x{:016x}, OXID 0x{:016x}, ",
        read_u64(s, 1),
        read_u64(s, 9)
    )?;
    interface(out, s, 17)?;
    let unpinged = if fields::is_zero(s, 53, 1) {
        "no"
    } else {
        "yes"
    };
    write!(out, ", not pinged: {unpinged}")
}

fn enter_interface(out: &mut Buffer, s: &[u8]) -> io::Result<()> {
    write!(out, "enter interface, OID 0x{:016x}, ", read_u64(s, 1))?;
    interface(out, s, 9)
}

// The numbers of an interface from byte at on.
fn interface(out: &mut Buffer, s: &[u8], at: usize) -> io::Result<()>
    requires { at ≤ 17 }
{
    let ipid = Braced(read_guid(s, at));
    let iid = Braced(read_guid(s, at + 16));
    write!(
        out,
        "IPID {ipid}, IID {iid}, public {}",
        read_u32(s, at + 32)
    )
}

fn counted(out: &mut Buffer, name: &str, s: &[u8]) -> io::Result<()> {
    let client = read_u32(s, 1);
    let ipid = Braced(read_guid(s, 5));
    write!(
        out,
        "{name}, client {client}, IPID {ipid}, public {}, private {}",
        read_u32(s, 21),
        read_u32(s, 25)
    )
}

fn items(out: &mut Buffer, name: &str, s: &[u8]) -> io::Result<()> {
    write!(
        out,
        "{name}, client {}, {} bytes for results",
        read_u32(s, 1),
        read_u64(s, 5)
    )
}

fn resolve(out: &mut Buffer, name: &str, s: &[u8]) -> io::Result<()> {
    write!(
        out,
        "{name}, OXID 0x{:016x}, a buffer of {} bytes",
        read_u64(s, 1),
        read_u64(s, 9)
    )
}

// The numbers of a recorded answer.
fn recorded(s: &[u8]) -> [u64; 5] {
    [0, 8, 16, 24, 32].map(|at| read_u64(s, at))
}

// Our answer, and where the bytes that it shows differ from those that were recorded. Of its numbers the first five count; those that
// are not there are 0.
pub fn ours(out: &mut Buffer, code: u8, numbers: &[u64], shown: &[u8], recorded: &[u8]) {
    let numbers = [0, 1, 2, 3, 4].map(|k| numbers.get(k).copied().unwrap_or(0));
    let written = compared(out, code, &numbers, shown, recorded);
    out.keep(written);
}

fn compared(
    out: &mut Buffer,
    code: u8,
    numbers: &[u64; 5],
    shown: &[u8],
    recorded: &[u8],
) -> io::Result<()> {
    write!(out, "ours: ")?;
    answered(out, code, numbers, shown)?;
    if shown != recorded {
        let same = shown
            .iter()
            .zip(recorded)
            .take_while(|(x, y)| x == y)
            .count();
        writeln!(out, "  the shown bytes differ from byte {same} on")?;
    }
    Ok(())
}

// An answer: its number, its results and the bytes that it shows.
fn answered(out: &mut Buffer, code: u8, numbers: &[u64; 5], shown: &[u8]) -> io::Result<()> {
    let [number, a, b, c, d] = *numbers;
    // No call has a higher code than 19.
    if code <= 19 {
        write!(out, "{number}")?;
    }
    match code {
        6 => writeln!(
            out,
            ", taken public {a}, private {b}, interfaces that went {c}, objects {d}"
        )?,
        11 => writeln!(out, ", set {a}, backoff {b}")?,
        12 => writeln!(
            out,
            ", exporters that went {a}, objects {b}, interfaces {c}, sets {d}"
        )?,
        13 | 14 => writeln!(
            out,
            ", length {a}, remote unknown {}",
            Braced(Guid { low: b, high: c })
        )?,
        15 => writeln!(
            out,
            ", exporters {a}, objects {b}, interfaces {c}, sets {d}"
        )?,
        16 => writeln!(out, ", members {a}")?,
        18 => writeln!(out, ", length {a}")?,
        _ => writeln!(out)?,
    }
    listed(out, "shown", shown)
}

// Bytes, if there are any.
fn listed(out: &mut Buffer, what: &str, s: &[u8]) -> io::Result<()> {
    if s.is_empty() {
        return Ok(());
    }
    write!(out, "  {what}: ")?;
    dump::content(out, s, 1);
    Ok(())
}
