// The bindings of a list on standard output, at depth n.
#![tactic(auto)]

use bindings::Part;
use cursors::{Walk, parts};
use print::words::Words;
use print::{Buffer, Margin};
use std::io;
use std::io::Write;

// The list's N and S (document 01), then its bindings.
pub fn parts(out: &mut Buffer, s: &[u8], n: usize) {
    let written = lines(out, s, n);
    out.keep(written);
}

fn lines(out: &mut Buffer, s: &[u8], n: usize) -> io::Result<()> {
    let count = fields::read_u16(s, 0);
    let security = fields::read_u16(s, 2);
    writeln!(out, "{}binding list: N {count}, S {security}", Margin(n))?;
    part(out, s, Part::Strings, n)?;
    part(out, s, Part::Security, n)
}

// A line for each binding of a part, or one that says that there is none. A binding has a word at least, so that a part has no more
// bindings than words.
fn part(out: &mut Buffer, s: &[u8], p: Part, n: usize) -> io::Result<()> {
    let first = parts::start(s, p).unwrap_or(Walk { at: 0, left: 0 });
    let mut walk = first;
    for k in 0..first.left {
        let Ok(met) = walk.binding(s, p) else {
            break;
        };
        walk = met.rest();
        binding(out, p, k, &s[met.place], n)?;
    }
    if walk.at == first.at {
        writeln!(out, "{}{} bindings: none", Margin(n), kind(p))?;
    }
    Ok(())
}

fn kind(p: Part) -> &'static str {
    match p {
        Part::Strings => "string",
        Part::Security => "security",
    }
}

// Binding k of its part.
fn binding(out: &mut Buffer, p: Part, k: usize, b: &[u8], n: usize) -> io::Result<()> {
    let margin = Margin(n);
    let first = fields::read_u16(b, 0);
    write!(out, "{margin}{} binding {k}: ", kind(p))?;
    match p {
        Part::Strings => writeln!(
            out,
            "tower {first} ({}), address {}",
            protocol(first),
            Words(b, 1)
        ),
        Part::Security => {
            let second = fields::read_u16(b, 2);
            let name = Words(b, 2);
            writeln!(
                out,
                "service {first} (0x{first:04x}), second word 0x{second:04x}, principal name {name}"
            )
        }
    }
}

// The protocol of a tower number (document 001, section 3.2).
fn protocol(tower: u16) -> &'static str {
    match tower {
        0x04 => "ncacn_dnet_nsp",
        0x07 => "ncacn_ip_tcp",
        0x08 => "ncadg_ip_udp",
        0x0C => "ncacn_spx",
        0x0D => "ncacn_nb_ipx",
        0x0E => "ncadg_ipx",
        0x10 => "ncalrpc",
        0x12 => "ncacn_nb_nb",
        _ => "unknown",
    }
}
