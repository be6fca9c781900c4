// The fixed fields of a reference.
use print::{Braced, Buffer, Margin};
use references::{Block, Reference};
use std::io;
use std::io::Write;

// The fields that the form has, in the order of the bytes.
pub fn fields(out: &mut Buffer, r: Reference, n: usize) -> io::Result<()> {
    let margin = Margin(n);
    writeln!(out, "{margin}form: {}", form(r.flags))?;
    writeln!(out, "{margin}IID: {}", Braced(r.iid))?;
    let clsid = Braced(r.clsid);
    if r.flags == Reference::CUSTOM {
        writeln!(out, "{margin}CLSID: {clsid}")?;
        writeln!(out, "{margin}extension size: {}", r.extension)?;
        return writeln!(out, "{margin}size: {}", r.size);
    }
    block(out, r.block, margin)?;
    if r.flags == Reference::HANDLER {
        writeln!(out, "{margin}CLSID: {clsid}")?;
    }
    Ok(())
}

fn form(flags: u32) -> &'static str {
    match flags {
        Reference::STANDARD => "standard",
        Reference::HANDLER => "handler",
        Reference::CUSTOM => "custom",
        _ => "extended",
    }
}

fn block(out: &mut Buffer, b: Block, margin: Margin) -> io::Result<()> {
    // The flags, with the no-ping bit in words.
    let pinged = if b.no_ping() { " (no ping)" } else { "" };
    writeln!(out, "{margin}block flags: 0x{:08x}{pinged}", b.flags)?;
    writeln!(out, "{margin}public references: {}", b.public)?;
    writeln!(out, "{margin}OXID: 0x{:016x}", b.oxid.0)?;
    writeln!(out, "{margin}OID: 0x{:016x}", b.oid.0)?;
    writeln!(out, "{margin}IPID: {}", Braced(b.ipid))
}
