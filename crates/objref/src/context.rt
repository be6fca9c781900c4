// The context in the object data of a custom reference.
use contexts::{Context, Property};
use cursors::{Walk, properties};
use print::{Braced, Buffer, Margin, dump};
use std::io;
use std::io::Write;

pub fn report(out: &mut Buffer, s: &[u8], n: usize) -> io::Result<()> {
    if let Ok(context) = Context::read(s) {
        fixed(out, context, Margin(n))?;
    }
    match properties::start(s) {
        Ok(walk) => listed(out, s, walk, n),
        Err(_) => Ok(()),
    }
}

// The fields before the properties.
fn fixed(out: &mut Buffer, c: Context, margin: Margin) -> io::Result<()> {
    writeln!(out, "{margin}context id: {}", Braced(c.id))?;
    writeln!(out, "{margin}reserved: 0x{:08x}", c.reserved)?;
    writeln!(out, "{margin}marshal flags: 0x{:08x}", c.marshal)?;
    writeln!(out, "{margin}frozen: {}", c.frozen)?;
    writeln!(out, "{margin}properties: {}", c.count)
}

// The properties from where a walk begins, each with its data.
fn listed(out: &mut Buffer, s: &[u8], first: Walk, n: usize) -> io::Result<()> {
    let mut walk = first;
    for k in 0..first.left {
        let Ok((found, met)) = walk.property(s) else {
            break;
        };
        walk = met.rest();
        property(out, found, k, Margin(n))?;
        dump::content(out, &s[met.place], n);
    }
    Ok(())
}

fn property(out: &mut Buffer, p: Property, k: usize, margin: Margin) -> io::Result<()> {
    let class = Braced(p.clsid);
    let policy = Braced(p.policy);
    let flags = match p.flags {
        Property::PROPAGATE => "1 (propagate)",
        Property::EXPOSE => "2 (expose)",
        _ => "4 (envoy)",
    };
    write!(
        out,
        "{margin}property {k}: class {class}, policy {policy}, flags {flags}, "
    )
}
