// Bytes in hex, at depth n.
ghost use Rattle.std.specs.Prelude.{◌≤◌, length};

use crate::{Buffer, Margin, hex};
use std::io;
use std::io::Write;

// The length, and the first 64 bytes in hex, 16 to a line; then how many more there are.
pub fn content(out: &mut Buffer, s: &[u8], n: usize) {
    let written = lines(out, s, n);
    out.keep(written);
}

fn lines(out: &mut Buffer, s: &[u8], n: usize) -> io::Result<()> {
    let margin = Margin(n);
    writeln!(out, "{} bytes", s.len())?;
    for (k, bytes) in s.chunks(16).take(4).enumerate() {
        write!(out, "{margin}  {:02x}:", 16 * k)?;
        row(out, bytes)?;
    }
    if 64 < s.len() {
        writeln!(out, "{margin}  ... {} more bytes", s.len() - 64)?;
    }
    Ok(())
}

// A row of bytes, a space before each, and the end of its line.
fn row(out: &mut Buffer, bytes: &[u8]) -> io::Result<()>
    requires { length bytes.now ≤ 16 }
{
    let mut text = [b' '; 49];
    for (k, byte) in bytes.iter().enumerate() {
        fields::copy(&mut text, 3 * k + 1, &hex::pair(*byte));
    }
    let end = 3 * bytes.len();
    text[end] = b'\n';
    out.write_all(&text[..=end])
}
