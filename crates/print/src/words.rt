// Text in words of 16 bits.
ghost use Rattle.std.specs.Prelude.{◌≡◌, ◌≤◌, take};
ghost use Rattle.print.specs.Words.{shown};

use crate::hex;
use std::{fmt, str};

// The words of bytes from a word number up to a zero word: a printable ASCII character as it is, a backslash doubled, any other unit
// as \uXXXX.
#[derive(Clone, Copy)]
pub struct Words<'a>(pub &'a [u8], pub usize);

impl fmt::Display for Words<'_> {
    fn fmt<W: fmt::Write>(&self, f: &mut fmt::Formatter<W>) -> fmt::Result {
        let mut piece = [0u8; PIECE];
        let mut length = 0;
        for word in self.0.chunks_exact(2).skip(self.1) {
            let (characters, n) = unit(fields::read_u16(word, 0));
            if n == 0 {
                break;
            }
            if PIECE - length < characters.len() {
                f.write_str(text(&piece[..length])?)?;
                length = 0;
            }
            fields::copy(&mut piece, length, &characters);
            length += n;
        }
        f.write_str(text(&piece[..length])?)
    }
}

// So many characters are written at once.
const PIECE: usize = 128;

fn text(piece: &[u8]) -> Result<&str, fmt::Error> {
    str::from_utf8(piece).map_err(|_| fmt::Error)
}

// The characters of a word, at the front of six bytes, and how many they are: none of a zero word.
fn unit(word: u16) -> ([u8; 6], usize)
    ensures length { result.1 ≤ 6 }
    ensures text { take result.1 result.0 ≡ shown word }
{
    let [high, low] = word.to_be_bytes();
    match word {
        0 => ([0; 6], 0),
        0x5C => (*b"\\\\\0\0\0\0", 2),
        0x20..=0x7E => ([low, 0, 0, 0, 0, 0], 1),
        _ => {
            let [a, b] = hex::pair(high);
            let [c, d] = hex::pair(low);
            ([b'\\', b'u', a, b, c, d], 6)
        }
    }
}
