// Reading.
ghost use Rattle.std.specs.Prelude.{IfOk, ◌<◌, ◌≤◌, length, take};
ghost use Rattle.std.specs.Io.KnownBytes.{Consumes, IsAtEnd};

use std::io;
use std::io::Read;

// Reads until the buffer is full or the input ends; how many bytes were read, which stand at the front.
pub fn read_full<R: Read>(from: &mut R, into: &mut [u8]) -> io::Result<usize>
    ensures bound { IfOk result (λ n. n ≤ length into.new) }
    ensures bytes { IfOk result (λ n. Consumes (R.remaining from.old) (R.remaining from.new) (take n into.new)) }
    ensures end { IfOk result (λ n. n < length into.new → IsAtEnd (R.remaining from.new)) }
{
    let mut done = 0;
    // A walk: each step is as long as what a read gives.
    while done < into.len() {
        let n = from.read(&mut into[done..])?;
        if n == 0 {
            break;
        }
        done += n;
    }
    Ok(done)
}
