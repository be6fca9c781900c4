// Little-endian numbers and GUIDs in byte slices. Each public function but `word` takes any place: bytes that are not all there
// read as 0, and bytes that do not fit are not written.
#![tactic(auto)]

ghost use Rattle.std.specs.Prelude.{◌≡◌, ◌+◌, ◌<◌, ◌≤◌, min, length, take, drop, eqb, leb, MatchOption};
ghost use Rattle.fields.specs.Writers.{wrote};
ghost use Rattle.fields.specs.Fields.{field, encode, written, zeros, rounded, guid_at, guid_bytes};

use kinds::{Guid, Refusal};

// The number of bytes that were written, or that of the refusal, as C takes it.
#[repr(C)]
#[derive(Clone, Copy)]
pub struct Written {
    pub answer: u32,
    pub length: usize,
}

impl From<Result<usize, Refusal>> for Written {
    ghost from_gives = { λ length given. given ≡ wrote length };

    fn from(length: Result<usize, Refusal>) -> Written {
        match length {
            Ok(n) => Written {
                answer: 0,
                length: n,
            },
            Err(why) => Written {
                answer: u32::from(why),
                length: 0,
            },
        }
    }
}

// The largest size whose rounded size fits four bytes.
pub const LONGEST: u64 = 0xFFFFFFF8;

// A size rounded up to a multiple of 8.
pub fn rounded(n: u32) -> u64
    ensures { result ≡ rounded n }
{
    u64::from(n).next_multiple_of(8)
}

// Whether the w bytes from at lie within n bytes.
pub fn inside(n: usize, at: usize, w: usize) -> bool
    ensures { result ≡ leb (at + w) n }
{
    at <= n && w <= n - at
}

// n, or the number of bytes where they are fewer.
pub fn within(s: &[u8], n: usize) -> usize
    ensures { result ≡ min n (length s.now) }
{
    n.min(s.len())
}

// The N bytes from at, where they are all there.
fn bytes_at<const N: usize>(s: &[u8], at: usize) -> Option<[u8; N]>
    ensures { MatchOption result (length s.now < at + N) (λ bytes. (at + N ≤ length s.now) × (bytes ≡ take N (drop at s.now))) }
{
    s.get(at..)?.first_chunk().copied()
}

// Whether the number in the w bytes from at is 0, as it is where they are not all there. It looks no further than the first byte
// that is not 0.
pub fn is_zero(s: &[u8], at: usize, w: usize) -> bool
    ensures { result ≡ eqb (field s.now at w) 0 }
{
    !inside(s.len(), at, w) || s[at..at + w].iter().all(|&byte| byte == 0)
}

// A number of two bytes that are there, for the walk of a list, whose length has been tested.
pub fn word(s: &[u8], at: usize) -> u16
    requires { at + 2 ≤ length s.now }
    ensures { result ≡ field s.now at 2 }
{
    u16::from_le_bytes([s[at], s[at + 1]])
}

pub fn read_u16(s: &[u8], at: usize) -> u16
    ensures { result ≡ field s.now at 2 }
{
    bytes_at(s, at).map_or(0, u16::from_le_bytes)
}

pub fn read_u32(s: &[u8], at: usize) -> u32
    ensures { result ≡ field s.now at 4 }
{
    bytes_at(s, at).map_or(0, u32::from_le_bytes)
}

pub fn read_u64(s: &[u8], at: usize) -> u64
    ensures { result ≡ field s.now at 8 }
{
    bytes_at(s, at).map_or(0, u64::from_le_bytes)
}

// A GUID is two numbers: a length of its own would be no plainer.
pub fn read_guid(s: &[u8], at: usize) -> Guid
    ensures { result ≡ guid_at s.now at }
{
    if inside(s.len(), at, 8) {
        Guid {
            low: read_u64(s, at),
            high: read_u64(s, at + 8),
        }
    } else {
        Guid::NIL
    }
}

pub fn write_u16(buf: &mut [u8], at: usize, n: u16)
    ensures { buf.new ≡ written buf.old at (encode 2 n) }
{
    copy(buf, at, &n.to_le_bytes());
}

pub fn write_u32(buf: &mut [u8], at: usize, n: u32)
    ensures { buf.new ≡ written buf.old at (encode 4 n) }
{
    copy(buf, at, &n.to_le_bytes());
}

pub fn write_u64(buf: &mut [u8], at: usize, n: u64)
    ensures { buf.new ≡ written buf.old at (encode 8 n) }
{
    copy(buf, at, &n.to_le_bytes());
}

pub fn write_guid(buf: &mut [u8], at: usize, g: Guid)
    ensures { buf.new ≡ written buf.old at (guid_bytes g) }
{
    if inside(buf.len(), at, 16) {
        write_u64(buf, at, g.low);
        write_u64(buf, at + 8, g.high);
    }
}

// Writes n zeros from at, and keeps the rest.
pub fn fill(buf: &mut [u8], at: usize, n: usize)
    ensures { buf.new ≡ written buf.old at (zeros n) }
{
    if inside(buf.len(), at, n) {
        buf[at..at + n].fill(0);
    }
}

// Writes the bytes of src from at, and keeps the rest: nothing where the bytes do not fit.
pub fn copy(buf: &mut [u8], at: usize, src: &[u8])
    ensures { buf.new ≡ written buf.old at src.now }
{
    if inside(buf.len(), at, src.len()) {
        // Not by the library's copy of slices, which is C's memmove: the archive for C needs no such name from outside.
        for k in 0..src.len() {
            buf[at + k] = src[k];
        }
    }
}
