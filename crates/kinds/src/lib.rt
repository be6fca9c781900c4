// The kinds of numbers that the crates share: identifiers, answer numbers, wire codes, and how much a table holds.
#![tactic(auto)]

ghost use Rattle.std.specs.Prelude.{◌≡◌};
ghost use Rattle.kinds.specs.Wire.{wire_code};

pub mod answer;
pub mod limits;
pub mod refusal;

pub use refusal::{Refusal, number};

// An exporter's number (OXID).
#[repr(C)]
#[derive(Clone, Copy, PartialEq, Eq)]
pub struct Oxid(pub u64);

// An object's number (OID).
#[repr(C)]
#[derive(Clone, Copy, PartialEq, Eq)]
pub struct Oid(pub u64);

// A ping set's number.
#[repr(C)]
#[derive(Clone, Copy, PartialEq, Eq)]
pub struct SetId(pub u64);

// A GUID, as the little-endian numbers of its first and its last eight bytes.
#[repr(C)]
#[derive(Clone, Copy, PartialEq, Eq)]
pub struct Guid {
    pub low: u64,
    pub high: u64,
}

impl Guid {
    pub const NIL: Guid = Guid { low: 0, high: 0 };
}

// The code that goes out on the wire for an answer number: an HRESULT or an error code.
pub fn wire_code(number: u32) -> u32
    ensures { result ≡ wire_code number }
{
    match number {
        0 | 12 => 0,
        4 => 1910,
        5 => 1911,
        6 => 0x800401FB,
        11 => 1912,
        16 => 0x80010110,
        1..=3 | 7..=10 | 13..=15 | 17..=0xFFFFFFFF => 0x80004005,
    }
}
