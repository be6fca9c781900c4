// Which word and byte holds what.
#![tactic(auto)]

ghost use Rattle.std.specs.Prelude.{◌≡◌, ◌+◌, ◌≤◌, length, take, drop};
ghost use Rattle.table_words.specs.Kinds.{exporter_kind, object_kind, interface_kind, set_kind};

use kinds::limits::{EXPORTER_PLACES, INTERFACE_PLACES, OBJECT_PLACES, SET_PLACES};
use table_columns::rows::Kind;

// What counts and sequence numbers are below.
pub const COUNT_LIMIT: u64 = 4294967296;

pub const SEQUENCE_LIMIT: u64 = 65536;

// The seconds after which what was not heard goes: three ping periods.
pub const TIMEOUT: u64 = 360;

// Words that stand alone: the clock, the next set number, the numbers of live rows.
pub const CLOCK: usize = 0;

pub const NEXT_SET: usize = 1;

pub const EXPORTERS: usize = 2;

pub const OBJECTS: usize = 3;

pub const INTERFACES: usize = 4;

pub const SETS: usize = 5;

// Columns, by their first words.
pub const OXIDS: usize = 16;

pub const UNKNOWN_LOWS: usize = OXIDS + EXPORTER_PLACES;

pub const UNKNOWN_HIGHS: usize = UNKNOWN_LOWS + EXPORTER_PLACES;

pub const SET_NUMBERS: usize = 64;

pub const SEQUENCES: usize = SET_NUMBERS + SET_PLACES;

pub const PING_TIMES: usize = SEQUENCES + SET_PLACES;

pub const MEMBER_LOWS: usize = PING_TIMES + SET_PLACES;

pub const MEMBER_HIGHS: usize = MEMBER_LOWS + SET_PLACES;

pub const OIDS: usize = 256;

pub const OBJECT_EXPORTERS: usize = OIDS + OBJECT_PLACES;

pub const NO_PING_MARKS: usize = OBJECT_EXPORTERS + OBJECT_PLACES;

pub const HEARD_TIMES: usize = NO_PING_MARKS + OBJECT_PLACES;

pub const IPID_LOWS: usize = 768;

pub const IPID_HIGHS: usize = IPID_LOWS + INTERFACE_PLACES;

pub const IID_LOWS: usize = IPID_HIGHS + INTERFACE_PLACES;

pub const IID_HIGHS: usize = IID_LOWS + INTERFACE_PLACES;

pub const INTERFACE_OBJECTS: usize = IID_HIGHS + INTERFACE_PLACES;

// The public counts; the private ones of clients 0 to 7 follow, a column for each.
pub const COUNTS: usize = INTERFACE_OBJECTS + INTERFACE_PLACES;

pub fn exporter_kind() -> Kind
    ensures { result ≡ exporter_kind }
{
    Kind {
        base: OXIDS,
        places: EXPORTER_PLACES,
        width: 3,
    }
}

pub fn set_kind() -> Kind
    ensures { result ≡ set_kind }
{
    Kind {
        base: SET_NUMBERS,
        places: SET_PLACES,
        width: 5,
    }
}

pub fn object_kind() -> Kind
    ensures { result ≡ object_kind }
{
    Kind {
        base: OIDS,
        places: OBJECT_PLACES,
        width: 4,
    }
}

pub fn interface_kind() -> Kind
    ensures { result ≡ interface_kind }
{
    Kind {
        base: IPID_LOWS,
        places: INTERFACE_PLACES,
        width: 14,
    }
}

// The first n words of a column.
pub fn column(words: &[u64], first: usize, n: usize) -> &[u64]
    requires { first + n ≤ length words.now }
    ensures { result.now ≡ take n (drop first words.now) }
{
    let end = first + n;
    &words[first..end]
}
