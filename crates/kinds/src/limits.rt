// How much a table holds.

// The lengths of the array and of the store.
pub const WORDS: usize = 8192;

pub const BYTES: usize = 8192;

// The places of each kind.
pub const EXPORTER_PLACES: usize = 16;

pub const OBJECT_PLACES: usize = 128;

pub const INTERFACE_PLACES: usize = 256;

pub const SET_PLACES: usize = 32;

// The longest binding list, and the longest snapshot, in bytes.
pub const LONGEST_LIST: usize = 2048;

pub const LONGEST_SNAPSHOT: usize = 64698;

// Clients are the numbers from 0 to this one.
pub const LAST_CLIENT: u32 = 7;
