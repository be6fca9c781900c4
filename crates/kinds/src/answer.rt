// The answer numbers (document 01, "Answer numbers").

pub const DONE: u32 = 0;

// A lent table has the wrong length or is not sound.
pub const UNSOUND: u32 = 1;

// The new clock is below the table's clock.
pub const CLOCK_BACK: u32 = 2;

// An identifier to be entered is zero or already live.
pub const BAD_IDENTIFIER: u32 = 3;

pub const NO_EXPORTER: u32 = 4;

pub const NO_OBJECT: u32 = 5;

pub const NO_INTERFACE: u32 = 6;

// An entry with zero references.
pub const NO_REFERENCES: u32 = 7;

// A count would pass 4,294,967,295.
pub const COUNT_OVERFLOW: u32 = 8;

// No free place of a kind that is needed, or no room for a list in the store.
pub const NO_PLACE: u32 = 9;

// A list of more identifiers, items or protocols than MOST_LISTED.
pub const TOO_MANY: u32 = 10;

pub const MOST_LISTED: usize = 65535;

pub const NO_SET: u32 = 11;

// A stale sequence number.
pub const STALE: u32 = 12;

// The bytes end before a field does.
pub const SHORT: u32 = 13;

// A layout rule is broken.
pub const LAYOUT: u32 = 14;

// The output buffer is too short.
pub const NO_ROOM: u32 = 15;

// A version that is not understood.
pub const VERSION: u32 = 16;

// The set numbers are used up.
pub const SETS_USED_UP: u32 = 18;

// A binding list of more than 2,048 bytes.
pub const LONG_LIST: u32 = 19;

// The client is none of 0 to 7.
pub const NO_CLIENT: u32 = 20;

// References nested deeper than 8.
pub const TOO_DEEP: u32 = 21;

// An OXID, OID or IPID of a reference is zero.
pub const NIL_IDENTIFIER: u32 = 22;

// Bytes that are the snapshot of no sound table.
pub const NO_SNAPSHOT: u32 = 23;

// A list has no binding of the number asked for.
pub const NO_BINDING: u32 = 24;
