// The table of live entries: an array of 8,192 words and a store of 8,192 bytes, both lent by the caller.
#![tactic(auto)]

pub mod find;
