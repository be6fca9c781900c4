// The replay of a recording as definitions (specs/), with what holds of it (proofs/). No function is here.
#![tactic(auto)]

use tally::Tally;

// 0, or 1; 13; 14; 10. differs is 0 where every recorded answer equals ours, else the number of the first record that differs, from 1.
#[repr(C)]
#[derive(Clone, Copy)]
pub struct Outcome {
    pub answer: u32,
    pub differs: u32,
    pub tally: Tally,
}
