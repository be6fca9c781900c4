// Document 01's calls as definitions and the cases of its edges (specs/), with what holds of them (proofs/). There is no code here.
#![tactic(auto)]
