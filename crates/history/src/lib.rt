// Document 01's history and demand 3: definitions (specs/) and the theorem over whole runs (proofs/). There is no code here.
#![tactic(auto)]
