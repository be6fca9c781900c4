// Every place that is answered lies inside the bytes that it is a place of, and no length passes them: statements (specs/) and their proofs (proofs/). There is no code here.
#![tactic(auto)]
