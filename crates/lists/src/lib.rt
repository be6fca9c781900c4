// Lists, tests of their elements and distinctness: definitions and laws alone, in specs/ and proofs/.
#![tactic(auto)]
