// Reads the rows and sections of a snapshot into a table, tolerantly: bytes that are no snapshot may be read too.
#![tactic(auto)]

mod rows;
pub mod sections;
