// The rows of a snapshot: the order in which entries stand, and the bytes of one entry.
#![tactic(auto)]

pub mod order;
pub mod rows;

// The sections of rows, in the order of a snapshot.
#[derive(Clone, Copy)]
pub enum Section {
    Exporters,
    Objects,
    Interfaces,
    Sets,
}
