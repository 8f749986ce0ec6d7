//! What is counted of a pair.

/// What is counted.
#[derive(Clone, Copy, Debug, PartialEq, Eq)]
pub enum Count {
    Objects,
    Atoms,
    Fluents,
    Processes,
    Events,
    Actions,
    Nodes,
}
