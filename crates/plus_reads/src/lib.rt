//! What conditions read, and who reads what: an index of the events and of the processes of a ground
//! PDDL+ problem by the atoms and the fluents that their conditions name.
//!
//! A condition that names nothing that a step changes is as it was: its truth, and each test that it
//! asks. So after a step only the readers of what it changes need be looked at (`touched`).
//! The index is made in one pass over all conditions; it holds a number for each name in them.
#![tactic(auto)]

pub mod index;
pub mod laws;
pub mod names;
pub mod readers;
pub mod table;
pub mod touched;

pub use index::Index;
pub use readers::Readers;
