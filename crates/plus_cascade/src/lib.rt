//! Events of a ground PDDL+ problem that fire at one moment: rounds of a cascade.
//!
//! A round evaluates the condition of each event once, and then the effects of those that hold, once
//! each, and looks at each event that holds once in the set of those that have fired. `round` copies the
//! state besides, and `round_changes` gives what would change. `begin` and `copy` take time by the number of events.
#![tactic(auto)]

pub mod cascade;
mod firing;
pub mod laws;
pub mod rounds;

pub use cascade::{Cascade, begin};
pub use rounds::{CascadeStop, DueRound, FiredRound, due_round, round, round_changes};
