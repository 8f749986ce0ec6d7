//! The command `plan`: from a pair to a plan of it on a grid of times, or to the line that says why there is none.
#![tactic(auto)]

pub mod laws;
pub mod plan;
pub mod planning;

pub use plan::{Search, answer};
