//! A bounded search for a plan with a cut: where the cut says that no plan goes on, nothing is tried.
#![tactic(auto)]

pub mod cuts;
pub mod cutting;
pub mod laws;
pub mod losing;
pub mod marks;
pub mod searching;

pub use cuts::{Cut, NoCut};
pub use cutting::CutPlanner;
pub use losing::Lost;
