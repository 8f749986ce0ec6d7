//! Constraints that are watched while a plan is played.
#![tactic(auto)]

pub mod findings;
pub mod telling;
