//! The lines that tell what is found of constraints, and which limit one of them meets.
#![tactic(auto)]

pub mod found;
pub mod limit;
mod line;
