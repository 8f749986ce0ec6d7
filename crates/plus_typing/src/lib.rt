//! When a pair is well typed, as one statement for each rule: definitions and laws alone, there is no code here.
#![tactic(auto)]

pub mod laws;
pub mod rows;
pub mod worked;
