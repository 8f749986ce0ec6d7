//! Fractions of any size: what they mean, and their laws.
#![tactic(auto)]

pub mod laws;
