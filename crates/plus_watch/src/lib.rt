//! Constraints over all moments, watched as a history grows.
//!
//! A condition is looked at in each state of a history, and along a running set just after its beginning and at the roots of
//! its live comparisons: at finitely many places, which tell its truth at all moments.
#![tactic(auto)]

pub mod along;
pub mod laws;
pub mod look;
pub mod place;
pub mod roots;
pub mod rule;
mod stretch;
pub mod watched;
pub mod watching;
