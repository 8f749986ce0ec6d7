//! Actions that can never be done are left out of a search, which answers for all.
#![tactic(auto)]

pub mod laws;
pub mod narrowing;
pub mod possible;

pub use narrowing::narrow;
