//! The ground actions of a well-typed pair.
#![tactic(auto)]

mod actions;
mod counting;
mod instances;
mod literals;

pub use actions::ground_actions;
