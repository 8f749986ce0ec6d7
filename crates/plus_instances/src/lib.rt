//! The instances of the actions that a plan calls, made once and found again by their calls.
#![tactic(auto)]

mod instances;

pub use instances::{Instances, Place};
