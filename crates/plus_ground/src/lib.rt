//! The ground problem of a well-typed pair, and the ground action that a call names.
#![tactic(auto)]

pub mod conditions;
mod effects;
pub mod environments;
mod expansion;
mod expressions;
pub mod faults;
mod initial;
mod parts;
mod rates;
pub mod schemas;
mod timed_literals;

pub use expansion::{ground, instance};
pub use faults::InstanceFault;
