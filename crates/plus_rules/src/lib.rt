//! The constraints of a text beside a well-typed pair: what they stand for, or what is wrong with them first.
#![tactic(auto)]

pub mod faults;
pub mod laws;
mod numbers;
pub mod preparation;
mod sizes;
mod typing;

pub use faults::WatchFault;
pub use preparation::prepare;
