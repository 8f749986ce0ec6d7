//! The timed plan that an untimed plan of a translation leaves.
//!
//! Rounds of events are dropped, each step counts, and each other call has the time of the steps before it.
#![tactic(auto)]

pub mod command;
pub mod fault;
pub mod lifting;
mod line;

pub use fault::LiftFault;
pub use lifting::lift;
pub use line::overflow_line;
