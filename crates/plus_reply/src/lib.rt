//! How a run ends, and what a command replies: a text, and the status that goes with it.
#![tactic(auto)]

pub mod canonical;
pub mod pair;
pub mod reply;
pub mod status;
