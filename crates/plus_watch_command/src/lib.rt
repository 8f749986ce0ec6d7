//! The command `watch`: a plan that is played while constraints are watched, and the lines that tell what is found.
#![tactic(auto)]

pub mod constraints;
pub mod told;
pub mod watch;
