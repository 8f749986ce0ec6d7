//! Numbers in the words of the command line: how many moments a plan may enter, how many tanks a trial has, how many decisions
//! a plan of a search may have.
#![tactic(auto)]

pub mod decisions;
pub mod happenings;
pub mod interval;
pub mod numbers;
pub mod tanks;
