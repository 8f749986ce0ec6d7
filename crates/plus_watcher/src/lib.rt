//! One who watches constraints while a history grows.
//!
//! It notes the first place of each constraint, or the first limit that one meets, and stops nothing. What it notes is told where all
//! that the plan asks on the way passes.
#![tactic(auto)]

pub mod laws;
pub mod rules;
pub mod watcher;
