//! What a plan on a grid of times is, and a bounded search for one.
#![tactic(auto)]

pub mod carrying;
pub mod deciding;
pub mod goals;
pub mod guides;
pub mod held;
pub mod laws;
pub mod listing;
pub mod places;
pub mod planner;
pub mod returning;
pub mod searching;

pub use goals::ByGoal;
pub use guides::Guide;
pub use planner::Planner;
pub use searching::Answer;
