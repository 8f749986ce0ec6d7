//! The command `trim`: actions of a valid plan are left out until no single one can go.
#![tactic(auto)]

mod acts;
mod kept;
pub mod laws;
mod lines;
pub mod trim;

pub use trim::answer;
