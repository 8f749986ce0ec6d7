//! The trial: a farm of tanks as three texts that are made in memory, and the line that sums its check up.
#![tactic(auto)]

pub mod command;
mod farm;
mod summary;
mod text;

pub use farm::{domain_text, plan_text, problem_text};
pub use summary::{Summary, Word, summary_text};
