//! Why an answer is as it is, for a person who reads the standard error: all that the words, the texts, the pair and its plan tell of it,
//! put together and written.
#![tactic(auto)]

mod explaining;
mod lifted;
mod typed;
mod usage;
mod verdicts;

pub use explaining::explain;
