//! The command `translate`: from a pair to the canonical text of one half of its translation.
#![tactic(auto)]

pub mod laws;
pub mod printer;
pub mod translate;

pub use translate::{answer, give, translated_text};
