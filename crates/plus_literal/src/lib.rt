//! Literals of texts as exact numbers.
#![tactic(auto)]

pub mod literals;

pub use literals::{FromParts, literal};
