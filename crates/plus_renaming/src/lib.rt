//! Copies of trees, and events whose variables have new names.
#![tactic(auto)]

pub mod copies;
pub mod numerals;
pub mod renaming;
pub mod scope;
