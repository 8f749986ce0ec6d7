//! Reads tokens, lists, uses and expressions of PDDL+: what conditions, effects and whole texts are
//! read from.

pub mod expressions;
pub mod lists;
pub mod reader;
pub mod spelled;
pub mod uses;
pub mod words;
