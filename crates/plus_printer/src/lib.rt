//! Prints domains and problems of PDDL+ in their canonical text.
//!
//! Printing is one walk over the tree; each byte is appended once.
#![tactic(auto)]

pub mod conditions;
pub mod effects;
mod expressions;
pub mod sections;
pub mod words;

pub use sections::{print_domain, print_problem};
