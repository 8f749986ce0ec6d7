//! Reads domains, problems and constraints of PDDL+ from their text.
#![tactic(auto)]

pub mod constraints;
pub mod declarations;
pub mod domains;
pub mod forms;
pub mod keywords;
pub mod metric;
pub mod parts;
pub mod phrases;
pub mod problems;
pub mod reading;
pub mod schemas;

pub use reading::{read_constraints, read_domain, read_problem};
