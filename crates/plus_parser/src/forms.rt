//! Reads the conditions and effects of PDDL+: what the schemas of domains and the goals of problems
//! are made of.

pub mod conditions;
pub mod effects;
mod leaves;
