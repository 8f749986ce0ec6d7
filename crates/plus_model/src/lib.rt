//! What PDDL+ means: ground terms, states, joint effects, histories, and their laws.
#![tactic(auto)]

pub mod laws;
