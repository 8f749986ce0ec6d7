//! What the texts of a domain, a problem and constraints spell, said without what a reader keeps on its way: definitions and laws alone, there is no code here.
#![tactic(auto)]

pub mod laws;
pub mod rows;
