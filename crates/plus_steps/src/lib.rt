//! Plans in equal steps of time, plans without time, and the translation of the former into the latter, on ground
//! problems: definitions, their laws, and worked rows. There is no code here.
#![tactic(auto)]

pub mod laws;
pub mod rows;
