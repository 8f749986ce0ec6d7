//! The translation of a domain and a problem in steps of one length into a pair without processes and events, for
//! planners that know no time: definitions, their laws, and worked rows. There is no code here.
#![tactic(auto)]

pub mod laws;
pub mod rows;
