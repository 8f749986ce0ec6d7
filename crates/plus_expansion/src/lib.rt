//! What a domain and a problem stand for once every variable is replaced by objects: the definitions, and
//! laws about them.
#![tactic(auto)]

pub mod counts;
pub mod laws;

pub use counts::Count;
