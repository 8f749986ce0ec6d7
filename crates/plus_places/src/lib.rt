//! Reads domains, problems and constraints, and names the place of each refusal: the first token
//! behind which no text of the grammar goes on. The grammar stands here once more, as a table; the
//! laws say that the table and the relation of `plus_parser` take the same tokens.
#![tactic(auto)]

pub mod laws;
pub mod reading;
pub mod symbols;

pub use reading::{read_constraints, read_domain, read_problem};
