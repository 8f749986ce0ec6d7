//! What is not met where a condition does not hold: its first member that does not hold, and its text as a person reads it.

mod member;
mod text;
mod unmet;

pub use member::first_failing;
pub use text::{append_condition, append_fraction};
pub use unmet::append_failing;
