//! From a well-typed pair to what a search for a plan answers, and the lines that say so.

mod lines;
mod planning;

pub use lines::{none_line, spent_line};
pub use planning::plan;
