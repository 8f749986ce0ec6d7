//! Graphs of numbered nodes: strong components, and the edges by which a search meets nodes.
//!
//! No clause says what these searches answer: who asks tries the answer, and rests on what has passed.
#![tactic(auto)]

mod cells;
pub mod graph;
pub mod search;
pub mod strong;

pub use graph::Graph;
pub use search::entered_by;
pub use strong::components;
