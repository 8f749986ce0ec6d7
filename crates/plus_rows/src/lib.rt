//! Rows over time, as they are drawn: their points, bars and marks, fewer where there are more than can be told apart, their
//! places on a scale, and what is said of them, with exact times and values.
#![tactic(auto)]

pub mod rows;
pub mod scale;
pub mod thinning;
pub mod titles;
pub mod words;

pub use rows::{Bar, Goal, Kind, Mark, Point, Row};
