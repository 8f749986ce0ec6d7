//! Draws rows over time as one text of SVG: marks, bars and lines over an axis with round ticks. Places on the page are rounded
//! to tenths of a pixel by integer arithmetic.
#![tactic(auto)]

mod axis;
mod bars;
pub mod laws;
mod lines;
mod marks;
pub mod markup;
mod page;
mod style;
mod ticks;

pub use page::{Picture, draw};
