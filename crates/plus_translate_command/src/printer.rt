//! The canonical text of one half of a translation.
//!
//! All old actions of a translation share a condition and effects, which grow with the events. Here they are
//! printed once, held once, and written again for each action.

mod frame;
mod half;
mod own;
mod put;
mod shared;
mod text;
mod within;

pub use half::translated_half;
pub use text::HalfText;
