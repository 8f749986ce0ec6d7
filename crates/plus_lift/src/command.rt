//! The command `lift`: from an untimed plan of the translation of a pair to a timed plan of the pair, with the verdict on it.

mod again;
mod calls;
pub mod laws;
pub mod lift;

pub use lift::answer;
