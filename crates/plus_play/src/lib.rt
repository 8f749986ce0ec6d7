//! Plays the lines of a plan text, whoever plays them: as its pieces come, from a file or from memory.
#![tactic(auto)]

mod feed;
mod file;
mod plays;

pub use file::{Pause, play_bytes, play_file};
pub use plays::Plays;
