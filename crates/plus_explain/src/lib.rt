//! What a person reads beside the answer: the commands, the place in a text that a verdict line names, and the line that
//! stands there, with a mark. And what it takes to know it: a shelf that keeps what is read through it, and a sink that keeps
//! the end of what it takes.
#![tactic(auto)]

pub mod commands;
pub mod ending;
pub mod kept;
pub mod marked;
pub mod named;
pub mod place;
pub mod reasons;

pub use commands::{append_commands, word_for};
pub use ending::Ending;
pub use kept::Kept;
pub use marked::append_marked;
pub use named::{Bytes, Named};
pub use place::Place;
pub use reasons::{append_place, append_reasons};
