//! Plans without time: a plan text, line by line as it comes, over the ground form of a pair that has no process, no
//! event and no timed literal.
#![tactic(auto)]

mod answer;
mod halt;
pub mod laws;
mod level;
mod play;
mod playing;
mod run;
mod source;
mod told;

pub use answer::{Kind, Refused, Stop};
pub use run::numeric;
pub use source::Source;
