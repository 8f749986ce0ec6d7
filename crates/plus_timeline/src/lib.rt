//! Plays a plan over a ground problem, one part of its history at a time.
#![tactic(auto)]

mod ahead;
mod copies;
mod effect;
mod entry;
pub mod laws;
mod literals;
pub mod next;
pub mod stop;
pub mod timeline;
mod undo;

pub use next::Next;
pub use stop::Stop;
pub use timeline::Timeline;
