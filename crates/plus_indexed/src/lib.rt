//! A timeline with an index of what reads what: a call costs what moves, what is written and their
//! readers, and not all events.
//!
//! Between calls it keeps which events and which processes need be looked at (those that wait). All
//! others are known not to hold, and what they ask is known to pass, since nothing that they read has
//! changed since they were looked at. Along a running set only the readers of what moves are looked at.
//! So the answers are those of the timeline, word for word; but the ground form that is handed in must
//! be of the problem that it was begun with.
#![tactic(auto)]

pub mod indexed;
mod kept;
mod moving;
mod settled;
pub mod stepper;
mod waiting;
mod waking;

pub use indexed::Indexed;
pub use stepper::Stepper;
