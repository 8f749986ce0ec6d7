//! Leaves acts of a valid plan out until no single one can go.
//!
//! A timeline is kept right behind an act, before what follows from it: whatever acts come next, what
//! happens up to there stays the same. So a try without an act is played from the timeline behind those
//! before it, and costs what comes after.
#![tactic(auto)]

pub mod acting;
pub mod acts;
pub mod laws;
pub mod playing;
pub mod reaching;
pub mod tries;
pub mod trimming;

pub use acts::TimedAction;
pub use trimming::{Trimmed, trim};
