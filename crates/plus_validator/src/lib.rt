//! Checks a plan: from its bytes to the report and the verdict.
#![tactic(auto)]

mod checking;
pub mod halt;
pub mod judge;
pub mod judgement;
pub mod laws;
pub mod memory;
mod play;
pub mod playing;
mod reporting;
pub mod run;
pub mod silent;
pub mod stream;
pub mod teller;
pub mod ungrounded;

pub use checking::validate;
pub use judge::{Judged, Outcome};
