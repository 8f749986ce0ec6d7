//! The exact bytes of reports and verdict lines.
#![tactic(auto)]

mod changes;
mod labels;
pub mod laws;
mod listed;
mod parts;
mod plans;
pub mod put;
mod refusals;
mod status;
mod verdicts;

pub use parts::{
    write_act, write_act_changes, write_entry, write_entry_changes, write_literals,
    write_literals_changes, write_round, write_round_changes, write_run,
};
pub use plans::write_plan;
pub use refusals::{Early, Kinds, Text, Word, write_early};
pub use status::Status;
pub use verdicts::{Verdict, put_operation, write_verdict};
