//! Which domains and problems are well typed.
#![tactic(auto)]

pub mod conditions;
mod declarations;
pub mod effects;
pub mod faults;
mod initial;
mod jumps;
pub mod kinds;
pub mod known;
mod loops;
pub mod names;
mod schemas;
pub mod typed;
pub mod types;
mod uses;

pub use faults::{File, TypeFault, Wrong};
pub use kinds::Kinds;
pub use names::Names;
pub use typed::{Typed, check};
pub use types::Types;
