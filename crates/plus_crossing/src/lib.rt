//! Lines along which values move at constant rates: pieces of expressions, what holds just after a
//! state, the next root of a condition, and moved states.
//!
//! `piece` visits each node of an expression once. `just_after` and `next_crossing` first look at the
//! atoms of a condition, and then take each live comparison once, with two pieces; neither moves a
//! state, and neither takes memory. `moved` copies the state once and visits each fluent once;
//! `moved_changes` visits the fluents that move. Where it is known beforehand that all stay values of the
//! type, `set_motions` sets these on their way, and they are worked where they are read.
#![tactic(auto)]

pub mod afters;
pub mod counts;
pub mod crossings;
pub mod laws;
pub mod listing;
pub mod motions;
pub mod moves;
pub mod node;
pub mod pieces;
pub mod rates;
pub mod roots;

pub use afters::just_after;
pub use crossings::next_crossing;
pub use listing::{RootsStop, roots_into};
pub use motions::{extent, may_drift, set_motions};
pub use moves::{MoveStop, moved, moved_changes};
pub use node::{CondStop, PieceStop};
pub use pieces::{Linear, piece};
pub use rates::Rates;
