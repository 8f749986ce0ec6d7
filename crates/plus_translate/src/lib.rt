//! The translation of a pair in steps of one length into a pair without processes and events.
//!
//! `translate` gives the trees of the definition, or refuses: a name of the pair begins as those that the
//! translation adds, a timed literal is no whole number of steps away, or the text would nest too deep.
#![tactic(auto)]

pub mod atoms;
pub mod depth;
pub mod domain;
pub mod due;
pub mod fault;
mod fires;
mod flows;
pub mod found;
mod grid;
pub mod guards;
mod initial;
pub mod pieces;
pub mod placed;
pub mod translation;

pub use fault::TransFault;
pub use translation::translate;
