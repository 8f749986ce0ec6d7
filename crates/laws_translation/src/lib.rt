//! Laws of the translation into steps: its text reads back, is as deep and as well typed as it should be, and has the plans of the
//! pair that it was made from.
#![tactic(auto)]

pub mod depth;
pub mod plans;
pub mod read;
pub mod runs;
pub mod same;
pub mod text;
pub mod typed;
