//! Worked rows, each a proved fact: they show that the definitions say what they are meant to say.
#![tactic(auto)]

pub mod accepted;
pub mod expansion;
pub mod model;
pub mod reports;
pub mod tested;
pub mod texts;
pub mod time;
pub mod walk;
pub mod watched;
