//! The command `trial`: the check of a farm of tanks that is made in memory, in one line.

pub mod laws;
mod trial;

pub use trial::answer;
