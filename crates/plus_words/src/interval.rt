//! An interval of time, as it is named on the command line.

pub mod intervals;
mod parts;

pub use intervals::Interval;
