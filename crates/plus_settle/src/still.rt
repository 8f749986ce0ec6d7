//! Conditions along rates at which nothing that they read moves, and conditions that ask the same at
//! each moment along rates.

pub mod laws;
pub mod simple;
