//! The well-typed pair that two texts spell, under two names or at hand, or why they spell none.

pub mod pair;
pub mod texts;
