//! Plans that are accepted, refused and cut off, and events that fire exactly where they hold: each row a proved fact.
pub mod fires;
pub mod plans;
