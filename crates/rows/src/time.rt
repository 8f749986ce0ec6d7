//! Worked rows of the definitions of `plus_model`, beside those of `plus_model_rows`, each a proved fact: breaches, what
//! holds just after, histories in which time passes, and rates that read what moves.

pub mod effects;
pub mod histories;
pub mod just_after;
pub mod lines;
pub mod lists;
pub mod moments;
pub mod sets;
