//! Worked rows of the definitions of `plus_model`, each a proved fact: values, joint effects, time, histories, breaches.
//! They show that the definitions say what they are meant to say, clause by clause.

pub mod breaches;
pub mod histories;
pub mod terms;
pub mod times;
