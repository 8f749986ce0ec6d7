//! Laws of a farm of tanks: its texts spell a well-typed pair, so the answer of a trial is the judgement on the farm's plan.
#![tactic(auto)]

pub mod laws;
