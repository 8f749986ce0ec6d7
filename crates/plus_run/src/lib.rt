//! The public call `run`: it carries out the command that the words mean, and what its answer tells is proved.
#![tactic(auto)]

pub mod command;
pub mod laws;
mod numeric;
mod replies;
pub mod run;
mod show;
