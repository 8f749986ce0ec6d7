//! Laws over whole answers of the program: there is one, what was cut short begins it, where no cause of a refusal stands it is valid, what each status shows, and what `plan` writes is accepted by `check`.
#![tactic(auto)]

pub mod beginnings;
pub mod chained;
pub mod complete;
pub mod existing;
pub mod lifted;
pub mod lines;
pub mod named;
pub mod statuses;
