//! Running sets of a ground PDDL+ problem: the processes that run from a state on, and their net rates.
//!
//! `holding` evaluates the condition of each process once, `net_rates` each rate of a member. `goes_on`
//! takes the condition of each process once, up to the first that differs, and takes no memory. `settle`
//! evaluates the condition of each process once in the state and twice just after it, at two rates, and
//! the rates of two sets of processes.
#![tactic(auto)]

mod choices;
pub mod confirms;
mod coupling;
pub mod laws;
pub mod net;
pub mod settling;
pub mod still;
pub mod stops;

pub use choices::holding;
pub use confirms::{first_other, goes_on};
pub use net::net_rates;
pub use settling::{Running, own_rates, settle, settle_rated};
pub use stops::{GoStop, RateStop, SettleStop};
