//! Plans without time and plans in equal steps of time, played call by call.
//!
//! A call costs what its conditions and effects read and write. `Stepped` copies the state once a call, so that a refusal
//! leaves it as it was, and each of its calls goes over all events once a round.
#![tactic(auto)]

mod effect;
mod goal;
pub mod grid;
pub mod laws;
pub mod literals;
mod moving;
pub mod numeric;
mod rounds;
pub mod stepped;
mod steps;
pub mod stop;

pub use grid::on_grid;
pub use numeric::Numeric;
pub use stepped::Stepped;
pub use stop::StepStop;
