//! Exact fractions of bounded size: the trait `Exact` and the two types that meet it.
#![tactic(auto)]

pub mod consts;
pub mod divisor;
pub mod exact;
pub mod frac;
pub mod ticks;
pub mod widening;

pub use exact::{Exact, Outside};
pub use frac::Frac64;
pub use ticks::Ticks;
pub use widening::widen;
