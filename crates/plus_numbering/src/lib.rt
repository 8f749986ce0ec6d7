//! The objects of a well-typed pair by their types, the numbers and labels of its ground atoms and ground
//! fluents, and the limits of what is ground: counts and literals, tested before anything is built.
#![tactic(auto)]

pub mod counting;
mod extents;
pub mod faults;
pub mod fitting;
mod held;
mod labels;
pub mod limits;
pub mod numbering;
mod numbers;
pub mod sizes;
mod starts;

pub use counting::{MOST_NODES, is_small, within};
pub use faults::GroundFault;
pub use fitting::{fit, schema_fits};
pub use numbering::Numbering;
