//! What a person is told of pairs and worlds that are refused, beyond their place: which other place a fault has to do with, who
//! moves or writes a fluent, and where the documents say more. It reads tokens and no trees.
#![tactic(auto)]

pub mod declared;
pub mod guide;
pub mod hints;
pub mod literals;
pub mod plans;
pub mod told;
pub mod typing;
pub mod world;
pub mod writers;

pub use guide::append_guide;
pub use told::append_told;
pub use writers::append_written;
