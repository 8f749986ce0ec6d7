//! A plan that is judged while what happens is noted for a picture: its verdict, its rows, and when it ends.
#![tactic(auto)]

mod asked;
mod chosen;
mod collector;
mod goals;
mod moments;
mod noting;
mod seeing;
mod slots;

pub use asked::Asked;
pub use chosen::Chosen;
pub use seeing::{Scene, Seen, see};
