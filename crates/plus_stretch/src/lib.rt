//! What happens along a running set of a ground PDDL+ problem: time passes, and processes move numbers
//! along lines, until an event holds, the set does not go on, or the given time comes.
//!
//! `reach_in` takes the roots of the live comparisons of the events and processes that are looked at once, and tries
//! the least one. Only where nothing begins there it sorts them, and goes from one to the next below the
//! time asked for. At each it visits each fluent that moves once, and takes the condition of each event
//! that has the root twice and of each process that has it once, and of those whose conditions are not
//! simple, up to the first root at which something begins. Where many fluents move, and it is known
//! beforehand that all stay values of the type, they are only set on their way, and worked where they are
//! read: what has changed is worked once, where something begins. It copies no state: the state ahead is
//! lent, and what it answers are changes. `reach` looks at all events and all processes.
#![tactic(auto)]

pub mod arrival;
pub mod crossing;
pub mod halt;
pub mod laws;
pub mod least;
pub mod listing;
pub mod looked;
pub mod mark;
pub mod search;
pub mod soon;
pub mod sorted;

pub use arrival::{Ahead, Arrival, End};
pub use halt::Halt;
pub use search::{reach, reach_in};
pub use soon::momentless;
