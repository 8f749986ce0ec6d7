//! A refused plan that is played again, up to its refusal, for what a person is told of it: which member of an action's
//! condition or of the goal does not hold, or what is wrong with the arguments of a call. And what the pair tells where it is not played: of
//! what there are too many, and how many lists a search has.
#![tactic(auto)]

mod call;
mod counts;
mod operands;
mod replay;
mod same;
mod search;
pub mod unmet;

pub use counts::{Largest, largest_of};
pub use operands::append_operands;
pub use replay::append_unmet;
pub use same::{failing_same, failing_same_in_goal};
pub use search::append_search;
