//! A guide by the goal.
ghost use Rattle.std.specs.Prelude.{true, map, length};
ghost use Rattle.plus_state.specs.View.{condition_of};
ghost use Rattle.plus_state.specs.Tests.{joined};
ghost use Rattle.plus_state.specs.Fits.{Fits};

use crate::guides::Guide;
use plus_number::exact::Exact;
use plus_state::problem::Ground;
use plus_state::states::State;
use plus_state::term::Cond;
use plus_state::truth::holds;

/// Counts what is missing of the goal of a ground problem: the members of an `and` that do not hold, else
/// the goal itself where it does not. One whose test ends in a limit is missing too.
#[derive(Clone, Copy)]
pub struct ByGoal;

// 1 where a condition does not hold, or its test ends in a limit.
fn missing<Q: Exact>(cond: &Cond<Q>, state: &State<Q>) -> u64
    requires { Fits (length (state.now.atoms)) (length (state.now.fluents)) (condition_of Q.value cond.now) }
{
    match holds(cond, state) {
        Ok(true) => 0,
        Ok(false) => 1,
        Err(_) => 1,
    }
}

// How many of these conditions are missing.
fn count<Q: Exact>(members: &[Cond<Q>], state: &State<Q>) -> u64
    requires { Fits (length (state.now.atoms)) (length (state.now.fluents))
        (joined true (map (condition_of Q.value) members.now)) }
{
    let mut number = 0u64;
    'members: for member in members {
        number = number.saturating_add(missing(member, state));
    }
    number
}

impl<Q: Exact> Guide<Q> for ByGoal {
    fn number(&self, problem: &Ground<Q>, state: &State<Q>) -> u64 {
        match &problem.goal {
            Cond::All(members) => count(members, state),
            goal => missing(goal, state),
        }
    }
}
