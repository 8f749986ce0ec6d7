//! The guide of a search.
ghost use Rattle.std.specs.Prelude.{length};
ghost use Rattle.plus_state.specs.Fits.{StateFits};

use plus_number::exact::Exact;
use plus_state::problem::Ground;
use plus_state::states::State;

/// Orders the places of a search by the states that they lead to: the least number goes first. It is a
/// trait in place of a closure; that it may be called on every state of every problem is a rule of the
/// trait.
pub trait Guide<Q: Exact> {
    /// The number of a state of this problem, which is the one that is searched.
    fn number(&self, problem: &Ground<Q>, state: &State<Q>) -> u64
        requires { StateFits (length (problem.now.atoms.items)) (length (problem.now.fluents.items)) state.now };
}
