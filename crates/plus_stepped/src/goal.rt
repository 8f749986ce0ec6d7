//! Whether the goal holds.
ghost use Rattle.std.specs.Prelude.{◌≡◌, true, length};
ghost use Rattle.plus_model.specs.Value.{holds as truth_of};
ghost use Rattle.plus_state.specs.View.{condition_of};
ghost use Rattle.plus_state.specs.Fits.{Fits};
ghost use Rattle.plus_stepped.specs.Asked.{goal_tests};
ghost use Rattle.plus_stepped.specs.Told.{Told, TakesNoMemory};

use crate::stop::StepStop;
use plus_number::exact::Exact;
use plus_state::states::State;
use plus_state::term::Cond;
use plus_state::truth::holds;

// Whether this goal holds in the state.
pub fn reached<Q: Exact>(goal: &Cond<Q>, state: &State<Q>) -> Result<(), StepStop<Q>>
    requires { Fits (length (state.now.atoms)) (length (state.now.fluents)) (condition_of Q.value goal.now) }
    ensures told { Told Q.value Q.fits (goal_tests (condition_of Q.value goal.now) state.now)
        (λ _. truth_of (condition_of Q.value goal.now) state.now ≡ true)
        (truth_of (condition_of Q.value goal.now) state.now ≡ true → ⊥) result }
    ensures memory { TakesNoMemory result }
{
    if holds(goal, state)? {
        Ok(())
    } else {
        Err(StepStop::GoalFails)
    }
}
