//! What one action changes of a state.
ghost use Rattle.std.specs.Prelude.{IfOk, OnOk, length};
ghost use Rattle.plus_state.specs.View.{action_of};
ghost use Rattle.plus_state.specs.Changes.{patched, RisesIn};
ghost use Rattle.plus_state.specs.Fits.{ActionFits};
ghost use Rattle.plus_steps.specs.Stepped.{Does};
ghost use Rattle.plus_stepped.specs.Asked.{action_tests};
ghost use Rattle.plus_stepped.specs.Told.{Told};
ghost use Rattle.plus_stepped.specs.Never.{CannotDo};

use crate::stop::StepStop;
use plus_number::exact::Exact;
use plus_state::changes::Changes;
use plus_state::joint_effect::joint_changes_in;
use plus_state::problem::Action;
use plus_state::states::State;
use plus_state::truth::holds;
use std::alloc::Global;

// Puts what the action changes in place of changes, or answers the first test that fails.
pub fn action_changes_in<Q: Exact>(
    changes: &mut Changes<Q>,
    alloc: Global,
    state: &State<Q>,
    action: &Action<Q>,
) -> Result<(), StepStop<Q>>
    requires { ActionFits (length (state.now.atoms)) (length (state.now.fluents)) (action_of Q.value action.now) }
    ensures told { Told Q.value Q.fits (action_tests (action_of Q.value action.now) state.now)
        (λ _. Does (action_of Q.value action.now) state.now (patched state.now changes.new))
        (CannotDo (action_of Q.value action.now) state.now) result }
    ensures rises { OnOk result (RisesIn state.now changes.new) }
{
    if !holds(&action.condition, state)? {
        return Err(StepStop::Precondition);
    }
    Ok(joint_changes_in(changes, alloc, state, &action.effects)?)
}

// What the action changes, or the first test that fails.
pub fn action_changes<Q: Exact>(
    alloc: Global,
    state: &State<Q>,
    action: &Action<Q>,
) -> Result<Changes<Q>, StepStop<Q>>
    requires { ActionFits (length (state.now.atoms)) (length (state.now.fluents)) (action_of Q.value action.now) }
    ensures told { Told Q.value Q.fits (action_tests (action_of Q.value action.now) state.now)
        (λ c. Does (action_of Q.value action.now) state.now (patched state.now c))
        (CannotDo (action_of Q.value action.now) state.now) result }
    ensures rises { IfOk result (RisesIn state.now) }
{
    let mut changes = Changes::none(alloc);
    match action_changes_in(&mut changes, alloc, state, action) {
        Ok(()) => Ok(changes),
        Err(stop) => Err(stop),
    }
}
