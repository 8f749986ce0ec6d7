//! The ground actions that may be done.
ghost use Rattle.std.specs.Prelude.{◌≡◌, map, filter, OnOk, OnErr};
ghost use Rattle.plus_state.specs.View.{problem_of, action_of};
ghost use Rattle.plus_possible.specs.Possible.{may_by, may_hold as may_hold_by, possible_actions, AllFit};

use crate::possible::may_hold;
use plus_cut::marks::mark_added;
use plus_number::exact::Exact;
use plus_state::bits::Bits;
use plus_state::problem::{Action, Ground};
use plus_state::states::State;
use std::alloc::{AllocError, Global};

// Keeps the actions whose conditions may hold.
fn keep_possible<Q: Exact>(actions: &mut Vec<Action<Q>>, marks: &Bits, initial: &State<Q>)
    ensures { map (action_of Q.value) actions.new.items
        ≡ filter (λ x. may_hold_by (may_by marks.now initial.now) x.condition) (map (action_of Q.value) actions.old.items) }
{
    actions.retain(|action| may_hold(&action.condition, marks, initial));
}

/// Leaves out the actions that can never be done, and keeps the others in their order. It takes one pass over all effects and
/// timed literals, and one over the conditions of the actions.
pub fn narrow<Q: Exact>(
    alloc: Global,
    ground: &Ground<Q>,
    actions: &mut Vec<Action<Q>>,
) -> Result<(), AllocError>
    requires { AllFit (problem_of Q.value ground.now) (map (action_of Q.value) actions.old.items) }
    ensures kept { OnOk result (map (action_of Q.value) actions.new.items
        ≡ possible_actions (problem_of Q.value ground.now) (map (action_of Q.value) actions.old.items)) }
    ensures same { OnErr result (actions.new ≡ actions.old) }
{
    let mut marks = Bits::new(alloc, ground.atoms.len() as u32)?;
    mark_added(&mut marks, ground, actions);
    keep_possible(actions, &marks, &ground.initial);
    Ok(())
}
