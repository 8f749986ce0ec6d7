//! The ground actions of a pair.

ghost use Rattle.std.specs.Prelude.{◌≡◌, ◌≤◌, map, length, IfOk, MatchResult};
ghost use Rattle.plus_state.specs.View.{action_of};
ghost use Rattle.plus_actions.specs.Actions.{ground_actions, IsGroundable, RefusesActions, AllFit};

use crate::counting::within;
use crate::instances::actions;
use crate::literals::fit;
use plus_literal::FromParts;
use plus_numbering::{GroundFault, Numbering};
use plus_state::Action;
use plus_types::File;
use std::alloc::Global;

// Tests that the ground actions are inside the limits, and that the literals of the actions are values of
// the type of numbers.
fn test<Q: FromParts>(numbering: &Numbering) -> Result<(), GroundFault>
    ensures { MatchResult result
        (λ _. IsGroundable Q.fits numbering.now.typed.now.domain numbering.now.typed.now.problem)
        (RefusesActions Q.fits numbering.now.typed.now.domain numbering.now.typed.now.problem) }
{
    within(numbering)?;
    match fit::<Q>(numbering.typed.domain().actions.as_slice()) {
        Ok(()) => Ok(()),
        Err(span) => Err(GroundFault::Literal {
            file: File::Domain,
            span,
        }),
    }
}

/// The ground actions of a pair: action by action, the instances that its calls with objects of the types
/// of its parameters name, the first parameter changing slowest. `TooMany` comes where there are more
/// than 10,000 of them, else where they have more than 1,000,000 nodes together; then `Literal` at the
/// first literal of the actions that is no value of the type of numbers.
pub fn ground_actions<Q: FromParts>(
    alloc: Global,
    numbering: &Numbering,
) -> Result<Vec<Action<Q>>, GroundFault>
    ensures are { IfOk result (λ actions. map (action_of Q.value) actions.items
        ≡ ground_actions numbering.now.typed.now.domain numbering.now.typed.now.problem) }
    ensures fit { IfOk result (λ actions. AllFit numbering.now.typed.now.domain numbering.now.typed.now.problem
        (map (action_of Q.value) actions.items)) }
    ensures few { IfOk result (λ actions. length actions.items ≤ 10000) }
    ensures limits { MatchResult result
        (λ _. IsGroundable Q.fits numbering.now.typed.now.domain numbering.now.typed.now.problem)
        (RefusesActions Q.fits numbering.now.typed.now.domain numbering.now.typed.now.problem) }
{
    test::<Q>(numbering)?;
    let schemas = numbering.typed.domain().actions.as_slice();
    Ok(actions(alloc, numbering, schemas)?)
}
