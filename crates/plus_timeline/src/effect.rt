//! What one action changes of a state.
ghost use Rattle.std.specs.Prelude.{OnOk, length};
ghost use Rattle.plus_state.specs.View.{action_of};
ghost use Rattle.plus_state.specs.Changes.{patched, RisesIn};
ghost use Rattle.plus_state.specs.Fits.{ActionFits};
ghost use Rattle.plus_timeline.specs.Act.{EffectTold};

use crate::stop::Stop;
use plus_number::exact::Exact;
use plus_state::changes::Changes;
use plus_state::joint_effect::joint_changes_in;
use plus_state::labels::Label;
use plus_state::outcome::{Breach, JointStop, Limit};
use plus_state::problem::Action;
use plus_state::states::State;
use plus_state::truth::holds;
use std::alloc::Global;

// Puts what the action changes in place of changes, whose memory it uses; or answers the first step that stops it.
#[inline(always)]
pub fn action_changes_in<Q: Exact>(
    changes: &mut Changes<Q>,
    alloc: Global,
    state: &State<Q>,
    action: &Action<Q>,
    line: u32,
) -> Result<(), Stop<Q>>
    requires { ActionFits (length (state.now.atoms)) (length (state.now.fluents))
        (action_of Q.value action.now) }
    ensures told { EffectTold Q.value Q.fits (action_of Q.value action.now) line state.now
        (λ _. patched state.now changes.new) result }
    ensures rises { OnOk result (RisesIn state.now changes.new) }
{
    match holds(&action.condition, state) {
        Err(overflow) => Err(Stop::Limit(Limit::Number(overflow))),
        Ok(false) => match Label::new(alloc, action.label.bytes()) {
            Ok(label) => Err(Stop::Breach(Breach::Precondition { line, label })),
            Err(_) => Err(Stop::Memory),
        },
        Ok(true) => match joint_changes_in(changes, alloc, state, &action.effects) {
            Ok(()) => Ok(()),
            Err(JointStop::Conflict(fluent)) => Err(Stop::Breach(Breach::Conflict { fluent })),
            Err(JointStop::NoValue(fluent)) => Err(Stop::Breach(Breach::NoValue { fluent })),
            Err(JointStop::Number(overflow)) => Err(Stop::Limit(Limit::Number(overflow))),
            Err(JointStop::Memory) => Err(Stop::Memory),
        },
    }
}
