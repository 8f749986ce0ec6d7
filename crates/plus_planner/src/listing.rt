//! The timed plan of what was decided.
ghost use Rattle.std.specs.Prelude.{◌≡◌, ◌++◌, List, map, slice_get, IfOk, OnOk};
ghost use Rattle.plus_state.specs.View.{action_of};
ghost use Rattle.plus_planner.specs.Listing.{TimedLabel, labelled, acts_of, Lists};

use crate::places::{Place, Taken};
use plus_number::exact::Exact;
use plus_state::problem::Action;
use plus_state::{Label, TimedPlan};
use std::alloc::{AllocError, Global};

// Lists a decision where it is an action.
fn list_one<Q: Exact>(
    alloc: Global,
    actions: &[Action<Q>],
    taken: &Taken<Q>,
    acts: &mut Vec<(Q, Label)>,
) -> Result<(), AllocError>
    ensures { OnOk result ((rest : List TimedLabel) → acts_of Q.value acts.new.items ++ rest
        ≡ acts_of Q.value acts.old.items
        ++ labelled (slice_get (map (action_of Q.value) actions.now) taken.now.decision) taken.now.timeline.now.time rest) }
{
    let number = taken.decision as usize;
    if number >= actions.len() {
        return Ok(());
    }
    let label = Label::new(alloc, actions[number].label.bytes())?;
    acts.push((taken.timeline.get().time(), label))?;
    Ok(())
}

/// The actions that were taken, each with its time, and the time after the last decision.
pub fn listed<Q: Exact>(
    alloc: Global,
    actions: &[Action<Q>],
    place: &Place<Q>,
) -> Result<TimedPlan<Q>, AllocError>
    ensures { IfOk result (λ plan. Lists Q.value (map (action_of Q.value) actions.now) place.now.start
        place.now.taken.items plan) }
{
    let mut acts = Vec::new(alloc);
    'taken: for taken in &place.taken {
        list_one(alloc, actions, taken, &mut acts)?;
    }
    Ok(TimedPlan {
        acts,
        end: place.now().time(),
    })
}
