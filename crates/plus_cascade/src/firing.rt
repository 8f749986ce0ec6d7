//! The events that hold, and what they change together.
ghost use Rattle.std.specs.Prelude.{◌≡◌, ◌<◌, length, All, IfOk, OnOk, MatchResult};
ghost use Rattle.plus_model.specs.Firing.{firing as firing_of, effects_of};
ghost use Rattle.plus_state.specs.View.{problem_of};
ghost use Rattle.plus_state.specs.Fits.{StateFits};
ghost use Rattle.plus_state.specs.Changes.{RisesIn};
ghost use Rattle.plus_state.specs.Asked.{AllFit};
ghost use Rattle.plus_state.specs.Applies.{ChangesJointly, LeavesJointly};
ghost use Rattle.plus_state.specs.Numbers.{event_numbers};
ghost use Rattle.plus_state.specs.Walk.{event_conditions};
ghost use Rattle.plus_state.specs.Looked.{events_looked, AreKnown};
ghost use Rattle.plus_cascade.specs.Steps.{condition_nodes};
ghost use Rattle.plus_cascade.specs.Rounds.{ConditionStops, of_walk};

use crate::rounds::CascadeStop;
use plus_number::exact::Exact;
use plus_state::changes::Changes;
use plus_state::joint_effect::{add_dues, changes_by, joint_changes_in};
use plus_state::looked::Looked;
use plus_state::outcome::JointStop;
use plus_state::problem::Ground;
use plus_state::states::State;
use plus_state::term::EventId;
use plus_state::walk::{WalkStop, holding_in};
use std::alloc::Global;

// The stop of a walk as that of a round.
fn walk_stop<Q: Exact>(stop: WalkStop<Q>) -> CascadeStop<Q>
    ensures { result ≡ of_walk stop }
{
    match stop {
        WalkStop::Number(overflow) => CascadeStop::Number(overflow),
        WalkStop::Memory => CascadeStop::Memory,
    }
}

// Puts the events whose condition holds, in ground order, in place of those found before, whose memory it
// takes. Only some are looked at: of all others it is known that they do not hold and that what they ask
// passes. After a refusal what is found is not to be used.
pub fn firing<Q: Exact>(
    ground: &Ground<Q>,
    state: &State<Q>,
    looked: Looked<'_, EventId>,
    found: &mut Vec<EventId>,
) -> Result<(), CascadeStop<Q>>
    requires state { StateFits (length (ground.now.atoms.items)) (length (ground.now.fluents.items)) state.now }
    requires known { AreKnown Q.fits (event_conditions (problem_of Q.value ground.now)) state.now (events_looked looked) }
    ensures { MatchResult result
        (λ _. AllFit Q.fits (condition_nodes ((problem_of Q.value ground.now).events) state.now)
        × (event_numbers found.new.items ≡ firing_of (problem_of Q.value ground.now) state.now))
        (λ stop. ConditionStops Q.value Q.fits (condition_nodes ((problem_of Q.value ground.now).events) state.now) stop) }
{
    match holding_in(ground, state, looked, found) {
        Ok(()) => Ok(()),
        Err(stop) => Err(walk_stop(stop)),
    }
}

// What all effects of these events change at once.
#[inline(always)]
pub fn changed_together<Q: Exact>(
    alloc: Global,
    ground: &Ground<Q>,
    events: &[EventId],
    state: &State<Q>,
) -> Result<Changes<Q>, JointStop<Q>>
    requires state { StateFits (length (ground.now.atoms.items)) (length (ground.now.fluents.items)) state.now }
    requires events { All (λ e. e < length (ground.now.events.items)) (event_numbers events.now) }
    ensures rises { IfOk result (RisesIn state.now) }
    ensures told { ChangesJointly Q.value Q.fits (effects_of (problem_of Q.value ground.now) (event_numbers events.now)) state.now result }
{
    let mut due = Vec::new(alloc);
    'each: for event in events {
        match add_dues(&mut due, state, &ground.events[event.0 as usize].effects) {
            Err(stop) => return Err(stop),
            Ok(()) => {}
        }
    }
    changes_by(alloc, state, &due)
}

// The same, put in place of changes, whose memory it uses. After a refusal the changes are not to be used.
#[inline(always)]
pub fn changed_together_in<Q: Exact>(
    changes: &mut Changes<Q>,
    alloc: Global,
    ground: &Ground<Q>,
    events: &[EventId],
    state: &State<Q>,
) -> Result<(), JointStop<Q>>
    requires state { StateFits (length (ground.now.atoms.items)) (length (ground.now.fluents.items)) state.now }
    requires events { All (λ e. e < length (ground.now.events.items)) (event_numbers events.now) }
    ensures rises { OnOk result (RisesIn state.now changes.new) }
    ensures told { LeavesJointly Q.value Q.fits (effects_of (problem_of Q.value ground.now) (event_numbers events.now)) state.now changes.new result }
{
    if let [only] = events {
        let event = &ground.events[only.0 as usize];
        return joint_changes_in(changes, alloc, state, &event.effects);
    }
    match changed_together(alloc, ground, events, state) {
        Err(stop) => Err(stop),
        Ok(found) => {
            *changes = found;
            Ok(())
        }
    }
}
