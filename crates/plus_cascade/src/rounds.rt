//! One round of a cascade.
ghost use Rattle.std.specs.Prelude.{◌≡◌, length, IfOk, IfSome};
ghost use Rattle.plus_state.specs.View.{problem_of};
ghost use Rattle.plus_state.specs.Fits.{StateFits};
ghost use Rattle.plus_model.specs.Firing.{firing as firing_of};
ghost use Rattle.plus_state.specs.Asked.{AllFit};
ghost use Rattle.plus_state.specs.Changes.{RisesIn};
ghost use Rattle.plus_state.specs.Numbers.{event_numbers};
ghost use Rattle.plus_state.specs.Walk.{event_conditions};
ghost use Rattle.plus_state.specs.Looked.{events_looked, AreKnown};
ghost use Rattle.plus_cascade.specs.Steps.{condition_nodes};
ghost use Rattle.plus_cascade.specs.Rounds.{Rounds, RoundChanges, if_due, of_joint, set_after};

use crate::cascade::Cascade;
use crate::firing::{changed_together_in, firing};
use plus_number::exact::Exact;
use plus_state::changes::Changes;
use plus_state::looked::Looked;
use plus_state::outcome::JointStop;
use plus_state::problem::Ground;
use plus_state::states::State;
use plus_state::term::{EventId, FluentId, Overflow};
use std::alloc::Global;
use std::fmt::Debug;
use thiserror::Error;

/// Why a round cannot be had.
#[derive(Debug, Drop, Error)]
#[error_bound(Q: Debug)]
pub enum CascadeStop<Q> {
    /// The event holds and has fired in this cascade.
    #[error("event {} would fire twice", .0.0)]
    Repeats(EventId),
    /// Two writes on the fluent do not go together.
    #[error("writes on fluent {} conflict", .0.0)]
    Conflict(FluentId),
    /// An amount or a value that a write on the fluent needs is missing.
    #[error("a write on fluent {} lacks a value", .0.0)]
    NoValue(FluentId),
    #[error(transparent)]
    Number(Overflow<Q>),
    #[error("out of memory")]
    Memory,
}

/// A round: the events that fired together, in ground order, and the state after them.
#[derive(Drop)]
pub struct FiredRound<Q: Exact> {
    pub events: Vec<EventId>,
    pub after: State<Q>,
}

/// A round that is not made yet: the events that fire together, in ground order, and what they change.
#[derive(Drop)]
pub struct DueRound<Q: Exact> {
    pub events: Vec<EventId>,
    pub changes: Changes<Q>,
}

impl<Q: Exact> DueRound<Q> {
    /// A round of no events, which changes nothing. It takes no memory.
    pub fn none(alloc: Global) -> DueRound<Q> {
        DueRound {
            events: Vec::new(alloc),
            changes: Changes::none(alloc),
        }
    }
}

fn joint_stop<Q: Exact>(stop: JointStop<Q>) -> CascadeStop<Q>
    ensures { result ≡ of_joint stop }
{
    match stop {
        JointStop::Conflict(fluent) => CascadeStop::Conflict(fluent),
        JointStop::NoValue(fluent) => CascadeStop::NoValue(fluent),
        JointStop::Number(overflow) => CascadeStop::Number(overflow),
        JointStop::Memory => CascadeStop::Memory,
    }
}

// Whether the round is due whose events are all that hold: whether there are any. Then what they change
// together stands in it too, in place of other changes. After a refusal the changes are not to be used.
#[inline(always)]
fn fire<Q: Exact>(
    alloc: Global,
    cascade: &Cascade,
    ground: &Ground<Q>,
    state: &State<Q>,
    round: &mut DueRound<Q>,
) -> Result<bool, CascadeStop<Q>>
    requires state { StateFits (length (ground.now.atoms.items)) (length (ground.now.fluents.items)) state.now }
    requires events { length cascade.now ≡ length (ground.now.events.items) }
    requires pass { AllFit Q.fits (condition_nodes ((problem_of Q.value ground.now).events) state.now) }
    requires all { event_numbers round.old.events.items ≡ firing_of (problem_of Q.value ground.now) state.now }
    ensures told { RoundChanges Q.value Q.fits (problem_of Q.value ground.now) cascade.now state.now (if_due round.new result) }
    ensures rises { IfOk (if_due round.new result) (λ o. IfSome o (λ r. RisesIn state.now r.changes)) }
{
    if round.events.is_empty() {
        return Ok(false);
    }
    match cascade.first_fired(&round.events) {
        Some(event) => Err(CascadeStop::Repeats(event)),
        None => match changed_together_in(&mut round.changes, alloc, ground, &round.events, state) {
            Err(stop) => Err(joint_stop(stop)),
            Ok(()) => Ok(true),
        },
    }
}

/// The round that is due: all events that hold in the state fire together, as one joint effect. None
/// exactly where no event holds. The refusal is the first step that stops: the conditions of all events
/// in ground order, then whether one that holds has fired, then the joint effect. Neither the state nor
/// the set is changed.
pub fn round_changes<Q: Exact>(
    alloc: Global,
    cascade: &Cascade,
    ground: &Ground<Q>,
    state: &State<Q>,
) -> Result<Option<DueRound<Q>>, CascadeStop<Q>>
    requires state { StateFits (length (ground.now.atoms.items)) (length (ground.now.fluents.items)) state.now }
    requires events { length cascade.now ≡ length (ground.now.events.items) }
    ensures told { RoundChanges Q.value Q.fits (problem_of Q.value ground.now) cascade.now state.now result }
    ensures rises { IfOk result (λ o. IfSome o (λ r. RisesIn state.now r.changes)) }
{
    let mut round = DueRound::none(alloc);
    match due_round(
        alloc,
        cascade,
        ground,
        state,
        Looked::all(ground),
        &mut round,
    ) {
        Err(stop) => Err(stop),
        Ok(true) => Ok(Some(round)),
        Ok(false) => Ok(None),
    }
}

/// Whether a round is due, by a look at some of the events: of all others it is known that they do not hold
/// and that what they ask passes. Then the round stands in what was lent, in place of another one, whose
/// memory it takes. But for want of memory the answer is that of `round_changes`, whatever was lent. Where no
/// round is due, and after a refusal, what stands there tells nothing.
pub fn due_round<Q: Exact>(
    alloc: Global,
    cascade: &Cascade,
    ground: &Ground<Q>,
    state: &State<Q>,
    looked: Looked<'_, EventId>,
    round: &mut DueRound<Q>,
) -> Result<bool, CascadeStop<Q>>
    requires state { StateFits (length (ground.now.atoms.items)) (length (ground.now.fluents.items)) state.now }
    requires events { length cascade.now ≡ length (ground.now.events.items) }
    requires known { AreKnown Q.fits (event_conditions (problem_of Q.value ground.now)) state.now (events_looked looked) }
    ensures told { RoundChanges Q.value Q.fits (problem_of Q.value ground.now) cascade.now state.now (if_due round.new result) }
    ensures rises { IfOk (if_due round.new result) (λ o. IfSome o (λ r. RisesIn state.now r.changes)) }
{
    match firing(ground, state, looked, &mut round.events) {
        Err(stop) => Err(stop),
        Ok(()) => fire(alloc, cascade, ground, state, round),
    }
}

/// All events that hold in the state fire together, as one joint effect, and join the set. None exactly
/// where no event holds. The refusal is the first step that stops: the conditions of all events in
/// ground order, then whether one that holds has fired, then the joint effect.
pub fn round<Q: Exact>(
    alloc: Global,
    cascade: &mut Cascade,
    ground: &Ground<Q>,
    state: &State<Q>,
) -> Result<Option<FiredRound<Q>>, CascadeStop<Q>>
    requires state { StateFits (length (ground.now.atoms.items)) (length (ground.now.fluents.items)) state.now }
    requires events { length cascade.old ≡ length (ground.now.events.items) }
    ensures told { Rounds Q.value Q.fits (problem_of Q.value ground.now) cascade.old state.now result }
    ensures set { cascade.new ≡ set_after cascade.old result }
    ensures size { length cascade.new ≡ length cascade.old }
    ensures fits { IfOk result (λ o. IfSome o (λ r. StateFits (length (ground.now.atoms.items)) (length (ground.now.fluents.items)) r.after)) }
{
    match round_changes(alloc, cascade, ground, state)? {
        None => Ok(None),
        Some(due) => match state.copy(alloc) {
            Err(_) => Err(CascadeStop::Memory),
            Ok(mut after) => {
                after.patch(&due.changes);
                cascade.add(&due.events);
                Ok(Some(FiredRound {
                    events: due.events,
                    after,
                }))
            }
        },
    }
}
