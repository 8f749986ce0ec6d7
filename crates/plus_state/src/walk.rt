//! Which events, or which processes, hold: a walk over those that are looked at.
ghost use Rattle.std.specs.Prelude.{◌≡◌, [], ◌∷◌, ◌++◌, length, map, IfOk, MatchResult, if◌then◌else◌};
ghost use Rattle.plus_model.specs.Value.{holds as truth_of};
ghost use Rattle.plus_model.specs.Firing.{numbers_of};
ghost use Rattle.plus_state.specs.View.{problem_of};
ghost use Rattle.plus_state.specs.Fits.{StateFits};
ghost use Rattle.plus_state.specs.Asked.{AllFit};
ghost use Rattle.plus_state.specs.Looked.{looked_numbers};
ghost use Rattle.plus_state.specs.Walk.{all_asked};
ghost use Rattle.plus_state.specs.Looked.{AreKnown, WalkStops};

use crate::looked::Looked;
use crate::problem::Ground;
use crate::states::State;
use crate::term::{Cond, EventId, Overflow, ProcessId};
use crate::truth::holds;
use plus_number::exact::Exact;
use std::alloc::AllocError;
use std::fmt::Debug;
use thiserror::Error;

/// Why it cannot be told which conditions hold.
#[derive(Debug, Drop, Error)]
#[error_bound(Q: Debug)]
pub enum WalkStop<Q> {
    #[error(transparent)]
    Number(Overflow<Q>),
    #[error("out of memory")]
    Memory,
}

/// The number of a member of a ground problem that has a condition: of an event or of a process.
pub trait Conditional: Copy {
    ghost use Rattle.std.specs.Prelude.{ℕ, ◌<◌, List, Some, slice_get, All};
    ghost use Rattle.plus_model.specs.Terms.{Condition, Problem};
    ghost use Rattle.plus_state.specs.View.{condition_of};
    ghost use Rattle.plus_state.specs.Fits.{Fits, ProblemFits};

    // the number
    ghost number: { Self → ℕ };
    // the conditions of all members
    ghost conditions: { Problem → List Condition };

    /// The member with a number.
    fn with_number(place: u32) -> Self
        ensures { number result ≡ place };

    /// How many members there are.
    fn count<Q: Exact>(ground: &Ground<Q>) -> u32
        ensures { result ≡ length (conditions (problem_of Q.value ground.now)) };

    /// The condition of the member.
    fn condition<Q: Exact>(self, ground: &Ground<Q>) -> &Cond<Q>
        requires { number self < length (conditions (problem_of Q.value ground.now)) }
        ensures { slice_get (conditions (problem_of Q.value ground.now)) (number self)
            ≡ Some (condition_of Q.value result.now) };

    // the ids in all conditions fit
    ghost conditions_fit: { (P : Problem) → ProblemFits P → All (Fits P.atoms P.fluents) (conditions P) };
}

impl Conditional for EventId {
    ghost use Rattle.plus_state.specs.Walk.{event_conditions};
    ghost use Rattle.plus_state.specs.WalkFits.{event_conditions_fit};

    ghost number = { λ e. e.0 };

    ghost conditions = { event_conditions };

    ghost conditions_fit = { event_conditions_fit };

    fn with_number(place: u32) -> EventId {
        EventId(place)
    }

    fn count<Q: Exact>(ground: &Ground<Q>) -> u32 {
        ground.events.len() as u32
    }

    fn condition<Q: Exact>(self, ground: &Ground<Q>) -> &Cond<Q> {
        &ground.events[self.0 as usize].condition
    }
}

impl Conditional for ProcessId {
    ghost use Rattle.plus_state.specs.Walk.{process_conditions};
    ghost use Rattle.plus_state.specs.WalkFits.{process_conditions_fit};

    ghost number = { λ p. p.0 };

    ghost conditions = { process_conditions };

    ghost conditions_fit = { process_conditions_fit };

    fn with_number(place: u32) -> ProcessId {
        ProcessId(place)
    }

    fn count<Q: Exact>(ground: &Ground<Q>) -> u32 {
        ground.processes.len() as u32
    }

    fn condition<Q: Exact>(self, ground: &Ground<Q>) -> &Cond<Q> {
        &ground.processes[self.0 as usize].condition
    }
}

fn append_if<I: Conditional>(found: &mut Vec<I>, member: I, holds: bool) -> Result<(), AllocError>
    ensures { IfOk result (λ _. map I.number found.new.items
        ≡ map I.number found.old.items ++ (if holds then I.number member ∷ [] else [])) }
{
    if holds {
        found.push(member)?;
    }
    Ok(())
}

/// Puts the members whose condition holds, in ground order, in place of others, whose memory it takes. Only
/// some are looked at: of all others it is known that they do not hold and that what they ask passes. The
/// refusal is the first node of the conditions of all members that is no value; or want of memory. After a
/// refusal what was lent tells nothing.
#[inline(always)]
pub fn holding_in<Q: Exact, I: Conditional>(
    ground: &Ground<Q>,
    state: &State<Q>,
    looked: Looked<'_, I>,
    found: &mut Vec<I>,
) -> Result<(), WalkStop<Q>>
    requires state { StateFits (length (ground.now.atoms.items)) (length (ground.now.fluents.items)) state.now }
    requires known { AreKnown Q.fits (I.conditions (problem_of Q.value ground.now)) state.now (looked_numbers I.number looked) }
    ensures { MatchResult result
        (λ _. AllFit Q.fits (all_asked (I.conditions (problem_of Q.value ground.now)) state.now)
        × (map I.number found.new.items ≡ numbers_of (λ c. truth_of c state.now) 0 (I.conditions (problem_of Q.value ground.now))))
        (λ stop. WalkStops Q.value Q.fits (all_asked (I.conditions (problem_of Q.value ground.now)) state.now) stop) }
{
    found.clear();
    'each: for place in 0..looked.count() {
        let member = looked.member(place);
        match holds(member.condition(ground), state) {
            Err(overflow) => return Err(WalkStop::Number(overflow)),
            Ok(truth) => match append_if(found, member, truth) {
                Err(_) => return Err(WalkStop::Memory),
                Ok(()) => {}
            },
        }
    }
    Ok(())
}
