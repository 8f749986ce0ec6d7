//! The events that hold just after a state.
ghost use Rattle.std.specs.Prelude.{◌≡◌, length};
ghost use Rattle.plus_state.specs.Numbers.{AreMembers};
ghost use Rattle.plus_state.specs.Looked.{events_looked};
ghost use Rattle.plus_state.specs.View.{event_of, problem_of};
ghost use Rattle.plus_state.specs.Fits.{EventFits, StateFits};
ghost use Rattle.plus_stretch.specs.After.{SoonTells, MomentlessTells, NoneSoonTold};
ghost use Rattle.plus_stretch.specs.Among.{OthersNotSoon};

use crate::halt::Halt;
use plus_crossing::afters::just_after;
use plus_crossing::node::CondStop;
use plus_crossing::rates::Rates;
use plus_number::exact::Exact;
use plus_state::looked::Looked;
use plus_state::outcome::{Limit, Owner};
use plus_state::problem::{Event, Ground};
use plus_state::states::State;
use plus_state::term::EventId;

// Whether the event holds just after the state, or the first test that fails.
fn holds_after<Q: Exact>(
    event: &Event<Q>,
    id: EventId,
    state: &State<Q>,
    rates: &Rates<Q>,
) -> Result<bool, Limit<Q>>
    requires fits { EventFits (length (state.now.atoms)) (length (state.now.fluents)) (event_of Q.value event.now) }
    requires rates { length rates.now ≡ length (state.now.fluents) }
    ensures { SoonTells Q.value Q.fits id.0 (event_of Q.value event.now) state.now rates.now result }
{
    match just_after(&event.condition, state, rates) {
        Ok(truth) => Ok(truth),
        Err(CondStop::Number(overflow)) => Err(Limit::Number(overflow)),
        Err(CondStop::Nonlinear { comparison }) => Err(Limit::Nonlinear {
            owner: Owner::Event(id),
            comparison,
        }),
    }
}

/// The first event, in ground order, that holds just after a state when the fluents move at these rates,
/// by a look at some events alone: each other one is known not to hold just after, and what it
/// asks to pass. So the refusal is the first test that fails: all events in ground order up to the first
/// that holds, of each its live comparisons.
pub fn momentless<Q: Exact>(
    ground: &Ground<Q>,
    state: &State<Q>,
    rates: &Rates<Q>,
    events: Looked<'_, EventId>,
) -> Result<Option<EventId>, Limit<Q>>
    requires state { StateFits (length (ground.now.atoms.items)) (length (ground.now.fluents.items)) state.now }
    requires rates { length rates.now ≡ length (state.now.fluents) }
    requires events { AreMembers (length (ground.now.events.items)) (events_looked events) }
    requires others { OthersNotSoon Q.fits (problem_of Q.value ground.now) state.now rates.now (events_looked events) }
    ensures { MomentlessTells Q.value Q.fits (problem_of Q.value ground.now) state.now rates.now result }
{
    'each: for place in 0..events.count() {
        let id = events.member(place);
        match holds_after(&ground.events[id.0 as usize], id, state, rates) {
            Err(limit) => return Err(limit),
            Ok(truth) => {
                if truth {
                    return Ok(Some(id));
                }
            }
        }
    }
    Ok(None)
}

// No event holds just after the state, which is reached at this time.
pub fn none_soon<Q: Exact>(
    ground: &Ground<Q>,
    state: &State<Q>,
    rates: &Rates<Q>,
    time: Q,
    events: Looked<'_, EventId>,
) -> Result<(), Halt<Q>>
    requires state { StateFits (length (ground.now.atoms.items)) (length (ground.now.fluents.items)) state.now }
    requires rates { length rates.now ≡ length (state.now.fluents) }
    requires events { AreMembers (length (ground.now.events.items)) (events_looked events) }
    requires others { OthersNotSoon Q.fits (problem_of Q.value ground.now) state.now rates.now (events_looked events) }
    ensures { NoneSoonTold Q.value Q.fits (problem_of Q.value ground.now) (Q.value time) state.now rates.now result }
{
    match momentless(ground, state, rates, events) {
        Err(limit) => Err(Halt::Limit(limit)),
        Ok(Some(event)) => Err(Halt::NoFirstMoment { event, time }),
        Ok(None) => Ok(()),
    }
}
