//! A constraint, and its looks at a part of a history.
ghost use Rattle.std.specs.Prelude.{◌≡◌, ◌<◌, ◌^◌, length};
ghost use Rattle.plus_fraction.specs.Fraction.{◌-ℚ◌};
ghost use Rattle.plus_state.specs.View.{condition_of};
ghost use Rattle.plus_state.specs.Fits.{Fits, StateFits, comparisons};
ghost use Rattle.plus_watch.specs.Looks.{moment_looks};
ghost use Rattle.plus_watch.specs.Told.{LooksTold};
ghost use Rattle.plus_watch.specs.View.{when_of};
ghost use Rattle.plus_watch.specs.Watched.{both_looks, ending_looks, constraint_of};

use crate::along::along;
use crate::look::in_state;
use crate::place::{Place, WatchStop};
use crate::rule::{RuleAt, is_lasting, regards};
use plus_crossing::rates::Rates;
use plus_number::exact::Exact;
use plus_state::states::State;
use plus_state::term::Cond;
use std::alloc::Global;

/// A constraint: when its condition is to hold.
#[derive(Drop)]
pub struct Watched<Q> {
    pub rule: RuleAt<Q>,
    pub cond: Cond<Q>,
}

/// Looks at a constraint in a state at a time, where the time is regarded.
pub fn in_moment<Q: Exact>(
    one: &Watched<Q>,
    time: Q,
    state: &State<Q>,
) -> Result<Option<Place<Q>>, WatchStop<Q>>
    requires fits { Fits (length (state.now.atoms)) (length (state.now.fluents)) (condition_of Q.value one.now.cond) }
    ensures { LooksTold Q.value Q.fits (moment_looks (when_of Q.value one.now.rule) (condition_of Q.value one.now.cond) (Q.value time) state.now) result }
{
    if regards(one.rule, time) {
        in_state(is_lasting(one.rule), &one.cond, time, state)
    } else {
        Ok(None)
    }
}

/// Looks at a constraint at a moment: in the state on arrival, and in the one after the literals of its time.
pub fn in_both<Q: Exact>(
    one: &Watched<Q>,
    time: Q,
    arrival: &State<Q>,
    state: &State<Q>,
) -> Result<Option<Place<Q>>, WatchStop<Q>>
    requires arrival { Fits (length (arrival.now.atoms)) (length (arrival.now.fluents)) (condition_of Q.value one.now.cond) }
    requires state { Fits (length (state.now.atoms)) (length (state.now.fluents)) (condition_of Q.value one.now.cond) }
    ensures { LooksTold Q.value Q.fits (both_looks (Q.value time) arrival.now state.now (constraint_of Q.value one.now)) result }
{
    match in_moment(one, time, arrival)? {
        Some(place) => Ok(Some(place)),
        None => in_moment(one, time, state),
    }
}

/// Looks at a constraint along the stretch that a moment ends, and at the moment. The stretch began at a time, in the state
/// before, along these rates.
pub fn at_ending<Q: Exact>(
    alloc: Global,
    one: &Watched<Q>,
    begin: Q,
    before: &State<Q>,
    rates: &Rates<Q>,
    time: Q,
    arrival: &State<Q>,
    state: &State<Q>,
) -> Result<Option<Place<Q>>, WatchStop<Q>>
    requires before { Fits (length (before.now.atoms)) (length (before.now.fluents)) (condition_of Q.value one.now.cond) }
    requires arrival { Fits (length (arrival.now.atoms)) (length (arrival.now.fluents)) (condition_of Q.value one.now.cond) }
    requires state { Fits (length (state.now.atoms)) (length (state.now.fluents)) (condition_of Q.value one.now.cond) }
    requires rates { length rates.now ≡ length (before.now.fluents) }
    requires few { comparisons (condition_of Q.value one.now.cond) < 2 ^ 32 }
    requires passed { Q.fits (Q.value time -ℚ Q.value begin) }
    ensures { LooksTold Q.value Q.fits (ending_looks (Q.value begin) before.now rates.now (Q.value time) arrival.now state.now (constraint_of Q.value one.now)) result }
{
    match along(alloc, one.rule, &one.cond, begin, before, rates, time)? {
        Some(place) => Ok(Some(place)),
        None => in_both(one, time, arrival, state),
    }
}
