//! All constraints, as a history grows by a part.
ghost use Rattle.std.specs.Prelude.{◌≡◌, ◌<◌, ◌^◌, length, slice_get, set};
ghost use Rattle.std.specs.List.{All};
ghost use Rattle.plus_fraction.specs.Fraction.{◌-ℚ◌};
ghost use Rattle.plus_state.specs.View.{condition_of};
ghost use Rattle.plus_state.specs.Fits.{Fits, comparisons};
ghost use Rattle.plus_watch.specs.Looks.{moment_looks};
ghost use Rattle.plus_watch.specs.Watched.{both_looks, ending_looks, constraints_of, places_of, WatchTold, Numbered, is_open};

use crate::place::{Place, WatchStop};
use crate::watched::{Watched, at_ending, in_both, in_moment};
use plus_crossing::node::CondStop;
use plus_crossing::rates::Rates;
use plus_number::exact::Exact;
use plus_state::states::State;
use std::alloc::Global;
use std::fmt::Debug;
use thiserror::Error;

/// Why constraints cannot be watched.
#[derive(Clone, Copy, Debug, Error)]
#[error_bound(Q: Debug)]
pub enum WatchHalt<Q> {
    /// The condition of the constraint at this place in the list meets a limit.
    #[error("{1} in the constraint at {0}")]
    Limit(usize, CondStop<Q>),
    #[error("out of memory")]
    Memory,
}

// What the constraint at this place in the list tells.
fn numbered<Q: Exact>(
    index: usize,
    told: Result<Option<Place<Q>>, WatchStop<Q>>,
) -> Result<Option<Place<Q>>, WatchHalt<Q>>
    ensures { Numbered index told result }
{
    match told {
        Ok(place) => Ok(place),
        Err(WatchStop::Condition(stop)) => Err(WatchHalt::Limit(index, stop)),
        Err(WatchStop::Memory) => Err(WatchHalt::Memory),
    }
}

// Whether no place is known of the constraint at this place in the list.
fn is_open<Q: Exact>(firsts: &[Option<Place<Q>>], index: usize) -> bool
    requires { index < length firsts.now }
    ensures { result ≡ is_open (slice_get firsts.now index) }
{
    firsts[index].is_none()
}

// Notes what is found of the constraint at this place in the list.
fn note<Q: Exact>(firsts: &mut [Option<Place<Q>>], index: usize, place: Option<Place<Q>>)
    requires { index < length firsts.now }
    ensures { firsts.new ≡ set firsts.old index place }
{
    firsts[index] = place;
}

/// Looks at each constraint that is not decided in a state at a time: the one after a round or after an action.
pub fn see<Q: Exact>(
    watched: &[Watched<Q>],
    firsts: &mut [Option<Place<Q>>],
    time: Q,
    state: &State<Q>,
) -> Result<(), WatchHalt<Q>>
    requires each { length firsts.now ≡ length watched.now }
    requires fits { All (λ w. Fits (length (state.now.atoms)) (length (state.now.fluents)) (condition_of Q.value w.cond)) watched.now }
    ensures { WatchTold Q.value Q.fits (λ c. moment_looks c.when c.condition (Q.value time) state.now)
        (constraints_of Q.value watched.now) (places_of Q.value firsts.old) (places_of Q.value firsts.new) result }
{
    'each: for (index, one) in watched.iter().enumerate() {
        if !is_open(firsts, index) {
            continue;
        }
        let place = numbered(index, in_moment(one, time, state))?;
        note(firsts, index, place);
    }
    Ok(())
}

/// Looks at each constraint that is not decided at a moment that ends no stretch: in the state on arrival, and in the one after
/// the literals of its time.
pub fn see_both<Q: Exact>(
    watched: &[Watched<Q>],
    firsts: &mut [Option<Place<Q>>],
    time: Q,
    arrival: &State<Q>,
    state: &State<Q>,
) -> Result<(), WatchHalt<Q>>
    requires each { length firsts.now ≡ length watched.now }
    requires arrival { All (λ w. Fits (length (arrival.now.atoms)) (length (arrival.now.fluents)) (condition_of Q.value w.cond)) watched.now }
    requires state { All (λ w. Fits (length (state.now.atoms)) (length (state.now.fluents)) (condition_of Q.value w.cond)) watched.now }
    ensures { WatchTold Q.value Q.fits (both_looks (Q.value time) arrival.now state.now)
        (constraints_of Q.value watched.now) (places_of Q.value firsts.old) (places_of Q.value firsts.new) result }
{
    'each: for (index, one) in watched.iter().enumerate() {
        if !is_open(firsts, index) {
            continue;
        }
        let place = numbered(index, in_both(one, time, arrival, state))?;
        note(firsts, index, place);
    }
    Ok(())
}

/// Looks at each constraint that is not decided along the stretch that a moment ends, and at the moment. The stretch began at a
/// time, in the state before, along these rates.
pub fn pass<Q: Exact>(
    alloc: Global,
    watched: &[Watched<Q>],
    firsts: &mut [Option<Place<Q>>],
    begin: Q,
    before: &State<Q>,
    rates: &Rates<Q>,
    time: Q,
    arrival: &State<Q>,
    state: &State<Q>,
) -> Result<(), WatchHalt<Q>>
    requires each { length firsts.now ≡ length watched.now }
    requires before { All (λ w. Fits (length (before.now.atoms)) (length (before.now.fluents)) (condition_of Q.value w.cond)) watched.now }
    requires arrival { All (λ w. Fits (length (arrival.now.atoms)) (length (arrival.now.fluents)) (condition_of Q.value w.cond)) watched.now }
    requires state { All (λ w. Fits (length (state.now.atoms)) (length (state.now.fluents)) (condition_of Q.value w.cond)) watched.now }
    requires rates { length rates.now ≡ length (before.now.fluents) }
    requires few { All (λ w. comparisons (condition_of Q.value w.cond) < 2 ^ 32) watched.now }
    requires passed { Q.fits (Q.value time -ℚ Q.value begin) }
    ensures { WatchTold Q.value Q.fits (ending_looks (Q.value begin) before.now rates.now (Q.value time) arrival.now state.now)
        (constraints_of Q.value watched.now) (places_of Q.value firsts.old) (places_of Q.value firsts.new) result }
{
    'each: for (index, one) in watched.iter().enumerate() {
        if !is_open(firsts, index) {
            continue;
        }
        let told = at_ending(alloc, one, begin, before, rates, time, arrival, state);
        let place = numbered(index, told)?;
        note(firsts, index, place);
    }
    Ok(())
}
