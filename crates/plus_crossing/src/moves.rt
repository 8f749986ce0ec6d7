//! Moved states.
ghost use Rattle.std.specs.Prelude.{◌≡◌, ◌<◌, [], ◌++◌, length, option_map, slice_set, IfOk, OnOk, MatchResult};
ghost use Rattle.plus_fraction.specs.Fraction.{◌+ℚ◌, ◌*ℚ◌};
ghost use Rattle.plus_model.specs.Value.{fluent_of};
ghost use Rattle.plus_state.specs.Asked.{AllFit};
ghost use Rattle.plus_state.specs.Changes.{RisesIn};
ghost use Rattle.plus_state.specs.ChangesView.{fluent_changes};
ghost use Rattle.plus_state.specs.Fits.{StateFits};
ghost use Rattle.plus_state.specs.Tells.{Tells};
ghost use Rattle.plus_crossing.specs.Moves.{fluent_nodes, moved_value as moved_value_of, moved_nodes, change_if, moving_changes, MoveAnswers, MoveStops, MovesTell};

use crate::node::exact;
use crate::rates::Rates;
use plus_number::exact::Exact;
use plus_state::changes::{Changes, FluentChange};
use plus_state::evaluation::is_zero;
use plus_state::states::State;
use plus_state::term::{FluentId, Overflow, Sign};
use std::alloc::Global;
use std::fmt::Debug;
use thiserror::Error;

/// Why a moved state cannot be had.
#[derive(Clone, Copy, Debug, Error)]
#[error_bound(Q: Debug)]
pub enum MoveStop<Q> {
    #[error(transparent)]
    Number(Overflow<Q>),
    #[error("out of memory")]
    Memory,
}

// A value after so much time at this rate.
#[tactic(auto, using(crate::proofs::Moving::moving), unfolding(crate::specs::Moves::fluent_nodes))]
fn moved_value<Q: Exact>(value: Option<Q>, rate: Q, delay: Q) -> Result<Option<Q>, Overflow<Q>>
    ensures { Tells Q.value Q.fits (fluent_nodes (option_map Q.value value) (Q.value rate) (Q.value delay))
        (λ o. option_map Q.value o ≡ moved_value_of (option_map Q.value value) (Q.value rate) (Q.value delay)) result }
{
    match value {
        None => Ok(None),
        Some(now) => {
            if is_zero(rate) {
                return Ok(Some(now));
            }
            let gain = exact(Sign::Times, rate, delay, rate.mul(delay))?;
            let then = exact(Sign::Plus, now, gain, now.add(gain))?;
            Ok(Some(then))
        }
    }
}

// Moves one fluent.
#[tactic(auto, using(crate::proofs::Moving::setting))]
fn move_fluent<Q: Exact>(
    next: &mut State<Q>,
    fluent: FluentId,
    rate: Q,
    delay: Q,
) -> Result<(), Overflow<Q>>
    requires { fluent.0 < length (next.old.fluents) }
    ensures { Tells Q.value Q.fits (fluent_nodes (fluent_of next.old fluent.0) (Q.value rate) (Q.value delay))
        (λ _. next.new ≡ record next.old { fluents = slice_set next.old.fluents fluent.0 (moved_value_of (fluent_of next.old fluent.0) (Q.value rate) (Q.value delay)) }) result }
{
    let value = moved_value(next.fluent(fluent), rate, delay)?;
    next.give(fluent, value);
    Ok(())
}

/// The state after so much time at these rates. The refusal is the first node whose exact result is no
/// value of the type: fluents in ground order that have a value and a rate that is not zero, the rate
/// times the delay and then the sum; or want of memory.
pub fn moved<Q: Exact>(
    alloc: Global,
    state: &State<Q>,
    rates: &Rates<Q>,
    delay: Q,
) -> Result<State<Q>, MoveStop<Q>>
    requires { length rates.now ≡ length (state.now.fluents) }
    ensures told { MoveAnswers Q.value Q.fits state.now rates.now (Q.value delay) result }
    ensures fits { IfOk result (λ next. StateFits (length state.now.atoms) (length state.now.fluents) next) }
{
    match state.copy(alloc) {
        Err(_) => Err(MoveStop::Memory),
        Ok(mut next) => {
            'each: for fluent in 0..state.fluents() {
                match move_fluent(
                    &mut next,
                    FluentId(fluent),
                    rates.get(FluentId(fluent)),
                    delay,
                ) {
                    Err(overflow) => return Err(MoveStop::Number(overflow)),
                    Ok(()) => {}
                }
            }
            Ok(next)
        }
    }
}

// Notes the value of a fluent after so much time at this rate, if it moves.
fn note<Q: Exact>(
    into: &mut Vec<FluentChange<Q>>,
    fluent: FluentId,
    now: Option<Q>,
    rate: Q,
    delay: Q,
) -> Result<(), MoveStop<Q>>
    ensures { MatchResult result
        (λ _. AllFit Q.fits (fluent_nodes (option_map Q.value now) (Q.value rate) (Q.value delay))
        × (fluent_changes Q.value into.new.items ≡ fluent_changes Q.value into.old.items ++ change_if fluent.0 (option_map Q.value now) (Q.value rate) (Q.value delay)))
        (λ stop. MoveStops Q.value Q.fits (fluent_nodes (option_map Q.value now) (Q.value rate) (Q.value delay)) stop) }
{
    if is_zero(rate) {
        return Ok(());
    }
    match moved_value(now, rate, delay) {
        Err(overflow) => Err(MoveStop::Number(overflow)),
        Ok(value) => match into.push(FluentChange { fluent, value }) {
            Err(_) => Err(MoveStop::Memory),
            Ok(()) => Ok(()),
        },
    }
}

// Puts the values of the fluents that move, after so much time at these rates, in place of others.
#[inline(always)]
fn moved_fluents<Q: Exact>(
    state: &State<Q>,
    rates: &Rates<Q>,
    delay: Q,
    fluents: &mut Vec<FluentChange<Q>>,
) -> Result<(), MoveStop<Q>>
    requires { length rates.now ≡ length (state.now.fluents) }
    ensures { MatchResult result
        (λ _. AllFit Q.fits (moved_nodes state.now.fluents rates.now (Q.value delay))
        × (fluent_changes Q.value fluents.new.items ≡ moving_changes 0 state.now.fluents rates.now (Q.value delay)))
        (λ stop. MoveStops Q.value Q.fits (moved_nodes state.now.fluents rates.now (Q.value delay)) stop) }
{
    fluents.clear();
    let given = rates.given();
    'each: for entry in given {
        let fluent = FluentId(entry.0);
        match note(fluents, fluent, state.fluent(fluent), entry.1, delay) {
            Err(stop) => return Err(stop),
            Ok(()) => {}
        }
    }
    Ok(())
}

/// Puts what so much time at these rates changes in place of other changes, whose memory it takes: the
/// values of the fluents that move, by their numbers. It leads there also from the state after any other
/// time at these rates. The refusal is that of `moved`. No fluent that stands still is visited.
#[inline(always)]
pub fn moved_changes<Q: Exact>(
    state: &State<Q>,
    rates: &Rates<Q>,
    delay: Q,
    changes: &mut Changes<Q>,
) -> Result<(), MoveStop<Q>>
    requires { length rates.now ≡ length (state.now.fluents) }
    ensures told { MovesTell Q.value Q.fits state.now rates.now (Q.value delay) changes.new result }
    ensures rises { OnOk result (RisesIn state.now changes.new) }
    ensures fluents { OnOk result (changes.new.atoms ≡ []) }
{
    changes.atoms.clear();
    moved_fluents(state, rates, delay, &mut changes.fluents)
}
