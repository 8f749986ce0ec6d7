//! Net rates.
ghost use Rattle.std.specs.Prelude.{◌≡◌, ◌<◌, [], ◌∷◌, length, map, replicate, pos, All, OnOk, MatchResult};
ghost use Rattle.plus_fraction.specs.Fraction.{whole};
ghost use Rattle.plus_model.specs.Value.{value as value_of, fluent_of};
ghost use Rattle.plus_model.specs.Running.{rated, add_rates, rates as rates_of};
ghost use Rattle.plus_state.specs.View.{rate_of, problem_of, overflow_of};
ghost use Rattle.plus_state.specs.Fits.{RateFits, StateFits};
ghost use Rattle.plus_state.specs.Asked.{result_of, node};
ghost use Rattle.plus_settle.specs.Steps.{asks, AllPass, FirstStop};
ghost use Rattle.plus_settle.specs.Rates.{sign_of, rate_steps, add_rates_steps, rates_steps, RatesTell, NetRates, as_given};
ghost use Rattle.plus_settle.specs.Members.{process_numbers, AreMembers};

use crate::stops::RateStop;
use plus_crossing::node::exact;
use plus_crossing::rates::Rates;
use plus_number::exact::Exact;
use plus_state::evaluation::value;
use plus_state::problem::Ground;
use plus_state::states::State;
use plus_state::term::{Overflow, ProcessId, Rate, Sign};
use std::alloc::{AllocError, Global};

// The sum with this amount more, or less.
#[tactic(auto, using(crate::proofs::RatesLemmas::summing))]
fn summed<Q: Exact>(up: bool, sum: Q, amount: Q) -> Result<Q, Overflow<Q>>
    ensures { MatchResult result
        (λ z. AllPass Q.fits (asks (node (sign_of up) (Q.value sum) (Q.value amount)) ∷ [])
        × (Q.value z ≡ result_of (sign_of up) (Q.value sum) (Q.value amount)))
        (λ w. FirstStop Q.fits (asks (node (sign_of up) (Q.value sum) (Q.value amount)) ∷ [])
        (asks (overflow_of Q.value w))) }
{
    if up {
        return Ok(exact(Sign::Plus, sum, amount, sum.add(amount))?);
    }
    Ok(exact(Sign::Minus, sum, amount, sum.sub(amount))?)
}

// Adds one rate to the sums.
#[inline(always)]
#[tactic(auto, using(crate::proofs::RatesLemmas::rating))]
fn add_rate<Q: Exact>(
    rates: &mut Rates<Q>,
    rate: &Rate<Q>,
    state: &State<Q>,
) -> Result<(), RateStop<Q>>
    requires fits { RateFits (length (state.now.fluents)) (rate_of Q.value rate.now) }
    requires size { length rates.old ≡ length (state.now.fluents) }
    ensures size { length rates.new ≡ length rates.old }
    ensures told { RatesTell Q.value Q.fits (rate_steps (rate_of Q.value rate.now) state.now rates.old)
        (rated ((rate_of Q.value rate.now).fluent) ((rate_of Q.value rate.now).up)
        (value_of ((rate_of Q.value rate.now).amount) state.now)
        (fluent_of state.now ((rate_of Q.value rate.now).fluent)) rates.old) rates.new result }
{
    match value(&rate.amount, state) {
        Err(overflow) => Err(RateStop::Number(overflow)),
        Ok(None) => Err(RateStop::NoValue(rate.fluent)),
        Ok(Some(amount)) => match state.fluent(rate.fluent) {
            None => Err(RateStop::NoValue(rate.fluent)),
            Some(_) => match summed(rate.up, rates.get(rate.fluent), amount) {
                Err(overflow) => Err(RateStop::Number(overflow)),
                Ok(sum) => {
                    rates.set(rate.fluent, sum)?;
                    Ok(())
                }
            },
        },
    }
}

// Adds the rates of one process to the sums.
#[inline(always)]
fn add_all<Q: Exact>(
    rates: &mut Rates<Q>,
    list: &[Rate<Q>],
    state: &State<Q>,
) -> Result<(), RateStop<Q>>
    requires fits { All (RateFits (length (state.now.fluents))) (map (rate_of Q.value) list.now) }
    requires size { length rates.old ≡ length (state.now.fluents) }
    ensures size { length rates.new ≡ length rates.old }
    ensures told { RatesTell Q.value Q.fits (add_rates_steps (map (rate_of Q.value) list.now) state.now rates.old)
        (add_rates (map (rate_of Q.value) list.now) state.now rates.old) rates.new result }
{
    'each: for rate in list {
        match add_rate(rates, rate, state) {
            Err(stop) => return Err(stop),
            Ok(()) => {}
        }
    }
    Ok(())
}

// Appends the fluents of these rates.
fn note_rated<Q: Exact>(into: &mut Vec<u32>, list: &[Rate<Q>]) -> Result<(), AllocError> {
    'each: for rate in list {
        into.push(rate.fluent.0)?;
    }
    Ok(())
}

// How many members, and how many rates of each, are so few that places need not be made at once.
const FEW: usize = 4;

// Whether these processes give so few rates.
fn are_few<Q: Exact>(ground: &Ground<Q>, members: &[ProcessId]) -> bool {
    if members.len() > FEW {
        return false;
    }
    'each: for member in members {
        if let Some(process) = ground.processes.get(member.0 as usize) {
            if process.rates.len() > FEW {
                return false;
            }
        }
    }
    true
}

// All rates become 0, and the fluents that have a rate under these processes get their places, where they
// are more than a few.
#[inline(always)]
fn with_places<Q: Exact>(
    alloc: Global,
    ground: &Ground<Q>,
    members: &[ProcessId],
    fluents: usize,
    rates: &mut Rates<Q>,
) -> Result<(), AllocError>
    ensures { OnOk result (rates.new ≡ replicate fluents (whole (pos 0))) }
{
    rates.renew(fluents);
    if are_few(ground, members) {
        return Ok(());
    }
    let mut numbers = Vec::with_capacity(alloc, members.len())?;
    'each: for member in members {
        if let Some(process) = ground.processes.get(member.0 as usize) {
            note_rated(&mut numbers, &process.rates)?;
        }
    }
    rates.make_places(alloc, numbers)?;
    Ok(())
}

/// The net rate of each fluent under these processes, which stand in ground order: the sum of their
/// rates on it, all read in this state. The refusal is the first step that stops: members in order, of
/// each its rates in order, of each the amount, then a missing value, then the sum; or want of memory.
/// They take the place of other rates; after a refusal those say nothing.
#[inline(always)]
pub fn net_rates<Q: Exact>(
    alloc: Global,
    ground: &Ground<Q>,
    members: &[ProcessId],
    state: &State<Q>,
    rates: &mut Rates<Q>,
) -> Result<(), RateStop<Q>>
    requires state { StateFits (length (ground.now.atoms.items)) (length (ground.now.fluents.items)) state.now }
    requires members { AreMembers (length (ground.now.processes.items)) (process_numbers members.now) }
    ensures size { OnOk result (length rates.new ≡ length (state.now.fluents)) }
    ensures told { NetRates Q.value Q.fits (problem_of Q.value ground.now) state.now (process_numbers members.now) (as_given rates.new result) }
{
    with_places(alloc, ground, members, state.fluents() as usize, rates)?;
    'each: for member in members {
        let own = &ground.processes[member.0 as usize].rates;
        match add_all(rates, own, state) {
            Err(stop) => return Err(stop),
            Ok(()) => {}
        }
    }
    Ok(())
}
