//! Settling.
ghost use Rattle.std.specs.Prelude.{◌≡◌, [], Ok, length, IfOk, OnOk};
ghost use Rattle.plus_model.specs.Running.{holding as holding_of, rates as rates_of};
ghost use Rattle.plus_state.specs.View.{problem_of};
ghost use Rattle.plus_state.specs.Fits.{StateFits};
ghost use Rattle.plus_state.specs.Asked.{AllFit};
ghost use Rattle.plus_state.specs.Looked.{processes_looked};
ghost use Rattle.plus_settle.specs.Steps.{AllPass};
ghost use Rattle.plus_settle.specs.Among.{OthersConfirmed};
ghost use Rattle.plus_settle.specs.Rates.{rates_steps, as_given};
ghost use Rattle.plus_settle.specs.Members.{process_numbers, AreMembers};
ghost use Rattle.plus_settle.specs.Settles.{condition_nodes, of_rate, OwnRates, Confirmed, own_then, SettleAnswers};
ghost use Rattle.plus_settle.specs.Uncoupled.{Uncoupled};

use crate::choices::{chosen, holding, settle_stop};
use crate::confirms::first_other;
use crate::coupling::first_coupled;
use crate::net::net_rates;
use crate::stops::{RateStop, SettleStop};
use plus_crossing::rates::Rates;
use plus_number::exact::Exact;
use plus_state::looked::Looked;
use plus_state::problem::Ground;
use plus_state::states::State;
use plus_state::term::ProcessId;
use std::alloc::{AllocError, Global};

/// A running set: its processes, in ground order, and the net rates under them.
#[derive(Drop)]
pub struct Running<Q: Exact> {
    pub members: Vec<ProcessId>,
    pub rates: Rates<Q>,
}

impl<Q: Exact> Running<Q> {
    /// No process runs. It takes no memory.
    pub fn none(alloc: Global) -> Running<Q>
        ensures members { result.members.items ≡ [] }
        ensures rates { result.rates ≡ [] }
    {
        Running {
            members: Vec::new(alloc),
            rates: Rates::zero(alloc, 0),
        }
    }

    /// An equal running set.
    pub fn copy(&self, alloc: Global) -> Result<Running<Q>, AllocError>
        ensures { IfOk result (λ r. (r.members.items ≡ self.now.members.items) × (r.rates ≡ self.now.rates)) }
    {
        Ok(Running {
            members: Vec::from_slice(alloc, &self.members)?,
            rates: self.rates.copy(alloc)?,
        })
    }
}

fn rate_stop<Q: Exact>(stop: RateStop<Q>) -> SettleStop<Q>
    ensures { result ≡ of_rate stop }
{
    match stop {
        RateStop::NoValue(fluent) => SettleStop::NoValue(fluent),
        RateStop::Number(overflow) => SettleStop::Number(overflow),
        RateStop::Memory => SettleStop::Memory,
    }
}

// Puts the net rates under these processes in place of other rates.
#[inline(always)]
pub fn own_rates<Q: Exact>(
    alloc: Global,
    ground: &Ground<Q>,
    members: &[ProcessId],
    state: &State<Q>,
    rates: &mut Rates<Q>,
) -> Result<(), SettleStop<Q>>
    requires state { StateFits (length (ground.now.atoms.items)) (length (ground.now.fluents.items)) state.now }
    requires members { AreMembers (length (ground.now.processes.items)) (process_numbers members.now) }
    ensures size { OnOk result (length rates.new ≡ length (state.now.fluents)) }
    ensures told { OwnRates Q.value Q.fits (problem_of Q.value ground.now) state.now (process_numbers members.now) (as_given rates.new result) }
{
    match net_rates(alloc, ground, members, state, rates) {
        Ok(()) => Ok(()),
        Err(stop) => Err(rate_stop(stop)),
    }
}

// Whether the chosen processes confirm themselves at their own rates, and none reads a moving fluent.
fn confirmed<Q: Exact>(
    ground: &Ground<Q>,
    members: &[ProcessId],
    state: &State<Q>,
    rates: &Rates<Q>,
) -> Result<(), SettleStop<Q>>
    requires state { StateFits (length (ground.now.atoms.items)) (length (ground.now.fluents.items)) state.now }
    requires members { AreMembers (length (ground.now.processes.items)) (process_numbers members.now) }
    requires rates { length rates.now ≡ length (state.now.fluents) }
    ensures { Confirmed Q.value Q.fits (problem_of Q.value ground.now) state.now (process_numbers members.now) rates.now result }
{
    match first_other(ground, members, state, rates, Looked::all(ground)) {
        Err(stop) => Err(settle_stop(stop)),
        Ok(other) => match other {
            Some(process) => Err(SettleStop::Unsettled(process)),
            None => match first_coupled(ground, members, rates) {
                Some(pair) => Err(SettleStop::Coupled(pair.0, pair.1)),
                None => Ok(()),
            },
        },
    }
}

// The running set, by the rates of those that hold: those that hold just after at these rates, which must
// confirm themselves.
fn settle_from<Q: Exact>(
    alloc: Global,
    ground: &Ground<Q>,
    present: &[ProcessId],
    state: &State<Q>,
    first: &Rates<Q>,
) -> Result<Running<Q>, SettleStop<Q>>
    requires state { StateFits (length (ground.now.atoms.items)) (length (ground.now.fluents.items)) state.now }
    requires pass { AllFit Q.fits (condition_nodes ((problem_of Q.value ground.now).processes) state.now) }
    requires present { process_numbers present.now ≡ holding_of (problem_of Q.value ground.now) state.now }
    requires size { length first.now ≡ length (state.now.fluents) }
    requires rated { AllPass Q.fits (rates_steps (problem_of Q.value ground.now) state.now (process_numbers present.now)) }
    requires first { rates_of (problem_of Q.value ground.now) state.now (process_numbers present.now) ≡ Ok first.now }
    ensures told { SettleAnswers Q.value Q.fits (problem_of Q.value ground.now) state.now result }
    ensures members { IfOk result (λ r. AreMembers (length (ground.now.processes.items)) (process_numbers r.members.items)) }
    ensures size { IfOk result (λ r. length r.rates ≡ length (ground.now.fluents.items)) }
{
    let members = chosen(alloc, ground, state, first)?;
    let mut rates = Rates::zero(alloc, 0);
    own_rates(alloc, ground, &members, state, &mut rates)?;
    confirmed(ground, &members, state, &rates)?;
    Ok(Running { members, rates })
}

// Whether none of these members reads a fluent that moves at these rates.
fn uncoupled<Q: Exact>(
    ground: &Ground<Q>,
    members: &[ProcessId],
    rates: &Rates<Q>,
) -> Result<(), SettleStop<Q>>
    requires members { AreMembers (length (ground.now.processes.items)) (process_numbers members.now) }
    requires rates { length rates.now ≡ length (ground.now.fluents.items) }
    ensures { Uncoupled (problem_of Q.value ground.now) (process_numbers members.now) rates.now result }
{
    match first_coupled(ground, members, rates) {
        Some((process, fluent)) => Err(SettleStop::Coupled(process, fluent)),
        None => Ok(()),
    }
}

/// Makes these the running set of a state, where the members are the processes that hold in it, what their
/// conditions ask passes, and the rates are theirs. Where those that hold go on at their own rates, they are
/// the running set: of this only some processes are looked at, where each other one is known to hold just
/// after exactly where it is a member, and what it asks to pass. After a refusal the set says nothing.
pub fn settle_rated<Q: Exact>(
    alloc: Global,
    ground: &Ground<Q>,
    state: &State<Q>,
    looked: Looked<'_, ProcessId>,
    running: &mut Running<Q>,
) -> Result<(), SettleStop<Q>>
    requires state { StateFits (length (ground.now.atoms.items)) (length (ground.now.fluents.items)) state.now }
    requires pass { AllFit Q.fits (condition_nodes ((problem_of Q.value ground.now).processes) state.now) }
    requires present { process_numbers running.old.members.items ≡ holding_of (problem_of Q.value ground.now) state.now }
    requires size { length running.old.rates ≡ length (state.now.fluents) }
    requires rated { AllPass Q.fits (rates_steps (problem_of Q.value ground.now) state.now (process_numbers running.old.members.items)) }
    requires rates { rates_of (problem_of Q.value ground.now) state.now (process_numbers running.old.members.items) ≡ Ok running.old.rates }
    requires looked { AreMembers (length (ground.now.processes.items)) (processes_looked looked) }
    requires others { OthersConfirmed Q.fits (problem_of Q.value ground.now) (process_numbers running.old.members.items) state.now running.old.rates (processes_looked looked) }
    ensures told { SettleAnswers Q.value Q.fits (problem_of Q.value ground.now) state.now (as_given running.new result) }
    ensures members { OnOk result (AreMembers (length (ground.now.processes.items)) (process_numbers running.new.members.items)) }
    ensures size { OnOk result (length running.new.rates ≡ length (ground.now.fluents.items)) }
{
    match first_other(ground, &running.members, state, &running.rates, looked) {
        Err(stop) => Err(settle_stop(stop)),
        Ok(Some(_)) => {
            *running = settle_from(alloc, ground, &running.members, state, &running.rates)?;
            Ok(())
        }
        Ok(None) => uncoupled(ground, &running.members, &running.rates),
    }
}

/// The running set of a state and its net rates. The processes that hold in the state give rates, those
/// that hold just after it at these rates are the set, and it must confirm itself: at its own rates
/// exactly its members hold just after. No rate of a member may read a fluent that moves. The refusal
/// is the first step that stops: the conditions of all processes, the rates of those that hold, all
/// processes just after at these rates, the rates of the set, all processes just after at those up to
/// the first that differs, and then the first member that reads a moving fluent; or want of memory.
/// Where those that hold confirm themselves at once, nothing is asked twice.
pub fn settle<Q: Exact>(
    alloc: Global,
    ground: &Ground<Q>,
    state: &State<Q>,
) -> Result<Running<Q>, SettleStop<Q>>
    requires state { StateFits (length (ground.now.atoms.items)) (length (ground.now.fluents.items)) state.now }
    ensures told { SettleAnswers Q.value Q.fits (problem_of Q.value ground.now) state.now result }
    ensures members { IfOk result (λ r. AreMembers (length (ground.now.processes.items)) (process_numbers r.members.items)) }
    ensures size { IfOk result (λ r. length r.rates ≡ length (ground.now.fluents.items)) }
{
    let mut running = Running::none(alloc);
    holding(ground, state, Looked::all(ground), &mut running.members)?;
    own_rates(alloc, ground, &running.members, state, &mut running.rates)?;
    settle_rated(alloc, ground, state, Looked::all(ground), &mut running)?;
    Ok(running)
}
