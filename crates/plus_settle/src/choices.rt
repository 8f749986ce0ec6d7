//! The processes that hold in a state, and those that hold just after it.
ghost use Rattle.std.specs.Prelude.{◌≡◌, [], ◌∷◌, ◌++◌, length, IfOk, MatchResult, if◌then◌else◌};
ghost use Rattle.plus_model.specs.Running.{holding as holding_of, GoesOn};
ghost use Rattle.plus_state.specs.View.{problem_of};
ghost use Rattle.plus_state.specs.Fits.{StateFits};
ghost use Rattle.plus_state.specs.Asked.{AllFit};
ghost use Rattle.plus_settle.specs.Steps.{AllPass};
ghost use Rattle.plus_state.specs.Numbers.{process_numbers};
ghost use Rattle.plus_state.specs.Walk.{process_conditions};
ghost use Rattle.plus_state.specs.Looked.{processes_looked, AreKnown};
ghost use Rattle.plus_settle.specs.Settles.{condition_nodes, chosen_steps, running_soon, ConditionStops, ChosenStops, of_go, of_walk};

use crate::confirms::runs_after;
use crate::stops::{GoStop, SettleStop};
use plus_crossing::rates::Rates;
use plus_number::exact::Exact;
use plus_state::looked::Looked;
use plus_state::problem::Ground;
use plus_state::states::State;
use plus_state::term::ProcessId;
use plus_state::walk::{WalkStop, holding_in};
use std::alloc::{AllocError, Global};

fn append_if(members: &mut Vec<ProcessId>, member: ProcessId, runs: bool) -> Result<(), AllocError>
    ensures { IfOk result (λ _. process_numbers members.new.items
        ≡ process_numbers members.old.items ++ (if runs then member.0 ∷ [] else [])) }
{
    if runs {
        members.push(member)?;
    }
    Ok(())
}

// The stop of a walk as that of the whole.
fn walk_stop<Q: Exact>(stop: WalkStop<Q>) -> SettleStop<Q>
    ensures { result ≡ of_walk stop }
{
    match stop {
        WalkStop::Number(overflow) => SettleStop::Number(overflow),
        WalkStop::Memory => SettleStop::Memory,
    }
}

/// Puts the processes whose condition holds, in ground order, in place of others, whose memory it takes. Only
/// some are looked at: of all others it is known that they do not hold and that what they ask passes. The
/// refusal is the first node of the conditions of all processes, in ground order, that is no value; or want of
/// memory.
pub fn holding<Q: Exact>(
    ground: &Ground<Q>,
    state: &State<Q>,
    looked: Looked<'_, ProcessId>,
    members: &mut Vec<ProcessId>,
) -> Result<(), SettleStop<Q>>
    requires state { StateFits (length (ground.now.atoms.items)) (length (ground.now.fluents.items)) state.now }
    requires known { AreKnown Q.fits (process_conditions (problem_of Q.value ground.now)) state.now (processes_looked looked) }
    ensures { MatchResult result
        (λ _. AllFit Q.fits (condition_nodes ((problem_of Q.value ground.now).processes) state.now)
        × (process_numbers members.new.items ≡ holding_of (problem_of Q.value ground.now) state.now))
        (λ stop. ConditionStops Q.value Q.fits (condition_nodes ((problem_of Q.value ground.now).processes) state.now) stop) }
{
    match holding_in(ground, state, looked, members) {
        Ok(()) => Ok(()),
        Err(stop) => Err(walk_stop(stop)),
    }
}

// The stop of one process as that of the whole.
pub fn settle_stop<Q: Exact>(stop: GoStop<Q>) -> SettleStop<Q>
    ensures { result ≡ of_go stop }
{
    match stop {
        GoStop::Number(overflow) => SettleStop::Number(overflow),
        GoStop::Nonlinear {
            process,
            comparison,
        } => SettleStop::Nonlinear {
            process,
            comparison,
        },
    }
}

// The processes that hold just after the state, at these rates, in ground order.
pub fn chosen<Q: Exact>(
    alloc: Global,
    ground: &Ground<Q>,
    state: &State<Q>,
    rates: &Rates<Q>,
) -> Result<Vec<ProcessId>, SettleStop<Q>>
    requires state { StateFits (length (ground.now.atoms.items)) (length (ground.now.fluents.items)) state.now }
    requires rates { length rates.now ≡ length (state.now.fluents) }
    ensures { MatchResult result
        (λ members. AllPass Q.fits (chosen_steps 0 ((problem_of Q.value ground.now).processes) state.now rates.now)
        × (process_numbers members.items ≡ running_soon (problem_of Q.value ground.now) state.now rates.now)
        × GoesOn (problem_of Q.value ground.now) state.now rates.now (running_soon (problem_of Q.value ground.now) state.now rates.now))
        (λ stop. ChosenStops Q.value Q.fits (chosen_steps 0 ((problem_of Q.value ground.now).processes) state.now rates.now) stop) }
{
    let mut members = Vec::new(alloc);
    'each: for number in 0..ground.processes.len() {
        let id = ProcessId(number as u32);
        match runs_after(&ground.processes[number], id, state, rates) {
            Err(stop) => return Err(settle_stop(stop)),
            Ok(truth) => match append_if(&mut members, id, truth) {
                Err(_) => return Err(SettleStop::Memory),
                Ok(()) => {}
            },
        }
    }
    Ok(members)
}
