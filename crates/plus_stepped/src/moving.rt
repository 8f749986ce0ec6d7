//! A step of time without its literals and events: the processes that hold run for the whole step.
ghost use Rattle.std.specs.Prelude.{◌≡◌, length, IfOk, MatchResult};
ghost use Rattle.plus_model.specs.Running.{holding as holding_of};
ghost use Rattle.plus_state.specs.View.{problem_of};
ghost use Rattle.plus_state.specs.Fits.{StateFits};
ghost use Rattle.plus_state.specs.Asked.{AllFit};
ghost use Rattle.plus_settle.specs.Members.{process_numbers};
ghost use Rattle.plus_settle.specs.Settles.{condition_nodes};
ghost use Rattle.plus_stepped.specs.Ticks.{moving_tests};
ghost use Rattle.plus_stepped.specs.Told.{Told};
ghost use Rattle.plus_stepped.specs.Moving.{MovesTo, CannotMove, ConditionStops};

use crate::stop::StepStop;
use plus_crossing::moved;
use plus_crossing::rates::Rates;
use plus_number::exact::Exact;
use plus_settle::{SettleStop, net_rates};
use plus_state::looked::Looked;
use plus_state::problem::Ground;
use plus_state::states::State;
use plus_state::term::ProcessId;
use std::alloc::Global;

// The processes whose condition holds, in ground order.
fn holding<Q: Exact>(
    alloc: Global,
    ground: &Ground<Q>,
    state: &State<Q>,
) -> Result<Vec<ProcessId>, StepStop<Q>>
    requires state { StateFits (length (ground.now.atoms.items)) (length (ground.now.fluents.items)) state.now }
    ensures { MatchResult result
        (λ members. AllFit Q.fits (condition_nodes ((problem_of Q.value ground.now).processes) state.now)
        × (process_numbers members.items ≡ holding_of (problem_of Q.value ground.now) state.now))
        (λ stop. ConditionStops Q.value Q.fits (condition_nodes ((problem_of Q.value ground.now).processes) state.now) stop) }
{
    let mut members = Vec::new(alloc);
    match plus_settle::holding(ground, state, Looked::all(ground), &mut members) {
        Ok(()) => Ok(members),
        Err(SettleStop::Number(overflow)) => Err(StepStop::Number(overflow)),
        Err(SettleStop::Memory) => Err(StepStop::Memory),
        Err(_) => unreachable!(),
    }
}

// The state in which the processes that hold have run for so long, all at the rates of this state.
pub fn moved_on<Q: Exact>(
    alloc: Global,
    ground: &Ground<Q>,
    state: &State<Q>,
    interval: Q,
) -> Result<State<Q>, StepStop<Q>>
    requires state { StateFits (length (ground.now.atoms.items)) (length (ground.now.fluents.items)) state.now }
    ensures told { Told Q.value Q.fits (moving_tests (problem_of Q.value ground.now) (Q.value interval) state.now)
        (λ next. MovesTo (problem_of Q.value ground.now) (Q.value interval) state.now next)
        (CannotMove (problem_of Q.value ground.now) state.now) result }
    ensures fit { IfOk result (λ next. StateFits (length (ground.now.atoms.items)) (length (ground.now.fluents.items)) next) }
{
    let members = holding(alloc, ground, state)?;
    let mut rates = Rates::zero(alloc, 0);
    net_rates(alloc, ground, &members, state, &mut rates)?;
    Ok(moved(alloc, state, &rates, interval)?)
}
