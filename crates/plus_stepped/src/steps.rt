//! The beginning, a step of time and an action, each with the cascade after it.
ghost use Rattle.std.specs.Prelude.{ℕ, suc, [], length, pos, IfOk};
ghost use Rattle.plus_fraction.specs.Fraction.{whole};
ghost use Rattle.plus_model.specs.Trajectory.{literals};
ghost use Rattle.plus_state.specs.View.{problem_of, action_of};
ghost use Rattle.plus_state.specs.Fits.{StateFits, ActionFits};
ghost use Rattle.plus_steps.specs.Stepped.{Rests, Ticked};
ghost use Rattle.plus_stepped.specs.Ticks.{begin_tests, act_tests, tick_tests};
ghost use Rattle.plus_stepped.specs.Told.{Told};
ghost use Rattle.plus_stepped.specs.Never.{CannotRest};
ghost use Rattle.plus_stepped.specs.Grid.{IsAt};
ghost use Rattle.plus_stepped.specs.Steps.{HasGrid, ActsTo, CannotTick, CannotAct};

use crate::effect::action_changes;
use crate::literals::{Upcoming, next_after, next_literal, put_literals};
use crate::moving::moved_on;
use crate::rounds::cascade;
use crate::stop::StepStop;
use plus_number::consts::zero;
use plus_number::exact::Exact;
use plus_state::problem::{Action, Ground};
use plus_state::states::State;
use std::alloc::Global;

/// A state in which no event holds, and where the next literal stands.
#[derive(Drop)]
pub struct Rest<Q: Exact> {
    pub state: State<Q>,
    pub next: Upcoming,
}

// After the literals of time 0 and their cascade.
pub fn begun<Q: Exact>(
    alloc: Global,
    ground: &Ground<Q>,
    interval: Q,
) -> Result<Rest<Q>, StepStop<Q>>
    requires grid { HasGrid (problem_of Q.value ground.now) (Q.value interval) }
    ensures told { Told Q.value Q.fits (begin_tests (problem_of Q.value ground.now))
        (λ rest. Rests (problem_of Q.value ground.now) []
        (literals (problem_of Q.value ground.now) (whole (pos 0)) (problem_of Q.value ground.now).initial) rest.state)
        (CannotRest (problem_of Q.value ground.now)
        (literals (problem_of Q.value ground.now) (whole (pos 0)) (problem_of Q.value ground.now).initial)) result }
    ensures at { IfOk result (λ rest. IsAt (problem_of Q.value ground.now).timed (Q.value interval) 0 rest.next.place rest.next.ticks) }
    ensures fit { IfOk result (λ rest. StateFits (length (ground.now.atoms.items)) (length (ground.now.fluents.items)) rest.state) }
{
    let next = next_after(&ground.timed, 0, zero(), 0, interval);
    let mut state = ground.initial.copy(alloc)?;
    put_literals(&mut state, &ground.timed[..next.place]);
    Ok(Rest {
        state: cascade(alloc, ground, state)?,
        next,
    })
}

// After one step more.
pub fn ticked<Q: Exact>(
    alloc: Global,
    ground: &Ground<Q>,
    state: &State<Q>,
    interval: Q,
    next: Upcoming,
) -> Result<Rest<Q>, StepStop<Q>>
    requires grid { HasGrid (problem_of Q.value ground.now) (Q.value interval) }
    requires state { StateFits (length (ground.now.atoms.items)) (length (ground.now.fluents.items)) state.now }
    requires at { (n : ℕ) × IsAt (problem_of Q.value ground.now).timed (Q.value interval) n next.place next.ticks }
    ensures told { (n : ℕ) → IsAt (problem_of Q.value ground.now).timed (Q.value interval) n next.place next.ticks
        → Told Q.value Q.fits (tick_tests (problem_of Q.value ground.now) (Q.value interval) (suc n) state.now)
        (λ rest. Ticked (problem_of Q.value ground.now) (Q.value interval) (suc n) state.now rest.state)
        (CannotTick (problem_of Q.value ground.now) (Q.value interval) (suc n) state.now) result }
    ensures at { IfOk result (λ rest. (n : ℕ) → IsAt (problem_of Q.value ground.now).timed (Q.value interval) n next.place next.ticks
        → IsAt (problem_of Q.value ground.now).timed (Q.value interval) (suc n) rest.next.place rest.next.ticks) }
    ensures fit { IfOk result (λ rest. StateFits (length (ground.now.atoms.items)) (length (ground.now.fluents.items)) rest.state) }
{
    let mut after = moved_on(alloc, ground, state, interval)?;
    let place = next.place.min(ground.timed.len());
    let later = next_literal(&ground.timed, place, next.ticks, interval);
    put_literals(&mut after, &ground.timed[place..later.place]);
    Ok(Rest {
        state: cascade(alloc, ground, after)?,
        next: later,
    })
}

// After an action.
pub fn acted<Q: Exact>(
    alloc: Global,
    ground: &Ground<Q>,
    state: &State<Q>,
    action: &Action<Q>,
) -> Result<State<Q>, StepStop<Q>>
    requires state { StateFits (length (ground.now.atoms.items)) (length (ground.now.fluents.items)) state.now }
    requires action { ActionFits (length (state.now.atoms)) (length (state.now.fluents)) (action_of Q.value action.now) }
    ensures told { Told Q.value Q.fits
        (act_tests (problem_of Q.value ground.now) (action_of Q.value action.now) state.now)
        (λ last. ActsTo (problem_of Q.value ground.now) (action_of Q.value action.now) state.now last)
        (CannotAct (problem_of Q.value ground.now) (action_of Q.value action.now) state.now) result }
    ensures fit { IfOk result (λ last. StateFits (length (ground.now.atoms.items)) (length (ground.now.fluents.items)) last) }
{
    let changes = action_changes(alloc, state, action)?;
    let mut after = state.copy(alloc)?;
    after.patch(&changes);
    cascade(alloc, ground, after)
}
