//! Cascades: rounds of events until none holds.
ghost use Rattle.std.specs.Prelude.{[], length, IfOk};
ghost use Rattle.plus_state.specs.View.{problem_of};
ghost use Rattle.plus_state.specs.Fits.{StateFits};
ghost use Rattle.plus_steps.specs.Stepped.{Rests};
ghost use Rattle.plus_stepped.specs.Asked.{cascade_tests};
ghost use Rattle.plus_stepped.specs.Told.{Told};
ghost use Rattle.plus_stepped.specs.Never.{CannotRest};

use crate::stop::StepStop;
use plus_cascade::{begin, round_changes};
use plus_number::exact::Exact;
use plus_state::problem::Ground;
use plus_state::states::State;
use std::alloc::Global;

// The state at the end of the cascade from this one, or the first test that fails.
pub fn cascade<Q: Exact>(
    alloc: Global,
    ground: &Ground<Q>,
    state: State<Q>,
) -> Result<State<Q>, StepStop<Q>>
    requires state { StateFits (length (ground.now.atoms.items)) (length (ground.now.fluents.items)) state }
    ensures told { Told Q.value Q.fits (cascade_tests (problem_of Q.value ground.now) state)
        (λ last. Rests (problem_of Q.value ground.now) [] state last)
        (CannotRest (problem_of Q.value ground.now) state) result }
    ensures fit { IfOk result (λ last. StateFits (length (ground.now.atoms.items)) (length (ground.now.fluents.items)) last) }
{
    let mut fired = begin(alloc, ground)?;
    let mut now = state;
    'rounds: loop {
        match round_changes(alloc, &fired, ground, &now)? {
            None => return Ok(now),
            Some(due) => {
                now.patch(&due.changes);
                fired.add(&due.events);
            }
        }
    }
}
