//! Plans in equal steps of time.
ghost use Rattle.std.specs.Prelude.{◌≡◌, ℕ, suc, true, length, pos, IfOk, OnErr};
ghost use Rattle.plus_fraction.specs.Fraction.{whole};
ghost use Rattle.plus_model.specs.Value.{holds};
ghost use Rattle.plus_model.specs.Trajectory.{literals};
ghost use Rattle.plus_state.specs.View.{problem_of, action_of};
ghost use Rattle.plus_state.specs.Fits.{ActionFits};
ghost use Rattle.plus_stepped.specs.Asked.{goal_tests};
ghost use Rattle.plus_stepped.specs.Ticks.{begin_tests, act_tests, tick_tests};
ghost use Rattle.plus_stepped.specs.Told.{Told, TakesNoMemory};
ghost use Rattle.plus_stepped.specs.Never.{CannotRest};
ghost use Rattle.plus_stepped.specs.Steps.{HasGrid, IsAfter, Serves, Begins, Ticks, Acts, CannotTick, CannotAct};

use crate::goal::reached;
use crate::literals::Upcoming;
use crate::steps::{Rest, acted, begun, ticked};
use crate::stop::StepStop;
use plus_number::exact::Exact;
use plus_state::problem::{Action, Ground};
use plus_state::states::State;
use std::alloc::Global;
use std::marker::Model;

/// A plan in steps of one length, for any problem: actions are done, and time passes step by step. In
/// a step the processes that hold run for all of it at the rates of its beginning; then come the timed
/// literals of its end, and a cascade of events. It counts down the ticks to the next literal, and so
/// keeps no count that could run out.
#[derive(Drop)]
pub struct Stepped<Q: Exact> {
    alloc: Global,
    state: State<Q>,
    interval: Q,
    next: Upcoming,
}

impl<Q: Exact> Model for Stepped<Q> {
    ghost use Rattle.plus_stepped.specs.Steps.{SteppedView, coded_stepped};

    ghost Value = { SteppedView };

    ghost coded = { coded_stepped };

    ghost view = { λ s. record {
      state = s.state;
      interval = Q.value s.interval;
      place = s.next.place;
      ticks = s.next.ticks;
    } };
}

impl<Q: Exact> Stepped<Q> {
    /// A plan that begins with the literals of time 0 and the cascade after them. `on_grid` is the test
    /// of the grid.
    pub fn begin(alloc: Global, ground: &Ground<Q>, interval: Q) -> Result<Stepped<Q>, StepStop<Q>>
        requires grid { HasGrid (problem_of Q.value ground.now) (Q.value interval) }
        ensures told { Told Q.value Q.fits (begin_tests (problem_of Q.value ground.now))
            (λ plan. Begins (problem_of Q.value ground.now) (Q.value interval) plan)
            (CannotRest (problem_of Q.value ground.now)
            (literals (problem_of Q.value ground.now) (whole (pos 0)) (problem_of Q.value ground.now).initial)) result }
        ensures serves { IfOk result (λ plan. Serves (problem_of Q.value ground.now) plan) }
    {
        let Rest { state, next } = begun(alloc, ground, interval)?;
        Ok(Stepped {
            alloc,
            state,
            interval,
            next,
        })
    }

    /// Lets time pass for one interval. The refusal is the first test that fails: the conditions of all
    /// processes, the rates of those that hold, the moved fluents, and then the cascade.
    pub fn tick(&mut self, ground: &Ground<Q>) -> Result<(), StepStop<Q>>
        requires serves { Serves (problem_of Q.value ground.now) self.old }
        ensures told { (n : ℕ) → IsAfter (problem_of Q.value ground.now) n self.old
            → Told Q.value Q.fits (tick_tests (problem_of Q.value ground.now) self.old.interval (suc n) self.old.state)
            (λ _. Ticks (problem_of Q.value ground.now) n self.old self.new)
            (CannotTick (problem_of Q.value ground.now) self.old.interval (suc n) self.old.state) result }
        ensures serves { Serves (problem_of Q.value ground.now) self.new }
        ensures refused { OnErr result (self.new ≡ self.old) }
    {
        let Rest { state, next } = ticked(
            self.alloc,
            ground,
            &self.state,
            self.interval,
            self.next,
        )?;
        self.state = state;
        self.next = next;
        Ok(())
    }

    /// Does one action and the cascade after it. The refusal is the first test that fails: the
    /// condition, the effects as one joint effect, and then the cascade.
    pub fn act(&mut self, ground: &Ground<Q>, action: &Action<Q>) -> Result<(), StepStop<Q>>
        requires serves { Serves (problem_of Q.value ground.now) self.old }
        requires action { ActionFits (length (self.old.state.atoms)) (length (self.old.state.fluents)) (action_of Q.value action.now) }
        ensures told { Told Q.value Q.fits
            (act_tests (problem_of Q.value ground.now) (action_of Q.value action.now) self.old.state)
            (λ _. Acts (problem_of Q.value ground.now) (action_of Q.value action.now) self.old self.new)
            (CannotAct (problem_of Q.value ground.now) (action_of Q.value action.now) self.old.state) result }
        ensures serves { Serves (problem_of Q.value ground.now) self.new }
        ensures refused { OnErr result (self.new ≡ self.old) }
    {
        self.state = acted(self.alloc, ground, &self.state, action)?;
        Ok(())
    }

    /// Whether the goal holds. It is refused with `GoalFails` or `Number` alone.
    pub fn goal(&self, ground: &Ground<Q>) -> Result<(), StepStop<Q>>
        requires serves { Serves (problem_of Q.value ground.now) self.now }
        ensures told { Told Q.value Q.fits (goal_tests (problem_of Q.value ground.now).goal self.now.state)
            (λ _. holds (problem_of Q.value ground.now).goal self.now.state ≡ true)
            (holds (problem_of Q.value ground.now).goal self.now.state ≡ true → ⊥) result }
        ensures memory { TakesNoMemory result }
    {
        reached(&ground.goal, &self.state)
    }

    /// The present state.
    pub fn state(&self) -> &State<Q>
        ensures { result.now ≡ self.now.state }
    {
        &self.state
    }
}
