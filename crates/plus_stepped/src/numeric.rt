//! Plans without time.
ghost use Rattle.std.specs.Prelude.{◌≡◌, true, [], length, IfOk, OnErr};
ghost use Rattle.plus_model.specs.Value.{holds};
ghost use Rattle.plus_state.specs.View.{problem_of, action_of};
ghost use Rattle.plus_state.specs.Fits.{StateFits, ActionFits};
ghost use Rattle.plus_steps.specs.Stepped.{Does};
ghost use Rattle.plus_stepped.specs.Asked.{action_tests, goal_tests};
ghost use Rattle.plus_stepped.specs.Told.{Told, TakesNoMemory};
ghost use Rattle.plus_stepped.specs.Never.{CannotDo};

use crate::effect::action_changes_in;
use crate::goal::reached;
use crate::stop::StepStop;
use plus_number::exact::Exact;
use plus_state::changes::Changes;
use plus_state::problem::{Action, Ground};
use plus_state::states::State;
use std::alloc::{AllocError, Global};
use std::marker::Model;

/// A plan without time, for a problem without processes, events and timed literals: one action is done
/// after the other. Contracts see the present state.
#[derive(Drop)]
pub struct Numeric<Q: Exact> {
    alloc: Global,
    state: State<Q>,
    // what the last action changed
    changes: Changes<Q>,
}

impl<Q: Exact> Model for Numeric<Q> {
    ghost use Rattle.plus_model.specs.Terms.{State as Meant};
    ghost use Rattle.plus_model.specs.Codes.{coded_state};

    ghost Value = { Meant };

    ghost coded = { coded_state };

    ghost view = { λ n. n.state };
}

impl<Q: Exact> Numeric<Q> {
    /// A plan that begins in the initial state.
    pub fn begin(alloc: Global, ground: &Ground<Q>) -> Result<Numeric<Q>, AllocError>
        requires processes { ground.now.processes.items ≡ [] }
        requires events { ground.now.events.items ≡ [] }
        requires timed { ground.now.timed.items ≡ [] }
        ensures { IfOk result (λ n. n ≡ (problem_of Q.value ground.now).initial) }
    {
        Ok(Numeric {
            alloc,
            state: ground.initial.copy(alloc)?,
            changes: Changes::none(alloc),
        })
    }

    /// Does one action: its condition holds, and this is the state after its joint effect. The refusal
    /// is the first test that fails: the condition, and then the effects as one joint effect.
    pub fn step(&mut self, action: &Action<Q>) -> Result<(), StepStop<Q>>
        requires { ActionFits (length self.old.atoms) (length self.old.fluents) (action_of Q.value action.now) }
        ensures told { Told Q.value Q.fits (action_tests (action_of Q.value action.now) self.old)
            (λ _. Does (action_of Q.value action.now) self.old self.new)
            (CannotDo (action_of Q.value action.now) self.old) result }
        ensures fits { StateFits (length self.old.atoms) (length self.old.fluents) self.new }
        ensures refused { OnErr result (self.new ≡ self.old) }
    {
        action_changes_in(&mut self.changes, self.alloc, &self.state, action)?;
        self.state.patch(&self.changes);
        Ok(())
    }

    /// Whether the goal holds. It is refused with `GoalFails` or `Number` alone.
    pub fn goal(&self, ground: &Ground<Q>) -> Result<(), StepStop<Q>>
        requires state { StateFits (length (ground.now.atoms.items)) (length (ground.now.fluents.items)) self.now }
        ensures told { Told Q.value Q.fits (goal_tests (problem_of Q.value ground.now).goal self.now)
            (λ _. holds (problem_of Q.value ground.now).goal self.now ≡ true)
            (holds (problem_of Q.value ground.now).goal self.now ≡ true → ⊥) result }
        ensures memory { TakesNoMemory result }
    {
        reached(&ground.goal, &self.state)
    }

    /// The present state.
    pub fn state(&self) -> &State<Q>
        ensures { result.now ≡ self.now }
    {
        &self.state
    }
}
