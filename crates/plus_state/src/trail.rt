//! A state, and the one before the last step.
ghost use Rattle.std.specs.Prelude.{◌≡◌, length, IfOk};
ghost use Rattle.plus_state.specs.Changes.{patched, Within, RisesIn, LeadsTo};

use crate::changes::Changes;
use crate::states::State;
use plus_number::exact::Exact;
use std::alloc::{AllocError, Global};
use std::marker::Model;
use std::mem;

/// A state, the one before the last step, and what that step changed. A step costs what it changes:
/// the state before follows by making the changes of the step before.
#[derive(Drop)]
pub struct Trail<Q: Exact> {
    state: State<Q>,
    before: State<Q>,
    last: Changes<Q>,
}

impl<Q: Exact> Model for Trail<Q> {
    ghost use Rattle.plus_state.specs.Changes.{TrailView, LeadsTo};
    ghost use Rattle.plus_state.specs.ChangesCode.{coded_trail};

    ghost Value = { TrailView };

    ghost coded = { coded_trail };

    ghost view = { λ t. record { state = t.state; before = t.before } };

    ghost invariant = { λ t. LeadsTo t.before t.last t.state };
}

impl<Q: Exact> Trail<Q> {
    /// A state before which nothing happened.
    pub fn new(alloc: Global, state: State<Q>) -> Result<Trail<Q>, AllocError>
        ensures { IfOk result (λ t. t ≡ record { state = state; before = state }) }
    {
        Ok(Trail {
            before: state.copy(alloc)?,
            state,
            last: Changes::none(alloc),
        })
    }

    /// Makes a step. It takes no memory, and leaves that of the changes of the step before.
    #[inline(always)]
    pub fn step(&mut self, changes: &mut Changes<Q>)
        requires { RisesIn self.old.state changes.old }
        ensures { self.new ≡ record { state = patched self.old.state changes.old; before = self.old.state } }
    {
        self.before.patch(&self.last);
        self.state.patch(changes);
        mem::swap(&mut self.last, changes);
    }

    /// Makes changes, and forgets what led to the state. It takes no memory.
    pub fn restart(&mut self, changes: &Changes<Q>)
        requires { Within (length self.old.state.atoms) (length self.old.state.fluents) changes.now }
        ensures { self.new ≡ record { state = patched self.old.state changes.now; before = patched self.old.state changes.now } }
    {
        let last = &self.last;
        self.before.patch(last);
        self.last.clear();
        self.before.patch(changes);
        self.state.patch(changes);
    }

    /// The state after the last step.
    pub fn state(&self) -> &State<Q>
        ensures { result.now ≡ self.now.state }
    {
        &self.state
    }

    /// The state before the last step.
    pub fn before(&self) -> &State<Q>
        ensures { result.now ≡ self.now.before }
    {
        &self.before
    }

    /// What the last step changed.
    pub fn changes(&self) -> &Changes<Q>
        ensures { LeadsTo self.now.before result.now self.now.state }
    {
        &self.last
    }

    /// An equal trail.
    pub fn copy(&self, alloc: Global) -> Result<Trail<Q>, AllocError>
        ensures { IfOk result (λ t. t ≡ self.now) }
    {
        Ok(Trail {
            state: self.state.copy(alloc)?,
            before: self.before.copy(alloc)?,
            last: self.last.copy(alloc)?,
        })
    }
}
