//! One more copy of the present state.
ghost use Rattle.std.specs.Prelude.{◌≡◌, length, Some, None, option_map, IfOk, IfSome};
ghost use Rattle.plus_state.specs.Changes.{patched, Within};

use plus_number::exact::Exact;
use plus_state::changes::Changes;
use plus_state::states::State;
use plus_stretch::Ahead;
use std::alloc::{AllocError, Global};
use std::marker::Model;

/// One more copy of the present state, if there is one. It is moved ahead where time is searched, and
/// stands on the heap, so that it is handed on at no cost. Contracts see the state.
#[derive(Drop)]
pub struct StateAhead<Q: Exact> {
    ahead: Option<Box<Ahead<Q>>>,
}

impl<Q: Exact> Model for StateAhead<Q> {
    ghost use Rattle.std.specs.Prelude.{Option, option_map};
    ghost use Rattle.plus_model.specs.Terms.{State};

    ghost Value = { Option State };

    ghost view = { λ a. option_map (λ b. b.value.state) a.ahead };
}

impl<Q: Exact> StateAhead<Q> {
    /// None yet.
    pub fn none() -> StateAhead<Q>
        ensures { result ≡ None }
    {
        StateAhead { ahead: None }
    }

    /// This one.
    pub fn some(ahead: Box<Ahead<Q>>) -> StateAhead<Q>
        ensures { result ≡ Some ahead.value.state }
    {
        StateAhead { ahead: Some(ahead) }
    }

    /// Makes changes in it, where there is one.
    pub fn patch(&mut self, changes: &Changes<Q>)
        requires { IfSome self.old (λ s. Within (length s.atoms) (length s.fluents) changes.now) }
        ensures { self.new ≡ option_map (λ s. patched s changes.now) self.old }
    {
        match &mut self.ahead {
            Some(ahead) => ahead.state.patch(changes),
            None => {}
        }
    }

    /// It, or else a new copy of the present state.
    pub fn take(&mut self, alloc: Global, state: &State<Q>) -> Result<Box<Ahead<Q>>, AllocError>
        requires { IfSome self.old (λ s. s ≡ state.now) }
        ensures state { IfOk result (λ b. b.value.state ≡ state.now) }
        ensures taken { self.new ≡ None }
    {
        match self.ahead.take() {
            Some(ahead) => Ok(ahead),
            None => {
                let ahead = Ahead::new(alloc, state.copy(alloc)?);
                Ok(Box::new(alloc, ahead)?)
            }
        }
    }
}
