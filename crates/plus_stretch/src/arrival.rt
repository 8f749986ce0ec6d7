//! Where a running set comes to.
ghost use Rattle.std.specs.Prelude.{◌≡◌};

use plus_number::consts::zero;
use plus_number::exact::Exact;
use plus_state::changes::Changes;
use plus_state::states::State;
use std::alloc::Global;

/// Why time passes no further along a running set.
#[derive(Clone, Copy, PartialEq, Eq)]
pub enum End {
    /// An event holds.
    EventHolds,
    /// No event holds, and other processes hold just after.
    SetEnds,
    /// The time asked for has come.
    Until,
}

/// The end of a stretch: the moment, what has changed since its beginning, and why it ends there.
#[derive(Drop)]
pub struct Arrival<Q: Exact> {
    pub time: Q,
    pub changes: Changes<Q>,
    pub end: End,
}

/// A state that is moved ahead, and where it comes to.
#[derive(Drop)]
pub struct Ahead<Q: Exact> {
    pub state: State<Q>,
    pub arrival: Arrival<Q>,
}

impl<Q: Exact> Ahead<Q> {
    /// This state, which is not moved yet.
    pub fn new(alloc: Global, state: State<Q>) -> Ahead<Q>
        ensures { result.state ≡ state }
    {
        Ahead {
            state,
            arrival: Arrival {
                time: zero(),
                changes: Changes::none(alloc),
                end: End::Until,
            },
        }
    }
}
