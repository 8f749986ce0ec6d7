//! Who reads what in a ground problem.
ghost use Rattle.std.specs.Prelude.{IfOk};
ghost use Rattle.plus_state.specs.View.{problem_of};
ghost use Rattle.plus_reads.specs.Indexing.{Indexes};

use crate::readers::{Readers, readers_of};
use plus_number::exact::Exact;
use plus_state::problem::Ground;
use plus_state::term::{EventId, ProcessId};
use std::alloc::{AllocError, Global};

/// The readers of each atom and of each fluent among the events and among the processes. It holds
/// numbers alone, so it serves a problem over any type of numbers.
#[derive(Drop)]
pub struct Index {
    pub events: Readers,
    pub processes: Readers,
}

impl Index {
    /// The index of a ground problem, in one pass over its conditions.
    pub fn new<Q: Exact>(alloc: Global, ground: &Ground<Q>) -> Result<Index, AllocError>
        ensures { IfOk result (Indexes (problem_of Q.value ground.now)) }
    {
        Ok(Index {
            events: readers_of::<Q, EventId>(alloc, ground)?,
            processes: readers_of::<Q, ProcessId>(alloc, ground)?,
        })
    }
}
