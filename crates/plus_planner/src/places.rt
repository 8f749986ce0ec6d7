//! Where a walk over decisions stands.

use crate::held::Held;
use plus_indexed::Stepper;
use plus_number::exact::Exact;
use plus_timeline::Timeline;
use std::alloc::Global;

/// A decision that was taken, and the timeline after it.
#[derive(Drop)]
pub struct Taken<Q: Exact> {
    pub decision: u32,
    pub timeline: Held<Q>,
}

/// A decision that was taken and taken back, and how many had been taken before it.
#[derive(Drop)]
pub struct Tried<Q: Exact> {
    pub before: usize,
    pub taken: Taken<Q>,
}

/// The timeline at the beginning, and what was decided since. Some of what was tried on the way is kept, so
/// that it is not worked anew where it is taken again. Timelines that are needed no more are spared: a fork
/// is made of one of them, at the cost of what was changed in both since the beginning, and takes no memory.
/// So a decision costs what it changes and what was changed before it, however large the state is.
#[derive(Drop)]
pub struct Place<Q: Exact> {
    pub start: Timeline<Q>,
    pub taken: Vec<Taken<Q>>,
    pub tried: Vec<Tried<Q>>,
    pub spares: Vec<Held<Q>>,
    // what takes each of them on, one at a time
    pub stepper: Stepper<Q>,
}

impl<Q: Exact> Place<Q> {
    ghost use Rattle.std.specs.Prelude.{◌≡◌, []};
    ghost use Rattle.plus_planner.specs.Places.{now_in, base_in};

    /// The place at the beginning, with this timeline.
    pub fn begin(alloc: Global, start: Timeline<Q>, stepper: Stepper<Q>) -> Place<Q>
        ensures start { result.start ≡ start }
        ensures taken { result.taken.items ≡ [] }
        ensures tried { result.tried.items ≡ [] }
        ensures spares { result.spares.items ≡ [] }
        ensures stepper { result.stepper ≡ stepper }
    {
        Place {
            start,
            taken: Vec::new(alloc),
            tried: Vec::new(alloc),
            spares: Vec::new(alloc),
            stepper,
        }
    }

    /// The timeline after the last decision.
    pub fn now(&self) -> &Timeline<Q>
        ensures { result.now ≡ now_in self.now.start self.now.taken.items }
    {
        match self.taken.last() {
            Some(last) => last.timeline.get(),
            None => &self.start,
        }
    }

    /// The timeline after the last action, with which each decision below this number is one; or at the
    /// beginning, where there is none.
    pub fn base(&self, actions: u32) -> &Timeline<Q>
        ensures { result.now ≡ base_in actions self.now.start self.now.taken.items }
    {
        let mut base = &self.start;
        for taken in &self.taken {
            if taken.decision < actions {
                base = taken.timeline.get();
            }
        }
        base
    }
}
