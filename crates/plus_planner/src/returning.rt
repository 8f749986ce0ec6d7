//! What is taken back is kept, since it may be taken again.
ghost use Rattle.std.specs.Prelude.{◌≡◌, ◌<◌, ◌≤◌, length, take, IfSome, OnOk};
ghost use Rattle.plus_planner.specs.Kin.{Spares, KeepsKin};
ghost use Rattle.plus_planner.specs.Tried.{AllBehind, IsFoundAt, Returns, Keeps};

use crate::places::{Place, Taken, Tried};
use plus_number::exact::Exact;
use plus_timeline::Timeline;
use std::alloc::AllocError;

// How many are kept that were tried at one place.
const MOST_KEPT: usize = 8;

// Timelines with a larger state are not kept, for the memory that they take.
const MOST_ATOMS: u32 = 65_536;

const MOST_FLUENTS: u32 = 1_024;

impl<Q: Exact> Place<Q> {
    /// Where a decision is kept that was tried here.
    pub fn find(&self, decision: u32) -> Option<usize>
        ensures { IfSome result (IsFoundAt (length self.now.taken.items) decision self.now.tried.items) }
    {
        if self.rises(decision) {
            return None;
        }
        self.find_among(decision, self.tried.len())
    }

    // The same among the first of those that are kept. The last of these come first: what was tried here
    // stands at the end, by rising decisions.
    fn find_among(&self, decision: u32, count: usize) -> Option<usize>
        requires { count ≤ length self.now.tried.items }
        ensures { IfSome result (IsFoundAt (length self.now.taken.items) decision self.now.tried.items) }
    {
        if count == 0 {
            return None;
        }
        let tried = &self.tried[count - 1];
        if tried.before != self.taken.len() || tried.taken.decision < decision {
            return None;
        }
        if tried.taken.decision == decision {
            return Some(count - 1);
        }
        self.find_among(decision, count - 1)
    }

    /// Takes a decision again that is kept.
    pub fn again(&mut self, index: usize) -> Result<(), AllocError>
        requires { index < length self.old.tried.items }
        ensures spares { self.new.spares ≡ self.old.spares }
        ensures start { self.new.start ≡ self.old.start }
        ensures stepper { self.new.stepper ≡ self.old.stepper }
        ensures returns { OnOk result (Returns index self.old.taken.items self.old.tried.items
            self.new.taken.items self.new.tried.items) }
    {
        let tried = self.tried.remove(index);
        self.taken.push(tried.taken)?;
        Ok(())
    }

    // How many of those that are kept, from the first, were tried here or before.
    fn still(&self) -> usize
        ensures { AllBehind (length self.now.taken.items) (take result self.now.tried.items) }
    {
        let here = self.taken.len();
        let mut count = 0;
        'tried: for tried in &self.tried {
            if tried.before > here {
                return count;
            }
            count += 1;
        }
        count
    }

    // Whether the last of those that are kept is none of this place, or one with a lower decision.
    fn rises(&self, decision: u32) -> bool {
        match self.tried.last() {
            Some(last) => last.before != self.taken.len() || last.taken.decision < decision,
            None => true,
        }
    }

    // Whether fewer than may be are kept that were tried here.
    fn has_room(&self) -> bool {
        let count = self.tried.len();
        count < MOST_KEPT || self.tried[count - MOST_KEPT].before != self.taken.len()
    }

    // Whether a decision that was tried here is to be kept.
    fn may_keep(&self, taken: &Taken<Q>) -> bool {
        is_small(taken.timeline.get()) && self.rises(taken.decision) && self.has_room()
    }

    // Forgets what is kept from the last on, until so many are left. Their timelines are spared.
    fn forget(&mut self, count: usize) -> Result<(), AllocError>
        ensures start { self.new.start ≡ self.old.start }
        ensures stepper { self.new.stepper ≡ self.old.stepper }
        ensures same { self.new.taken ≡ self.old.taken }
        ensures forgets { OnOk result (self.new.tried.items ≡ take count self.old.tried.items) }
        ensures kin { OnOk result (Spares self.old.tried.items self.old.spares.items self.new.spares.items) }
    {
        'tried: while self.tried.len() > count {
            match self.tried.pop() {
                Some(tried) => self.spares.push(tried.taken.timeline)?,
                None => return Ok(()),
            }
        }
        Ok(())
    }

    /// Forgets what was tried behind the present place, and keeps a decision that was tried here, where it
    /// is to be kept.
    pub fn keep(&mut self, taken: Taken<Q>) -> Result<(), AllocError>
        ensures start { self.new.start ≡ self.old.start }
        ensures stepper { self.new.stepper ≡ self.old.stepper }
        ensures same { self.new.taken ≡ self.old.taken }
        ensures kin { OnOk result (KeepsKin taken self.old.tried.items self.old.spares.items self.new.tried.items self.new.spares.items) }
        ensures keeps { OnOk result (Keeps (length self.old.taken.items) taken self.old.tried.items self.new.tried.items) }
    {
        let still = self.still();
        self.forget(still)?;
        if self.may_keep(&taken) {
            let before = self.taken.len();
            self.tried.push(Tried { before, taken })?;
        } else {
            self.spares.push(taken.timeline)?;
        }
        Ok(())
    }
}

fn is_small<Q: Exact>(timeline: &Timeline<Q>) -> bool {
    let state = timeline.state();
    state.atoms() <= MOST_ATOMS && state.fluents() <= MOST_FLUENTS
}
