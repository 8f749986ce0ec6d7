//! A bounded search for a plan on a grid of times, with a cut.
ghost use Rattle.std.specs.Prelude.{◌≡◌, ◌+◌, ◌*◌, ◌^◌, ◌<◌, ◌≤◌, [], map, length, IfOk};
ghost use Rattle.plus_state.specs.View.{problem_of, action_of};
ghost use Rattle.plus_planner.specs.Places.{task_from, path_of};
ghost use Rattle.plus_planner.specs.Searches.{IsNotSpent};
ghost use Rattle.plus_cut.specs.Cutting.{bounded, HoldsCut};
ghost use Rattle.plus_cut.specs.Answers.{CutAnswers};

use crate::cuts::Cut;
use crate::cutting::CutPlanner;
use plus_number::exact::Exact;
use plus_planner::listing::listed;
use plus_planner::places::Place;
use plus_planner::searching::beginning;
use plus_planner::{Answer, Guide};
use plus_search::{Fate, Found, search};
use std::alloc::AllocError;

impl<Q: Exact, G: Guide<Q> + Drop, C: Cut<Q> + Drop> CutPlanner<Q, G, C> {
    /// Searches for a plan of at most so many decisions, and tries no more lists of them than may be
    /// tried. It goes depth first. The guide changes the order alone. At a place the goal is tested first; where it is not
    /// reached and decisions are left, a yes of the cut ends the place.
    pub fn search(&self, decisions: u32, tries: u64) -> Result<Answer<Q>, AllocError>
        requires few { decisions ≤ 64 }
        requires tries { tries < u64.MAX }
        ensures answers { IfOk result (CutAnswers Q.value Q.fits (task_from (problem_of Q.value self.now.planner.problem)
            (map (action_of Q.value) self.now.planner.actions.items) (Q.value self.now.planner.interval)) (C.says self.now.cut) decisions tries) }
        ensures enough { (decisions + 1) * ((length (self.now.planner.actions.items) + 2) ^ decisions) ≤ tries →
            IfOk result IsNotSpent }
    {
        let (mut place, fate) = beginning(self.planner.alloc, &self.planner.problem)?;
        let answer = match fate {
            Fate::Alive => self.search_from(&mut place, decisions, tries),
            Fate::Broken => Ok(Answer::NoPlan { beyond: 0 }),
            Fate::Beyond => Ok(Answer::NoPlan { beyond: 1 }),
        };
        // By a call: what drops a place is long, and would stand here at each way out.
        drop(place);
        answer
    }

    // Searches from the place at the beginning.
    fn search_from(
        &self,
        place: &mut Place<Q>,
        decisions: u32,
        tries: u64,
    ) -> Result<Answer<Q>, AllocError>
        requires few { decisions ≤ 64 }
        requires stands { HoldsCut Q.fits (task_from (problem_of Q.value self.now.planner.problem)
            (map (action_of Q.value) self.now.planner.actions.items) (Q.value self.now.planner.interval)) (bounded (C.says self.now.cut))
            place.old.start place.old.taken.items place.old.tried.items place.old.spares.items place.old.stepper.index }
        requires first { path_of place.old.taken.items ≡ [] }
        requires tries { tries < u64.MAX }
        ensures answers { IfOk result (CutAnswers Q.value Q.fits (task_from (problem_of Q.value self.now.planner.problem)
            (map (action_of Q.value) self.now.planner.actions.items) (Q.value self.now.planner.interval)) (C.says self.now.cut) decisions tries) }
        ensures enough { (decisions + 1) * ((length (self.now.planner.actions.items) + 2) ^ decisions) ≤ tries →
            IfOk result IsNotSpent }
    {
        let found = search(self.planner.alloc, self, place, decisions, tries)?;
        match found {
            Found::Plan => {
                let plan = listed(self.planner.alloc, &self.planner.actions, place)?;
                Ok(Answer::Plan(plan))
            }
            Found::NoPlan { beyond } => Ok(Answer::NoPlan { beyond }),
            Found::Spent => Ok(Answer::Spent { tried: tries }),
        }
    }
}
