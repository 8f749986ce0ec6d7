//! What is searched: a tree of decisions over a ground problem, with a cut.
ghost use Rattle.std.specs.Prelude.{◌≡◌, map};
ghost use Rattle.plus_state.specs.View.{problem_of, action_of};
ghost use Rattle.plus_planner.specs.Grid.{grid, IsKept};
ghost use Rattle.plus_planner.specs.Places.{task_from, path_of, CanSearch};
ghost use Rattle.plus_cut.specs.Cutting.{bounded, HoldsCut};
ghost use Rattle.plus_cut.specs.Once.{IsKept-prop};

use crate::cuts::Cut;
use plus_number::exact::Exact;
use plus_planner::places::Place;
use plus_planner::{Guide, Planner};
use plus_search::{Fate, Goal, Space};
use plus_state::problem::{Action, Ground};
use std::alloc::{AllocError, Global};

// More decisions than this are never left.
const MOST_DECISIONS: u32 = 64;

/// A planner with a cut, which is kept beside what its yes means: no plan goes on from a list of decisions that ends in such a
/// state, by at most so many further decisions.
#[derive(Drop)]
pub struct CutPlanner<Q: Exact, G: Guide<Q> + Drop, C: Cut<Q> + Drop> {
    pub planner: Planner<Q, G>,
    pub cut: C,
    pub ghost kept: { IsKept Q.fits (task_from (problem_of Q.value planner.problem) (map (action_of Q.value) planner.actions.items) (Q.value planner.interval)) (C.says cut) } by { IsKept-prop Q.fits (task_from (problem_of Q.value planner.problem) (map (action_of Q.value) planner.actions.items) (Q.value planner.interval)) (C.says cut) },
}

impl<Q: Exact, G: Guide<Q> + Drop, C: Cut<Q> + Drop> CutPlanner<Q, G, C> {
    /// A planner for these actions of a ground problem, on the grid of this interval, with this cut.
    pub fn new(
        alloc: Global,
        problem: Ground<Q>,
        actions: Vec<Action<Q>>,
        interval: Q,
        guide: G,
        cut: C,
    ) -> CutPlanner<Q, G, C>
        requires can { CanSearch (task_from (problem_of Q.value problem) (map (action_of Q.value) actions.items)
            (Q.value interval)) }
        requires kept { IsKept Q.fits (task_from (problem_of Q.value problem) (map (action_of Q.value) actions.items)
            (Q.value interval)) (C.says cut) }
        ensures problem { result.planner.problem ≡ problem }
        ensures actions { result.planner.actions ≡ actions }
        ensures interval { result.planner.interval ≡ interval }
        ensures cut { result.cut ≡ cut }
    {
        let planner = Planner::new(alloc, problem, actions, interval, guide);
        CutPlanner { planner, cut }
    }

    /// A planner that gets this cut.
    pub fn over(planner: Planner<Q, G>, cut: C) -> CutPlanner<Q, G, C>
        requires kept { IsKept Q.fits (task_from (problem_of Q.value planner.problem)
            (map (action_of Q.value) planner.actions.items) (Q.value planner.interval)) (C.says cut) }
        ensures planner { result.planner ≡ planner }
        ensures cut { result.cut ≡ cut }
    {
        CutPlanner { planner, cut }
    }
}

impl<Q: Exact, G: Guide<Q> + Drop, C: Cut<Q> + Drop> Space for CutPlanner<Q, G, C> {
    type Place = Place<Q>;

    ghost tree = { λ w. grid Q.fits (task_from (problem_of Q.value w.planner.problem) (map (action_of Q.value) w.planner.actions.items) (Q.value w.planner.interval)) (bounded (C.says w.cut)) };

    ghost path = { λ p. path_of p.taken.items };

    ghost stands = { λ w p. HoldsCut Q.fits (task_from (problem_of Q.value w.planner.problem) (map (action_of Q.value) w.planner.actions.items) (Q.value w.planner.interval)) (bounded (C.says w.cut)) p.start p.taken.items p.tried.items p.spares.items p.stepper.index };

    fn width(&self, place: &Place<Q>) -> u32 {
        self.planner.width(place)
    }

    fn step(&self, place: &mut Place<Q>, decision: u32) -> Result<Fate, AllocError> {
        self.planner.step(place, decision)
    }

    fn back(&self, place: &mut Place<Q>) -> Result<(), AllocError> {
        self.planner.back(place)
    }

    fn goal(&self, place: &Place<Q>) -> Goal {
        self.planner.goal(place)
    }

    fn guide(&self, place: &Place<Q>) -> u64 {
        self.planner.guide(place)
    }

    fn is_barren(&self, place: &Place<Q>, left: u32) -> bool {
        if left > MOST_DECISIONS {
            return false;
        }
        self.cut
            .is_barren(&self.planner.problem, place.now().state(), left)
    }

    ghost lawful = { λ w p h. h.tree };

    ghost alive = { λ w p h. h.holds.stands.behind.alive };
}
