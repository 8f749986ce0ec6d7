//! What is searched: a tree of decisions over a ground problem.
ghost use Rattle.std.specs.Prelude.{◌≡◌, map};
ghost use Rattle.plus_state.specs.View.{problem_of, action_of};
ghost use Rattle.plus_planner.specs.Places.{task_from, uncut, path_of, CanSearch};
ghost use Rattle.plus_planner.specs.Once.{CanSearch-prop};
ghost use Rattle.plus_planner.specs.Worlds.{Holds};

use crate::deciding::decide;
use crate::guides::Guide;
use crate::places::Place;
use plus_number::exact::Exact;
use plus_search::{Fate, Goal, Space};
use plus_state::problem::{Action, Ground};
use plus_state::truth::holds;
use std::alloc::{AllocError, Global};

/// A planner for a ground problem: its actions, the interval of the grid, and the guide, which is lent the
/// problem.
#[derive(Drop)]
pub struct Planner<Q: Exact, G: Guide<Q> + Drop> {
    pub alloc: Global,
    pub problem: Ground<Q>,
    pub actions: Vec<Action<Q>>,
    pub interval: Q,
    pub guide: G,
    pub ghost can: { CanSearch (task_from (problem_of Q.value problem) (map (action_of Q.value) actions.items) (Q.value interval)) } by { CanSearch-prop (task_from (problem_of Q.value problem) (map (action_of Q.value) actions.items) (Q.value interval)) },
}

impl<Q: Exact, G: Guide<Q> + Drop> Planner<Q, G> {
    /// A planner for these actions of a ground problem, on the grid of this interval.
    pub fn new(
        alloc: Global,
        problem: Ground<Q>,
        actions: Vec<Action<Q>>,
        interval: Q,
        guide: G,
    ) -> Planner<Q, G>
        requires can { CanSearch (task_from (problem_of Q.value problem) (map (action_of Q.value) actions.items)
            (Q.value interval)) }
        ensures problem { result.problem ≡ problem }
        ensures actions { result.actions ≡ actions }
        ensures interval { result.interval ≡ interval }
    {
        Planner {
            alloc,
            problem,
            actions,
            interval,
            guide,
        }
    }
}

impl<Q: Exact, G: Guide<Q> + Drop> Space for Planner<Q, G> {
    type Place = Place<Q>;

    ghost tree = { λ w. uncut Q.fits (task_from (problem_of Q.value w.problem) (map (action_of Q.value) w.actions.items) (Q.value w.interval)) };

    ghost path = { λ p. path_of p.taken.items };

    ghost stands = { λ w p. Holds Q.fits (task_from (problem_of Q.value w.problem) (map (action_of Q.value) w.actions.items) (Q.value w.interval)) p.start p.taken.items p.tried.items p.spares.items p.stepper.index };

    fn width(&self, _place: &Place<Q>) -> u32 {
        self.actions.len() as u32 + 1
    }

    fn step(&self, place: &mut Place<Q>, decision: u32) -> Result<Fate, AllocError> {
        match place.find(decision) {
            Some(index) => {
                place.again(index)?;
                Ok(Fate::Alive)
            }
            None => decide(
                self.alloc,
                &self.problem,
                &self.actions,
                self.interval,
                place,
                decision,
            ),
        }
    }

    fn back(&self, place: &mut Place<Q>) -> Result<(), AllocError> {
        match place.taken.pop() {
            Some(taken) => place.keep(taken),
            None => unreachable!(),
        }
    }

    fn goal(&self, place: &Place<Q>) -> Goal {
        match holds(&self.problem.goal, place.now().state()) {
            Ok(true) => Goal::Reached,
            Ok(false) => Goal::Missed,
            Err(_) => Goal::Unclear,
        }
    }

    fn guide(&self, place: &Place<Q>) -> u64 {
        self.guide.number(&self.problem, place.now().state())
    }

    fn is_barren(&self, _place: &Place<Q>, _left: u32) -> bool {
        false
    }

    ghost lawful = { λ w p h. h.stands.tree };

    ghost alive = { λ w p h. h.stands.behind.alive };
}
