//! A bounded search for a plan on a grid of times.
ghost use Rattle.std.specs.Prelude.{◌≡◌, ◌+◌, ◌*◌, ◌^◌, ◌<◌, ◌≤◌, [], map, length, pos, IfOk, OnOk, None};
ghost use Rattle.plus_fraction.specs.Fraction.{whole};
ghost use Rattle.plus_state.specs.View.{problem_of, action_of};
ghost use Rattle.plus_timeline.specs.Timeline.{begun};
ghost use Rattle.plus_reads.specs.Indexing.{Indexes};
ghost use Rattle.plus_planner.specs.Standing.{Carried};
ghost use Rattle.plus_planner.specs.Places.{task_from, path_of, most_entries};
ghost use Rattle.plus_planner.specs.Kin.{IsKin, IsRooted};
ghost use Rattle.plus_planner.specs.Worlds.{Holds};
ghost use Rattle.plus_planner.specs.Searches.{Answers, IsNotSpent};

use crate::carrying::carry;
use crate::guides::Guide;
use crate::listing::listed;
use crate::places::Place;
use crate::planner::Planner;
use plus_indexed::Stepper;
use plus_number::consts::zero;
use plus_number::exact::Exact;
use plus_reads::Index;
use plus_search::{Fate, Found, search};
use plus_state::problem::Ground;
use plus_state::{State, TimedPlan};
use plus_timeline::Timeline;
use std::alloc::{AllocError, Global};
use std::rc::Rc;

// How many moments a history of a search may enter.
const MOST_ENTRIES: u64 = 10_000;

// A state with more atoms or more fluents is large: it costs less to note what is changed than to copy one.
const FEW_ATOMS: u32 = 4_096;

const FEW_FLUENTS: u32 = 64;

/// What a search comes to.
#[derive(Drop)]
pub enum Answer<Q> {
    /// A plan.
    Plan(TimedPlan<Q>),
    /// There is none. So many lists of decisions are beyond a limit.
    NoPlan { beyond: u64 },
    /// More lists of decisions than this may have to be tried.
    Spent { tried: u64 },
}

fn is_large<Q: Exact>(state: &State<Q>) -> bool {
    state.atoms() > FEW_ATOMS || state.fluents() > FEW_FLUENTS
}

// Where the state is large, it is the root from now on.
fn root_large<Q: Exact>(timeline: &mut Timeline<Q>)
    ensures { IsRooted timeline.old timeline.new }
{
    if is_large(timeline.state()) {
        timeline.set_root();
    }
}

// What takes timelines of this problem on.
fn stepper_for<Q: Exact>(alloc: Global, ground: &Ground<Q>) -> Result<Stepper<Q>, AllocError>
    ensures index { IfOk result (λ s. Indexes (problem_of Q.value ground.now) s.index) }
    ensures events { IfOk result (λ s. s.events ≡ None) }
    ensures processes { IfOk result (λ s. s.processes ≡ None) }
{
    let index = Index::new(alloc, ground)?;
    let shared = Rc::new(alloc, index)?;
    Ok(Stepper::new(alloc, shared))
}

// The timeline that was begun and carried to time 0, and what that comes to.
fn first<Q: Exact>(
    alloc: Global,
    ground: &Ground<Q>,
    stepper: &mut Stepper<Q>,
) -> Result<(Timeline<Q>, Fate), AllocError>
    requires index { Indexes (problem_of Q.value ground.now) stepper.old.index }
    requires events { stepper.old.events ≡ None }
    requires processes { stepper.old.processes ≡ None }
    ensures carried { IfOk result (λ r. Carried Q.fits (problem_of Q.value ground.now) (whole (pos 0))
        (begun (problem_of Q.value ground.now) most_entries) r.0 r.1) }
    ensures kin { IfOk result (λ r. IsKin (problem_of Q.value ground.now) r.0) }
    ensures index { OnOk result (stepper.new.index ≡ stepper.old.index) }
{
    let mut timeline = Timeline::begin(alloc, ground, MOST_ENTRIES)?;
    root_large(&mut timeline);
    match carry(stepper, &mut timeline, ground, zero()) {
        Ok(fate) => Ok((timeline, fate)),
        Err(error) => {
            // By a call, as below.
            drop(timeline);
            Err(error)
        }
    }
}

/// The place at the beginning of a ground problem, and what becomes of the timeline there. No decision is taken yet.
pub fn beginning<Q: Exact>(
    alloc: Global,
    ground: &Ground<Q>,
) -> Result<(Place<Q>, Fate), AllocError>
    ensures carried { IfOk result (λ r. Carried Q.fits (problem_of Q.value ground.now) (whole (pos 0))
        (begun (problem_of Q.value ground.now) most_entries) r.0.start r.1) }
    ensures kin { IfOk result (λ r. IsKin (problem_of Q.value ground.now) r.0.start) }
    ensures taken { IfOk result (λ r. r.0.taken.items ≡ []) }
    ensures tried { IfOk result (λ r. r.0.tried.items ≡ []) }
    ensures spares { IfOk result (λ r. r.0.spares.items ≡ []) }
    ensures index { IfOk result (λ r. Indexes (problem_of Q.value ground.now) r.0.stepper.index) }
{
    let mut stepper = stepper_for(alloc, ground)?;
    match first(alloc, ground, &mut stepper) {
        Ok((start, fate)) => Ok((Place::begin(alloc, start, stepper), fate)),
        Err(error) => {
            drop(stepper);
            Err(error)
        }
    }
}

impl<Q: Exact, G: Guide<Q> + Drop> Planner<Q, G> {
    /// Searches for a plan of at most so many decisions, and tries no more lists of them than may be
    /// tried. It goes depth first. The guide changes the order alone.
    pub fn search(&self, decisions: u32, tries: u64) -> Result<Answer<Q>, AllocError>
        requires few { decisions ≤ 64 }
        requires tries { tries < u64.MAX }
        ensures answers { IfOk result (Answers Q.value Q.fits (task_from (problem_of Q.value self.now.problem)
            (map (action_of Q.value) self.now.actions.items) (Q.value self.now.interval)) decisions tries) }
        ensures enough { (decisions + 1) * ((length (self.now.actions.items) + 2) ^ decisions) ≤ tries →
            IfOk result IsNotSpent }
    {
        let (mut place, fate) = beginning(self.alloc, &self.problem)?;
        let answer = match fate {
            Fate::Alive => self.search_from(&mut place, decisions, tries),
            Fate::Broken => Ok(Answer::NoPlan { beyond: 0 }),
            Fate::Beyond => Ok(Answer::NoPlan { beyond: 1 }),
        };
        // By a call: what drops a place is long, and would stand here at each way out.
        drop(place);
        answer
    }

    // Searches from the place at the beginning.
    fn search_from(
        &self,
        place: &mut Place<Q>,
        decisions: u32,
        tries: u64,
    ) -> Result<Answer<Q>, AllocError>
        requires stands { Holds Q.fits (task_from (problem_of Q.value self.now.problem)
            (map (action_of Q.value) self.now.actions.items) (Q.value self.now.interval))
            place.old.start place.old.taken.items place.old.tried.items place.old.spares.items place.old.stepper.index }
        requires first { path_of place.old.taken.items ≡ [] }
        requires tries { tries < u64.MAX }
        ensures answers { IfOk result (Answers Q.value Q.fits (task_from (problem_of Q.value self.now.problem)
            (map (action_of Q.value) self.now.actions.items) (Q.value self.now.interval)) decisions tries) }
        ensures enough { (decisions + 1) * ((length (self.now.actions.items) + 2) ^ decisions) ≤ tries →
            IfOk result IsNotSpent }
    {
        let found = search(self.alloc, self, place, decisions, tries)?;
        match found {
            Found::Plan => {
                let plan = listed(self.alloc, &self.actions, place)?;
                Ok(Answer::Plan(plan))
            }
            Found::NoPlan { beyond } => Ok(Answer::NoPlan { beyond }),
            Found::Spent => Ok(Answer::Spent { tried: tries }),
        }
    }
}
