//! What is found of constraints while a history grows.
ghost use Rattle.std.specs.Prelude.{◌≡◌, true, length, replicate, None, OnOk, IfOk, Err};
ghost use Rattle.plus_fraction.specs.Fraction.{◌-ℚ◌};
ghost use Rattle.plus_number.specs.Frac.{fraction_of, IsFrac64};
ghost use Rattle.plus_state.specs.Fits.{StateFits};
ghost use Rattle.plus_watcher.specs.Stands.{IsFirst};
ghost use Rattle.plus_watcher.specs.Looked.{is_going, IsReady, Notes, Sees, state_looks, first_looks, entry_looks, LooksAfter, LooksFirst, LooksEntering};

use crate::rules::Rules;
use plus_crossing::node::CondStop;
use plus_crossing::rates::Rates;
use plus_indexed::Indexed;
use plus_number::consts::zero;
use plus_number::exact::Exact;
use plus_number::frac::Frac64;
use plus_state::states::State;
use plus_watch::place::Place;
use plus_watch::watched::Watched;
use plus_watch::watching::{WatchHalt, pass, see, see_both};
use std::alloc::{AllocError, Global};

/// How far constraints are watched.
#[derive(Clone, Copy)]
pub enum Standing {
    /// All parts so far are looked at.
    Going,
    /// The condition of the constraint at this place in the list meets a limit.
    Limit(usize, CondStop<Frac64>),
    /// A stretch has no length, or a state is of another problem: never where the plan stays inside its limits.
    Lost,
}

/// One who watches constraints while a history grows.
#[derive(Drop)]
pub struct Watcher<'w> {
    pub alloc: Global,
    pub rules: Rules<'w>,
    /// The first place of each constraint, where one is found.
    pub firsts: Vec<Option<Place<Frac64>>>,
    /// The time of the last moment.
    pub since: Frac64,
    pub standing: Standing,
}

// No place of any of these constraints.
fn none_yet(
    alloc: Global,
    watched: &[Watched<Frac64>],
) -> Result<Vec<Option<Place<Frac64>>>, AllocError>
    ensures { IfOk result (λ firsts. firsts.items ≡ replicate (length watched.now) None) }
{
    let mut firsts = Vec::with_capacity(alloc, watched.len())?;
    'each: for _one in watched {
        firsts.push(None)?;
    }
    Ok(firsts)
}

impl<'w> Watcher<'w> {
    /// One who has looked at nothing yet.
    pub fn new(alloc: Global, rules: Rules<'w>) -> Result<Watcher<'w>, AllocError>
        ensures first { IfOk result IsFirst }
        ensures rules { IfOk result (λ w. w.rules ≡ rules.entry) }
    {
        let firsts = none_yet(alloc, rules.watched)?;
        Ok(Watcher {
            alloc,
            rules,
            firsts,
            since: zero(),
            standing: Standing::Going,
        })
    }
}

impl Watcher<'_> {
    // Whether all parts so far are looked at.
    fn is_going(&self) -> bool
        ensures { result ≡ is_going self.now.standing }
    {
        match self.standing {
            Standing::Going => true,
            Standing::Limit(_, _) => false,
            Standing::Lost => false,
        }
    }

    // Whether a state is of the problem of the constraints, and there is a place for each.
    fn is_ready(&self, state: &State<Frac64>) -> bool
        ensures yes { result ≡ true → IsReady self.now state.now }
        ensures no { IsReady self.now state.now → result ≡ true }
    {
        state.atoms() == self.rules.atoms
            && state.fluents() == self.rules.fluents
            && self.firsts.len() == self.rules.watched.len()
    }

    // Notes a limit that a constraint meets.
    fn note_halt(&mut self, halt: WatchHalt<Frac64>) -> Result<(), AllocError>
        ensures noted { OnOk result (Notes self.old self.new (Err halt)) }
        ensures rules { self.new.rules ≡ self.old.rules }
    {
        match halt {
            WatchHalt::Limit(index, stop) => {
                self.standing = Standing::Limit(index, stop);
                Ok(())
            }
            WatchHalt::Memory => Err(AllocError),
        }
    }

    // Notes what the looks tell.
    fn note(&mut self, told: Result<(), WatchHalt<Frac64>>) -> Result<(), AllocError>
        ensures noted { OnOk result (Notes self.old self.new told) }
        ensures rules { self.new.rules ≡ self.old.rules }
    {
        match told {
            Ok(()) => Ok(()),
            Err(halt) => self.note_halt(halt),
        }
    }

    // Looks in a state at the time of the last moment.
    fn look(&mut self, state: &State<Frac64>) -> Result<(), AllocError>
        requires going { is_going self.old.standing ≡ true }
        requires ready { IsReady self.old state.now }
        ensures sees { OnOk result (Sees (fraction_of self.old.since) (state_looks self.old state.now) self.old self.new) }
        ensures rules { self.new.rules ≡ self.old.rules }
    {
        let told = see(self.rules.watched, &mut self.firsts, self.since, state);
        self.note(told)
    }

    /// Looks in the state after a round or an action.
    pub fn after(&mut self, state: &State<Frac64>) -> Result<(), AllocError>
        ensures looked { OnOk result (LooksAfter state.now self.old self.new) }
        ensures rules { self.new.rules ≡ self.old.rules }
    {
        if !self.is_going() {
            return Ok(());
        }
        if !self.is_ready(state) {
            self.standing = Standing::Lost;
            return Ok(());
        }
        self.look(state)
    }

    // Looks at a moment that ends no stretch.
    fn look_both(&mut self, timeline: &Indexed<Frac64>) -> Result<(), AllocError>
        requires going { is_going self.old.standing ≡ true }
        requires ready { IsReady self.old timeline.now.line.now.state }
        ensures sees { OnOk result (Sees timeline.now.line.now.time (first_looks timeline.now.line) self.old self.new) }
        ensures rules { self.new.rules ≡ self.old.rules }
    {
        let time = timeline.time();
        let told = see_both(
            self.rules.watched,
            &mut self.firsts,
            time,
            timeline.arrival(),
            timeline.state(),
        );
        self.since = time;
        self.note(told)
    }

    /// Looks at the first moment.
    pub fn first(&mut self, timeline: &Indexed<Frac64>) -> Result<(), AllocError>
        ensures looked { OnOk result (LooksFirst timeline.now.line self.old self.new) }
        ensures fits { StateFits timeline.now.line.atoms timeline.now.line.fluents timeline.now.line.now.state }
        ensures rules { self.new.rules ≡ self.old.rules }
    {
        let state = timeline.state();
        if !self.is_going() {
            return Ok(());
        }
        if !self.is_ready(state) {
            self.standing = Standing::Lost;
            return Ok(());
        }
        self.look_both(timeline)
    }

    // Looks along a stretch that has a length, and at the moment that ends it.
    fn look_along(&mut self, timeline: &Indexed<Frac64>) -> Result<(), AllocError>
        requires going { is_going self.old.standing ≡ true }
        requires ready { IsReady self.old timeline.now.line.now.state }
        requires passed { IsFrac64 (timeline.now.line.now.time -ℚ fraction_of self.old.since) }
        requires rates { length timeline.now.line.rates ≡ length timeline.now.line.before.fluents }
        ensures sees { OnOk result (Sees timeline.now.line.now.time (entry_looks self.old timeline.now.line) self.old self.new) }
        ensures rules { self.new.rules ≡ self.old.rules }
    {
        let time = timeline.time();
        let told = pass(
            self.alloc,
            self.rules.watched,
            &mut self.firsts,
            self.since,
            timeline.before(),
            timeline.rates(),
            time,
            timeline.arrival(),
            timeline.state(),
        );
        self.since = time;
        self.note(told)
    }

    /// Looks along the stretch that a moment ends, and at the moment.
    pub fn enter(&mut self, timeline: &Indexed<Frac64>) -> Result<(), AllocError>
        requires rates { length timeline.now.line.rates ≡ length timeline.now.line.before.fluents }
        ensures looked { OnOk result (LooksEntering timeline.now.line self.old self.new) }
        ensures fits { StateFits timeline.now.line.atoms timeline.now.line.fluents timeline.now.line.now.state }
        ensures rules { self.new.rules ≡ self.old.rules }
    {
        let state = timeline.state();
        if !self.is_going() {
            return Ok(());
        }
        let passed = timeline.time().sub(self.since);
        if passed.is_err() || !self.is_ready(state) {
            self.standing = Standing::Lost;
            return Ok(());
        }
        self.look_along(timeline)
    }
}
