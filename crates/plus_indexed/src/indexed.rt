//! A timeline, and what is kept between its calls.
ghost use Rattle.std.specs.Prelude.{◌≡◌, ◌≤◌, true, IfOk, OnOk, OnErr};
ghost use Rattle.plus_state.specs.View.{problem_of, action_of};
ghost use Rattle.plus_state.specs.Changes.{LeadsTo};
ghost use Rattle.plus_state.specs.Fits.{StateFits, ActionFits};
ghost use Rattle.plus_timeline.specs.Timeline.{begun, event_numbers, process_numbers};
ghost use Rattle.plus_timeline.specs.Stops.{IsGoing};
ghost use Rattle.plus_timeline.specs.Act.{ActTold};
ghost use Rattle.plus_timeline.specs.Finish.{IsPaused, FinishTold, TakesNoMemory};
ghost use Rattle.plus_timeline.specs.Advance.{IsAhead, AdvanceTold};
ghost use Rattle.plus_indexed.specs.Knows.{Knows};

use crate::stepper::Stepper;
use plus_crossing::rates::Rates;
use plus_number::exact::Exact;
use plus_reads::Index;
use plus_state::changes::Changes;
use plus_state::problem::{Action, Ground};
use plus_state::states::State;
use plus_state::term::{EventId, ProcessId};
use plus_timeline::{Next, Stop, Timeline};
use std::alloc::{AllocError, Global};
use std::marker::Model;
use std::rc::Rc;

/// A timeline with an index of its problem, which its copies share, and with what is known of the
/// present state.
#[derive(Drop)]
pub struct Indexed<Q: Exact> {
    timeline: Timeline<Q>,
    stepper: Stepper<Q>,
}

impl<Q: Exact> Model for Indexed<Q> {
    ghost use Rattle.plus_indexed.specs.Indexed.{IndexedView};
    ghost use Rattle.plus_indexed.specs.IndexedCode.{coded_indexed};

    ghost Value = { IndexedView };

    ghost coded = { coded_indexed };

    ghost view = { λ i. record { line = i.timeline; kept = i.stepper } };
}

impl<Q: Exact> Indexed<Q> {
    /// A timeline for this problem, and the index of it: the first entry, at time 0. `happenings`
    /// entries are allowed.
    pub fn begin(
        alloc: Global,
        ground: &Ground<Q>,
        happenings: u64,
    ) -> Result<Indexed<Q>, AllocError>
        requires { 1 ≤ happenings }
        ensures begun { IfOk result (λ t. t.line ≡ begun (problem_of Q.value ground.now) happenings) }
        ensures knows { IfOk result (Knows Q.fits (problem_of Q.value ground.now)) }
    {
        let index = Index::new(alloc, ground)?;
        let shared = Rc::new(alloc, index)?;
        let timeline = Timeline::begin(alloc, ground, happenings)?;
        Ok(Indexed {
            timeline,
            stepper: Stepper::new(alloc, shared),
        })
    }

    /// Does one thing, and says which, as `Timeline::advance` does, by a look at those alone who may tell
    /// something new (`Stepper`).
    #[inline(always)]
    pub fn advance(&mut self, ground: &Ground<Q>, until: Q) -> Result<Next<Q>, Stop<Q>>
        requires knows { IsGoing self.old.line → Knows Q.fits (problem_of Q.value ground.now) self.old }
        requires ahead { IsGoing self.old.line →
            IsAhead (self.old.line.now.running) (self.old.line.now.time) (Q.value until) }
        ensures told { AdvanceTold Q.value Q.fits (problem_of Q.value ground.now) (Q.value until)
            self.old.line self.new.line result }
        ensures refused { OnErr result (self.new.line ≡ record (self.old.line) { ended = true }) }
        ensures knows { OnOk result (Knows Q.fits (problem_of Q.value ground.now) self.new) }
    {
        self.stepper.advance(&mut self.timeline, ground, until)
    }

    /// Does an action that is due at the present time, as `Timeline::act` does.
    #[inline(always)]
    pub fn act(&mut self, ground: &Ground<Q>, action: &Action<Q>, line: u32) -> Result<(), Stop<Q>>
        requires knows { IsGoing self.old.line → Knows Q.fits (problem_of Q.value ground.now) self.old }
        requires paused { IsGoing self.old.line → IsPaused self.old.line }
        requires action { IsGoing self.old.line →
            ActionFits (self.old.line.atoms) (self.old.line.fluents) (action_of Q.value action.now) }
        ensures told { ActTold Q.value Q.fits (problem_of Q.value ground.now)
            (action_of Q.value action.now) line self.old.line self.new.line result }
        ensures refused { OnErr result (self.new.line ≡ record (self.old.line) { ended = true }) }
        ensures knows { OnOk result (Knows Q.fits (problem_of Q.value ground.now) self.new) }
    {
        self.stepper.act(&mut self.timeline, ground, action, line)
    }

    /// Whether the goal holds. Afterwards the timeline has ended.
    pub fn finish(&mut self, ground: &Ground<Q>) -> Result<(), Stop<Q>>
        requires knows { IsGoing self.old.line → Knows Q.fits (problem_of Q.value ground.now) self.old }
        requires paused { IsGoing self.old.line → IsPaused self.old.line }
        ensures told { FinishTold Q.value Q.fits (problem_of Q.value ground.now) self.old.line result }
        ensures memory { TakesNoMemory result }
        ensures after { self.new.line ≡ record (self.old.line) { ended = true } }
    {
        self.timeline.finish(ground)
    }

    /// The present time.
    pub fn time(&self) -> Q
        ensures { Q.value result ≡ self.now.line.now.time }
    {
        self.timeline.time()
    }

    /// The present state.
    pub fn state(&self) -> &State<Q>
        ensures state { result.now ≡ self.now.line.now.state }
        ensures fits { StateFits (self.now.line.atoms) (self.now.line.fluents) result.now }
    {
        self.timeline.state()
    }

    /// The state on arrival in the present entry, before its timed literals.
    pub fn arrival(&self) -> &State<Q>
        ensures state { result.now ≡ self.now.line.arrival }
        ensures fits { StateFits (self.now.line.atoms) (self.now.line.fluents) result.now }
    {
        self.timeline.arrival()
    }

    /// The state before the last round, action or stretch, and the initial state where there was none.
    pub fn before(&self) -> &State<Q>
        ensures state { result.now ≡ self.now.line.before }
        ensures fits { StateFits (self.now.line.atoms) (self.now.line.fluents) result.now }
    {
        self.timeline.before()
    }

    /// What the last round, action or stretch changed. It leads from the state before to the present one.
    pub fn changes(&self) -> &Changes<Q>
        ensures { LeadsTo self.now.line.before result.now self.now.line.now.state }
    {
        self.timeline.changes()
    }

    /// The events of the last round.
    pub fn events(&self) -> &[EventId]
        ensures { event_numbers result.now ≡ self.now.line.events }
    {
        self.timeline.events()
    }

    /// The last running set.
    pub fn running(&self) -> &[ProcessId]
        ensures { process_numbers result.now ≡ self.now.line.running }
    {
        self.timeline.running()
    }

    /// The net rates of the last running set.
    pub fn rates(&self) -> &Rates<Q>
        ensures { result.now ≡ self.now.line.rates }
    {
        self.timeline.rates()
    }

    /// Whether the present entry has a timed literal.
    pub fn has_literals(&self) -> bool
        ensures { result ≡ self.now.line.literal }
    {
        self.timeline.has_literals()
    }

    /// A timeline that goes on in the same way, over the same index.
    pub fn copy(&self, alloc: Global) -> Result<Indexed<Q>, AllocError>
        ensures { IfOk result (λ t. t ≡ self.now) }
    {
        let stepper = self.stepper.copy(alloc)?;
        let timeline = self.timeline.copy(alloc)?;
        Ok(Indexed { timeline, stepper })
    }
}
