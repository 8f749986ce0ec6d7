//! What takes a timeline on, by a look at those alone who may tell something new.
ghost use Rattle.std.specs.Prelude.{◌≡◌, [], ℕ, true, List, Some, None, IfOk, OnOk, OnErr};
ghost use Rattle.plus_fraction.specs.Fraction.{◌≤ℚ◌};
ghost use Rattle.plus_model.specs.Firing.{firing};
ghost use Rattle.plus_state.specs.View.{problem_of, action_of};
ghost use Rattle.plus_state.specs.Fits.{ActionFits};
ghost use Rattle.plus_stretch.specs.Tests.{AllPass};
ghost use Rattle.plus_timeline.specs.Asked.{round_tests};
ghost use Rattle.plus_timeline.specs.Stops.{IsGoing};
ghost use Rattle.plus_timeline.specs.Act.{ActTold};
ghost use Rattle.plus_timeline.specs.Finish.{IsPaused};
ghost use Rattle.plus_timeline.specs.Advance.{IsAhead, AdvanceTold};
ghost use Rattle.plus_indexed.specs.Knows.{MayHold, Knows};

use crate::kept::Kept;
use plus_cascade::DueRound;
use plus_number::exact::Exact;
use plus_reads::Index;
use plus_settle::Running;
use plus_state::problem::{Action, Ground};
use plus_timeline::stop::{cascade_stop, settle_stop};
use plus_timeline::{Next, Stop, Timeline};
use std::alloc::{AllocError, Global};
use std::marker::Model;
use std::rc::Rc;

/// An index of a problem, which copies share, and what is known of the present state of a timeline. It may go
/// from one timeline of the problem to another, where what is known is forgotten between them.
#[derive(Drop)]
pub struct Stepper<Q: Exact> {
    kept: Kept,
    // a running set and a round that are needed no more, whose memory the next ones take
    room: Running<Q>,
    spare: DueRound<Q>,
}

impl<Q: Exact> Model for Stepper<Q> {
    ghost use Rattle.plus_indexed.specs.Indexed.{Kept as KeptView};
    ghost use Rattle.plus_indexed.specs.IndexedCode.{coded_kept};

    ghost Value = { KeptView };

    ghost coded = { coded_kept };

    ghost view = { λ s. s.kept };
}

impl<Q: Exact> Stepper<Q> {
    /// Over this index, where nothing is known.
    pub fn new(alloc: Global, index: Rc<Index>) -> Stepper<Q>
        ensures { result ≡ record { index = index.value; events = None; processes = None } }
    {
        Stepper {
            kept: Kept::new(alloc, index),
            room: Running::none(alloc),
            spare: DueRound::none(alloc),
        }
    }

    /// The same, over the same index.
    pub fn copy(&self, alloc: Global) -> Result<Stepper<Q>, AllocError>
        ensures { IfOk result (λ s. s ≡ self.now) }
    {
        Ok(Stepper {
            kept: self.kept.copy(alloc)?,
            room: Running::none(alloc),
            spare: DueRound::none(alloc),
        })
    }

    /// Nothing is known from now on: it may be used with another timeline.
    pub fn forget(&mut self)
        ensures { self.new ≡ record (self.old) { events = None; processes = None } }
    {
        self.kept.forget();
    }

    /// Known from now on is that no event holds, and that what the conditions of events ask passes. It may be
    /// used with a timeline of which this is so.
    pub fn stay(&mut self)
        ensures { self.new ≡ record (self.old) { events = Some []; processes = None } }
    {
        self.kept.stay();
    }

    /// Does one thing, and says which, as `Timeline::advance` does. Where a round may be due only the
    /// events are looked at that fired in the last one, and those that read something that was changed
    /// since they were looked at; where the entry is closed only the processes that held, and those that
    /// read something that was changed or that moves; along a running set only the readers of what moves.
    #[inline(always)]
    pub fn advance(
        &mut self,
        timeline: &mut Timeline<Q>,
        ground: &Ground<Q>,
        until: Q,
    ) -> Result<Next<Q>, Stop<Q>>
        requires knows { IsGoing timeline.old →
            Knows Q.fits (problem_of Q.value ground.now) (record { line = timeline.old; kept = self.old }) }
        requires ahead { IsGoing timeline.old →
            IsAhead (timeline.old.now.running) (timeline.old.now.time) (Q.value until) }
        ensures told { AdvanceTold Q.value Q.fits (problem_of Q.value ground.now) (Q.value until)
            timeline.old timeline.new result }
        ensures refused { OnErr result (timeline.new ≡ record (timeline.old) { ended = true }) }
        ensures knows { OnOk result (Knows Q.fits (problem_of Q.value ground.now) (record { line = timeline.new; kept = self.new })) }
        ensures index { self.new.index ≡ self.old.index }
    {
        if timeline.has_ended() {
            return Err(Stop::Ended);
        }
        match self.next(timeline, ground, until) {
            Ok(next) => {
                self.kept.wake(timeline, next);
                Ok(next)
            }
            Err(stop) => {
                timeline.end();
                Err(stop)
            }
        }
    }

    /// The same where it is known besides that nothing is due at the present time: no event is looked at.
    pub fn leave(
        &mut self,
        timeline: &mut Timeline<Q>,
        ground: &Ground<Q>,
        until: Q,
    ) -> Result<Next<Q>, Stop<Q>>
        requires going { IsGoing timeline.old }
        requires knows { Knows Q.fits (problem_of Q.value ground.now) (record { line = timeline.old; kept = self.old }) }
        requires moment { timeline.old.now.running ≡ None }
        requires still { firing (problem_of Q.value ground.now) timeline.old.now.state ≡ [] }
        requires passed { AllPass Q.fits (round_tests (problem_of Q.value ground.now) timeline.old.now.fired timeline.old.now.state) }
        requires ahead { timeline.old.now.time ≤ℚ Q.value until }
        ensures told { AdvanceTold Q.value Q.fits (problem_of Q.value ground.now) (Q.value until)
            timeline.old timeline.new result }
        ensures refused { OnErr result (timeline.new ≡ record (timeline.old) { ended = true }) }
        ensures knows { OnOk result (Knows Q.fits (problem_of Q.value ground.now) (record { line = timeline.new; kept = self.new })) }
        ensures index { self.new.index ≡ self.old.index }
    {
        match self.rest(timeline, ground, until) {
            Ok(next) => {
                self.kept.wake(timeline, next);
                Ok(next)
            }
            Err(stop) => {
                timeline.end();
                Err(stop)
            }
        }
    }

    /// Does an action that is due at the present time, as `Timeline::act` does.
    #[inline(always)]
    pub fn act(
        &mut self,
        timeline: &mut Timeline<Q>,
        ground: &Ground<Q>,
        action: &Action<Q>,
        line: u32,
    ) -> Result<(), Stop<Q>>
        requires knows { IsGoing timeline.old →
            Knows Q.fits (problem_of Q.value ground.now) (record { line = timeline.old; kept = self.old }) }
        requires paused { IsGoing timeline.old → IsPaused timeline.old }
        requires action { IsGoing timeline.old →
            ActionFits (timeline.old.atoms) (timeline.old.fluents) (action_of Q.value action.now) }
        ensures told { ActTold Q.value Q.fits (problem_of Q.value ground.now)
            (action_of Q.value action.now) line timeline.old timeline.new result }
        ensures refused { OnErr result (timeline.new ≡ record (timeline.old) { ended = true }) }
        ensures knows { OnOk result (Knows Q.fits (problem_of Q.value ground.now) (record { line = timeline.new; kept = self.new })) }
        ensures index { self.new.index ≡ self.old.index }
    {
        match timeline.act(ground, action, line) {
            Ok(()) => {
                self.kept.wake_by_step(timeline);
                Ok(())
            }
            Err(stop) => Err(stop),
        }
    }

    // Does one thing. A refusal changes nothing.
    fn next(
        &mut self,
        timeline: &mut Timeline<Q>,
        ground: &Ground<Q>,
        until: Q,
    ) -> Result<Next<Q>, Stop<Q>>
        requires going { IsGoing timeline.old }
        requires knows { Knows Q.fits (problem_of Q.value ground.now) (record { line = timeline.old; kept = self.old }) }
        requires ahead { IsAhead (timeline.old.now.running) (timeline.old.now.time) (Q.value until) }
        ensures told { AdvanceTold Q.value Q.fits (problem_of Q.value ground.now) (Q.value until)
            timeline.old timeline.new result }
        ensures line { OnErr result (timeline.new ≡ timeline.old) }
        ensures kept { self.new ≡ record (self.old) { processes = self.new.processes } }
        ensures processes { (w : List ℕ) → self.new.processes ≡ Some w →
            MayHold Q.fits (problem_of Q.value ground.now) timeline.old.now.state w }
    {
        if timeline.is_running() {
            return self.kept.pass(ground, timeline, until);
        }
        match self.kept.due(ground, timeline, &mut self.spare) {
            Err(stop) => Err(cascade_stop(stop)),
            Ok(true) => match timeline.put_round(&mut self.spare) {
                Err(_) => Err(Stop::Memory),
                Ok(()) => Ok(Next::Round),
            },
            Ok(false) => self.rest(timeline, ground, until),
        }
    }

    // Where no event holds: the time is reached, or the entry is closed.
    fn rest(
        &mut self,
        timeline: &mut Timeline<Q>,
        ground: &Ground<Q>,
        until: Q,
    ) -> Result<Next<Q>, Stop<Q>>
        requires going { IsGoing timeline.old }
        requires knows { Knows Q.fits (problem_of Q.value ground.now) (record { line = timeline.old; kept = self.old }) }
        requires moment { timeline.old.now.running ≡ None }
        requires still { firing (problem_of Q.value ground.now) timeline.old.now.state ≡ [] }
        requires passed { AllPass Q.fits (round_tests (problem_of Q.value ground.now) timeline.old.now.fired timeline.old.now.state) }
        requires ahead { timeline.old.now.time ≤ℚ Q.value until }
        ensures told { AdvanceTold Q.value Q.fits (problem_of Q.value ground.now) (Q.value until)
            timeline.old timeline.new result }
        ensures line { OnErr result (timeline.new ≡ timeline.old) }
        ensures kept { self.new ≡ record (self.old) { processes = self.new.processes } }
        ensures processes { (w : List ℕ) → self.new.processes ≡ Some w →
            MayHold Q.fits (problem_of Q.value ground.now) timeline.old.now.state w }
    {
        match timeline.must_close(ground, until) {
            Err(stop) => Err(stop),
            Ok(false) => {
                timeline.arrive();
                Ok(Next::There)
            }
            Ok(true) => match self.kept.settled(ground, timeline, &mut self.room) {
                Err(stop) => Err(settle_stop(stop)),
                Ok(()) => {
                    timeline.run(&mut self.room);
                    Ok(Next::Run)
                }
            },
        }
    }
}
