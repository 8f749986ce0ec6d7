//! A timeline: a history that is played one part at a time, and of which only the view is kept.
ghost use Rattle.std.specs.Prelude.{◌≡◌, ◌≤◌, ◌<◌, ◌↔◌, IsTrue, true, false, Option, Some, None, Ok, Err, [], length, option_map, All, IfOk, IfErr, IfSome, MatchBool, OnOk, OnErr};
ghost use Rattle.plus_fraction.specs.Fraction.{◌<ℚ◌, ◌≤ℚ◌};
ghost use Rattle.plus_model.specs.Firing.{firing};
ghost use Rattle.plus_model.specs.History.{view_after, Act, Run as Runs, Round as Rounds};
ghost use Rattle.plus_model.specs.Trajectory.{literals};
ghost use Rattle.plus_state.specs.View.{problem_of, action_of};
ghost use Rattle.plus_state.specs.Changes.{patched, RisesIn, LeadsTo};
ghost use Rattle.plus_state.specs.Fits.{StateFits, ActionFits};
ghost use Rattle.plus_state.specs.Walk.{event_conditions};
ghost use Rattle.plus_state.specs.Looked.{events_looked, processes_looked, AreKnown};
ghost use Rattle.plus_stretch.specs.Among.{AreKnownAlong};
ghost use Rattle.plus_stretch.specs.Tests.{AllPass};
ghost use Rattle.plus_timeline.specs.Serving.{Serves};
ghost use Rattle.plus_timeline.specs.EntryStates.{IsReached};
ghost use Rattle.plus_stretch.specs.Arrives.{arrived_at, StretchTold};
ghost use Rattle.plus_timeline.specs.Timeline.{TimelineView, begun, has_literal, next_of, event_numbers, process_numbers};
ghost use Rattle.plus_timeline.specs.Asked.{round_tests};
ghost use Rattle.plus_cascade.specs.Rounds.{if_due};
ghost use Rattle.plus_timeline.specs.Due.{DueTold};
ghost use Rattle.plus_timeline.specs.Stops.{IsGoing};
ghost use Rattle.plus_timeline.specs.Act.{ActTold};
ghost use Rattle.plus_timeline.specs.Finish.{IsPaused, FinishTold, TakesNoMemory};
ghost use Rattle.plus_timeline.specs.Advance.{IsAhead, EntersAt, AdvanceTold};
ghost use Rattle.plus_timeline.specs.Forked.{forked, CanRefork};
ghost use Rattle.plus_timeline.specs.Closing.{CanClose, IsReachedBy};

use crate::copies::{copied_cascade, copied_last};
use crate::effect::action_changes_in;
use crate::entry::EntryStates;
use crate::literals::{are_there, bound, literal_changes};
use crate::next::Next;
use crate::stop::{Stop, cascade_stop, halt_stop, settle_stop};
use plus_cascade::{Cascade, CascadeStop, DueRound, due_round};
use plus_crossing::crossings::is_below;
use plus_crossing::rates::Rates;
use plus_number::consts::zero;
use plus_number::exact::Exact;
use plus_settle::settling::{Running, settle};
use plus_state::changes::Changes;
use plus_state::looked::Looked;
use plus_state::outcome::{Breach, Limit};
use plus_state::problem::{Action, Ground};
use plus_state::states::State;
use plus_state::term::{EventId, ProcessId};
use plus_state::truth::holds;
use plus_stretch::{Ahead, Halt};
use std::alloc::{AllocError, Global};
use std::marker::Model;
use std::mem;

/// A history that is played one part at a time. It keeps no parts, but what the next one depends on,
/// and what the last one was.
#[derive(Drop)]
pub struct Timeline<Q: Exact> {
    alloc: Global,
    time: Q,
    states: EntryStates<Q>,
    // the events that have fired in this cascade, as a set and in order
    cascade: Cascade,
    fired: Vec<EventId>,
    // those of the last round
    events: Vec<EventId>,
    running: Running<Q>,
    literal: bool,
    // about where the first literal after the present time stands: whatever it is, the answers are the same
    next_literal: usize,
    lines: u64,
    entries: u64,
    most: u64,
    answer: Option<Next<Q>>,
    acted: bool,
    ended: bool,
}

impl<Q: Exact> Model for Timeline<Q> {
    ghost use Rattle.std.specs.Prelude.{◌≡◌, [], false, length, option_map};
    ghost use Rattle.plus_timeline.specs.Timeline.{TimelineView};
    ghost use Rattle.plus_timeline.specs.TimelineCode.{coded_timeline};

    ghost Value = { TimelineView };

    ghost coded = { coded_timeline };

    ghost use Rattle.plus_timeline.specs.Timeline.{next_of, event_numbers, process_numbers, running_by, Keeps};

    ghost view = { λ t. record {
      now = record {
        time = Q.value t.time;
        state = t.states.state;
        fired = event_numbers t.fired.items;
        running = running_by (option_map (next_of Q.value) t.answer)
            (process_numbers t.running.members.items);
        acted = t.lines;
      };
      before = t.states.before;
      arrival = t.states.arrival;
      root = t.states.root;
      literal = t.literal;
      events = event_numbers t.events.items;
      running = process_numbers t.running.members.items;
      rates = t.running.rates;
      entries = t.entries;
      most = t.most;
      answer = option_map (next_of Q.value) t.answer;
      acted = t.acted;
      ended = t.ended;
      atoms = length (t.states.state.atoms);
      fluents = length (t.states.state.fluents);
      event_count = length t.cascade;
    } };

    ghost invariant = { λ t. Keeps t.states.state t.states.before t.states.arrival
        (length (t.states.state.atoms)) (length (t.states.state.fluents))
        t.cascade (event_numbers t.fired.items)
        (option_map (next_of Q.value) t.answer) t.entries t.most };
}

impl<Q: Exact> Timeline<Q> {
    /// A timeline for this problem: the first entry, at time 0. `happenings` entries are allowed.
    pub fn begin(
        alloc: Global,
        ground: &Ground<Q>,
        happenings: u64,
    ) -> Result<Timeline<Q>, AllocError>
        requires { 1 ≤ happenings }
        ensures { IfOk result (λ t. t ≡ begun (problem_of Q.value ground.now) happenings) }
    {
        let time = zero();
        let mut next_literal = 0;
        let cascade = plus_cascade::begin(alloc, ground)?;
        let literals = literal_changes(alloc, ground, time, &mut next_literal)?;
        let literal = are_there(&literals);
        let states = EntryStates::begin(alloc, &ground.initial, literals)?;
        Ok(Timeline {
            alloc,
            time,
            literal,
            states,
            cascade,
            fired: Vec::new(alloc),
            events: Vec::new(alloc),
            running: Running::none(alloc),
            next_literal,
            lines: 0,
            entries: 1,
            most: happenings,
            answer: None,
            acted: false,
            ended: false,
        })
    }

    /// Does one thing, and says which: a round fires, the entry is closed with a running set, the next
    /// entry is begun, or the time asked for is reached. That time is not below the present one, and
    /// later after `Run`; a timed literal before it begins an entry first. The problem is the one that
    /// the timeline was begun with, or one in which the last answer stands too. A refusal is the first
    /// test that fails: of a cascade the conditions of all events, an event that would fire twice and
    /// then the joint effect; where the entry is closed, the count of entries and what settling asks;
    /// along a running set what `plus_stretch::reach` asks. `Ended` comes exactly after a refusal or
    /// `finish`. A call costs what the conditions of all events and processes read, and what changes.
    pub fn advance(&mut self, ground: &Ground<Q>, until: Q) -> Result<Next<Q>, Stop<Q>>
        requires serves { IsGoing self.old → Serves (problem_of Q.value ground.now) self.old }
        requires ahead { IsGoing self.old →
            IsAhead (self.old.now.running) (self.old.now.time) (Q.value until) }
        ensures told { AdvanceTold Q.value Q.fits (problem_of Q.value ground.now) (Q.value until)
            self.old self.new result }
        ensures refused { OnErr result (self.new ≡ record (self.old) { ended = true }) }
    {
        if self.has_ended() {
            return Err(Stop::Ended);
        }
        match self.next(ground, until) {
            Ok(next) => Ok(next),
            Err(stop) => {
                self.end();
                Err(stop)
            }
        }
    }

    /// Does an action that is due at the present time: its condition holds, and its joint effect is done.
    /// `line` is the number of its line in the plan's text, which a breach names. It follows a `There`,
    /// and the cascade after it is fired by `advance`. A refusal is the first test that fails: the
    /// condition, then the joint effect.
    #[inline(always)]
    pub fn act(&mut self, ground: &Ground<Q>, action: &Action<Q>, line: u32) -> Result<(), Stop<Q>>
        requires serves { IsGoing self.old → Serves (problem_of Q.value ground.now) self.old }
        requires paused { IsGoing self.old → IsPaused self.old }
        requires action { IsGoing self.old →
            ActionFits (self.old.atoms) (self.old.fluents) (action_of Q.value action.now) }
        ensures told { ActTold Q.value Q.fits (problem_of Q.value ground.now)
            (action_of Q.value action.now) line self.old self.new result }
        ensures refused { OnErr result (self.new ≡ record (self.old) { ended = true }) }
    {
        if self.has_ended() {
            return Err(Stop::Ended);
        }
        if !self.can_count() {
            self.end();
            return Err(Stop::Memory);
        }
        let mut changes = self.take_spare();
        match action_changes_in(&mut changes, self.alloc(), self.state(), action, line) {
            Ok(()) => match self.put_changes(changes) {
                Ok(()) => Ok(()),
                Err(_) => {
                    self.end();
                    Err(Stop::Memory)
                }
            },
            Err(stop) => {
                self.end();
                Err(stop)
            }
        }
    }

    /// Whether the goal holds. Afterwards the timeline has ended.
    pub fn finish(&mut self, ground: &Ground<Q>) -> Result<(), Stop<Q>>
        requires serves { IsGoing self.old → Serves (problem_of Q.value ground.now) self.old }
        requires paused { IsGoing self.old → IsPaused self.old }
        ensures told { FinishTold Q.value Q.fits (problem_of Q.value ground.now) self.old result }
        ensures memory { TakesNoMemory result }
        ensures after { self.new ≡ record (self.old) { ended = true } }
    {
        if self.has_ended() {
            return Err(Stop::Ended);
        }
        let truth = holds(&ground.goal, self.state());
        self.end();
        match truth {
            Ok(true) => Ok(()),
            Ok(false) => Err(Stop::Breach(Breach::Goal)),
            Err(overflow) => Err(Stop::Limit(Limit::Number(overflow))),
        }
    }

    /// The present time.
    pub fn time(&self) -> Q
        ensures { Q.value result ≡ self.now.now.time }
    {
        self.time
    }

    /// The present state.
    pub fn state(&self) -> &State<Q>
        ensures state { result.now ≡ self.now.now.state }
        ensures fits { StateFits (self.now.atoms) (self.now.fluents) result.now }
    {
        self.states.state()
    }

    /// The state on arrival in the present entry, before its timed literals.
    pub fn arrival(&self) -> &State<Q>
        ensures state { result.now ≡ self.now.arrival }
        ensures fits { StateFits (self.now.atoms) (self.now.fluents) result.now }
    {
        self.states.arrival()
    }

    /// The state before the last round, action or stretch, and the initial state where there was none.
    pub fn before(&self) -> &State<Q>
        ensures state { result.now ≡ self.now.before }
        ensures fits { StateFits (self.now.atoms) (self.now.fluents) result.now }
    {
        self.states.before()
    }

    /// What the last round, action or stretch changed: each atom and each fluent at most once, by
    /// their numbers. They lead from the state before to the present one.
    pub fn changes(&self) -> &Changes<Q>
        ensures { LeadsTo self.now.before result.now self.now.now.state }
    {
        self.states.changes()
    }

    /// The events of the last round.
    pub fn events(&self) -> &[EventId]
        ensures { event_numbers result.now ≡ self.now.events }
    {
        &self.events
    }

    /// The last running set.
    pub fn running(&self) -> &[ProcessId]
        ensures { process_numbers result.now ≡ self.now.running }
    {
        &self.running.members
    }

    /// The net rates under the last running set.
    pub fn rates(&self) -> &Rates<Q>
        ensures { result.now ≡ self.now.rates }
    {
        &self.running.rates
    }

    /// Whether the present entry has a timed literal.
    pub fn has_literals(&self) -> bool
        ensures { result ≡ self.now.literal }
    {
        self.literal
    }

    /// A timeline that goes on in the same way.
    pub fn copy(&self, alloc: Global) -> Result<Timeline<Q>, AllocError>
        ensures { IfOk result (λ t. t ≡ self.now) }
    {
        let (cascade, fired) = copied_cascade(alloc, &self.cascade, &self.fired)?;
        let (events, running) = copied_last(alloc, &self.events, &self.running)?;
        let states = self.states.copy(alloc)?;
        Ok(Timeline {
            alloc,
            time: self.time,
            states,
            cascade,
            fired,
            events,
            running,
            literal: self.literal,
            next_literal: self.next_literal,
            lines: self.lines,
            entries: self.entries,
            most: self.most,
            answer: self.answer,
            acted: self.acted,
            ended: self.ended,
        })
    }

    /// The present state is the root from now on: what is changed from here is noted, until the root is
    /// forgotten. That costs as much again as the change, and lets a timeline that is needed no more become
    /// another one (`refork`) at the cost of what was changed in both, however large their states are.
    pub fn set_root(&mut self)
        ensures { self.new ≡ record (self.old) { root = Some self.old.now.state } }
    {
        self.states.set_root(self.alloc);
    }

    /// Nothing more is noted.
    pub fn forget_root(&mut self)
        ensures { self.new ≡ record (self.old) { root = None } }
    {
        self.states.forget_root();
    }

    /// Whether more is noted than a state has: then it costs less to copy one.
    pub fn is_far(&self) -> bool {
        self.states.is_far()
    }

    /// A timeline that goes on in the same way after a `There`. It forgets the states that led to the
    /// present one, the last round and the last running set, and so costs less than a copy.
    pub fn fork(&self, alloc: Global) -> Result<Timeline<Q>, AllocError>
        requires { self.now.answer ≡ Some Next.There }
        ensures moment { self.now.now.running ≡ None }
        ensures forked { IfOk result (λ t. t ≡ forked self.now) }
    {
        let (cascade, fired) = copied_cascade(alloc, &self.cascade, &self.fired)?;
        let states = self.states.fork(alloc)?;
        Ok(Timeline {
            alloc,
            time: self.time,
            states,
            cascade,
            fired,
            events: Vec::new(alloc),
            running: Running::none(alloc),
            literal: self.literal,
            next_literal: self.next_literal,
            lines: self.lines,
            entries: self.entries,
            most: self.most,
            answer: self.answer,
            acted: self.acted,
            ended: self.ended,
        })
    }

    /// Makes a timeline that is needed no more what `fork` makes of another one. Where both have a root, it
    /// costs what was changed since then, in both, and the events that fired in their cascades; it takes no
    /// memory but for what is noted. After a refusal anything may have become of it.
    pub fn refork(&mut self, from: &Timeline<Q>) -> Result<(), AllocError>
        requires there { from.now.answer ≡ Some Next.There }
        requires can { CanRefork self.old from.now }
        ensures moment { from.now.now.running ≡ None }
        ensures forked { OnOk result (self.new ≡ forked from.now) }
    {
        self.cascade.clear(&self.fired);
        self.fired.clear();
        self.fired.reserve(from.fired.len())?;
        self.states.refork(self.alloc, &from.states)?;
        self.fired.extend_from_slice(&from.fired)?;
        self.cascade.add(&from.fired);
        self.events.clear();
        self.running = Running::none(self.alloc);
        self.time = from.time;
        self.literal = from.literal;
        self.next_literal = from.next_literal;
        self.lines = from.lines;
        self.entries = from.entries;
        self.most = from.most;
        self.answer = from.answer;
        self.acted = from.acted;
        self.ended = from.ended;
        Ok(())
    }

    /// Whether a call was refused, or the goal was tested.
    pub fn has_ended(&self) -> bool
        ensures { result ≡ self.now.ended }
    {
        self.ended
    }

    /// Whether the last part is a running set; a further entry is allowed then.
    pub fn is_running(&self) -> bool
        ensures runs { result ≡ true → self.now.now.running ≡ Some self.now.running }
        ensures rests { result ≡ false → self.now.now.running ≡ None }
        ensures room { result ≡ true → self.now.entries < self.now.most }
    {
        matches!(self.answer, Some(Next::Run))
    }

    // Whether all entries that are allowed are done.
    fn is_full(&self) -> bool
        ensures full { result ≡ true → self.now.entries ≡ self.now.most }
        ensures room { result ≡ false → self.now.entries < self.now.most }
    {
        self.entries == self.most
    }

    fn most(&self) -> u64
        ensures { result ≡ self.now.most }
    {
        self.most
    }

    /// Ends the timeline: each later call is refused.
    pub fn end(&mut self)
        ensures { self.new ≡ record (self.old) { ended = true } }
    {
        self.ended = true;
    }

    fn alloc(&self) -> Global {
        self.alloc
    }

    // Whether one more action can be counted.
    fn can_count(&self) -> bool
        ensures { IsTrue result ↔ (self.now.now.acted < u64.MAX) }
    {
        self.lines < u64::MAX
    }

    // Does one thing. A refusal changes nothing.
    fn next(&mut self, ground: &Ground<Q>, until: Q) -> Result<Next<Q>, Stop<Q>>
        requires going { IsGoing self.old }
        requires serves { Serves (problem_of Q.value ground.now) self.old }
        requires ahead { IsAhead (self.old.now.running) (self.old.now.time) (Q.value until) }
        ensures told { AdvanceTold Q.value Q.fits (problem_of Q.value ground.now) (Q.value until)
            self.old self.new result }
        ensures kept { OnErr result (self.new ≡ self.old) }
    {
        if self.is_running() {
            return self.pass(ground, until, Looked::all(ground), Looked::all(ground));
        }
        let mut round = DueRound::none(self.alloc());
        match self.due(ground, Looked::all(ground), &mut round) {
            Err(stop) => Err(cascade_stop(stop)),
            Ok(true) => match self.put_round(&mut round) {
                Err(_) => Err(Stop::Memory),
                Ok(()) => Ok(Next::Round),
            },
            Ok(false) => self.rest(ground, until),
        }
    }

    /// A step of `advance`: whether a round is due, by a look at some of the events. Of all others it is known
    /// that they do not hold and that what they ask passes. The round that is due stands in what was lent
    /// then, in place of another one.
    pub fn due(
        &self,
        ground: &Ground<Q>,
        looked: Looked<'_, EventId>,
        round: &mut DueRound<Q>,
    ) -> Result<bool, CascadeStop<Q>>
        requires serves { Serves (problem_of Q.value ground.now) self.now }
        requires known { AreKnown Q.fits (event_conditions (problem_of Q.value ground.now)) self.now.now.state (events_looked looked) }
        ensures told { DueTold Q.value Q.fits (problem_of Q.value ground.now) self.now.now.fired self.now.now.state (if_due round.new result) }
        ensures rises { IfOk (if_due round.new result) (λ o. IfSome o (λ r. RisesIn self.now.now.state r.changes)) }
    {
        due_round(
            self.alloc,
            &self.cascade,
            ground,
            self.state(),
            looked,
            round,
        )
    }

    /// A step of `advance`: all events of the round that is due fire. What was lent is memory then that is
    /// needed no more, whatever stands in it.
    #[inline(always)]
    pub fn put_round(&mut self, round: &mut DueRound<Q>) -> Result<(), AllocError>
        requires events { All (λ e. e < self.old.event_count) (event_numbers round.old.events.items) }
        requires rises { RisesIn self.old.now.state round.old.changes }
        ensures ok { OnOk result (self.new ≡ record (self.old) {
          now = view_after (self.old.now)
              (Rounds (event_numbers round.old.events.items) (patched self.old.now.state round.old.changes));
          before = self.old.now.state;
          events = event_numbers round.old.events.items;
          answer = Some Next.Round;
          acted = false;
        }) }
        ensures err { OnErr result (self.new ≡ self.old) }
    {
        self.fired.reserve(round.events.len())?;
        self.states.step_with(&mut round.changes)?;
        self.fired.extend_from_slice(&round.events)?;
        self.cascade.add(&round.events);
        mem::swap(&mut self.events, &mut round.events);
        self.answer = Some(Next::Round);
        self.acted = false;
        Ok(())
    }

    /// A step of `advance` where no event holds: whether the entry is to be closed, or else the time is
    /// reached. It is refused where no further entry is allowed.
    #[inline(always)]
    pub fn must_close(&self, ground: &Ground<Q>, until: Q) -> Result<bool, Stop<Q>>
        requires going { IsGoing self.now }
        requires moment { self.now.now.running ≡ None }
        requires still { firing (problem_of Q.value ground.now) self.now.now.state ≡ [] }
        requires passed { AllPass Q.fits (round_tests (problem_of Q.value ground.now) self.now.now.fired self.now.now.state) }
        ensures told { IfOk result (λ b. MatchBool b (CanClose (problem_of Q.value ground.now) (Q.value until) self.now)
            (IsReachedBy (problem_of Q.value ground.now) (Q.value until) self.now)) }
        ensures full { IfErr result (λ stop. AdvanceTold Q.value Q.fits (problem_of Q.value ground.now)
            (Q.value until) self.now self.now (Err stop)) }
    {
        let time = self.time();
        if !is_below(time, bound(ground, time, until, self.next_literal)) {
            return Ok(false);
        }
        if self.is_full() {
            return Err(Stop::Limit(Limit::Happenings(self.most())));
        }
        Ok(true)
    }

    /// A step of `advance` where no event holds: the time is reached, or the entry is closed.
    pub fn rest(&mut self, ground: &Ground<Q>, until: Q) -> Result<Next<Q>, Stop<Q>>
        requires going { IsGoing self.old }
        requires serves { Serves (problem_of Q.value ground.now) self.old }
        requires moment { self.old.now.running ≡ None }
        requires still { firing (problem_of Q.value ground.now) self.old.now.state ≡ [] }
        requires passed { AllPass Q.fits (round_tests (problem_of Q.value ground.now) self.old.now.fired self.old.now.state) }
        requires ahead { self.old.now.time ≤ℚ Q.value until }
        ensures told { AdvanceTold Q.value Q.fits (problem_of Q.value ground.now) (Q.value until)
            self.old self.new result }
        ensures kept { OnErr result (self.new ≡ self.old) }
    {
        match self.must_close(ground, until) {
            Err(stop) => Err(stop),
            Ok(false) => {
                self.arrive();
                Ok(Next::There)
            }
            Ok(true) => match settle(self.alloc(), ground, self.state()) {
                Err(stop) => Err(settle_stop(stop)),
                Ok(mut running) => {
                    self.run(&mut running);
                    Ok(Next::Run)
                }
            },
        }
    }

    /// A step of `advance` where the entry is to be closed: this set runs from now on. In exchange the one
    /// that ran before is lent back, for its memory.
    pub fn run(&mut self, running: &mut Running<Q>)
        requires { self.old.entries < self.old.most }
        ensures { self.new ≡ record (self.old) {
          now = view_after (self.old.now) (Runs (process_numbers running.old.members.items));
          running = process_numbers running.old.members.items;
          rates = running.old.rates;
          answer = Some Next.Run;
          acted = false;
        } }
    {
        self.answer = Some(Next::Run);
        self.acted = false;
        mem::swap(&mut self.running, running);
    }

    /// A step of `advance`: goes on along the running set, to the next entry, by a look at some events
    /// and processes. Of all others it is known that nothing moves that they read, that what they ask
    /// passes, and that the events do not hold.
    pub fn pass(
        &mut self,
        ground: &Ground<Q>,
        until: Q,
        events: Looked<'_, EventId>,
        processes: Looked<'_, ProcessId>,
    ) -> Result<Next<Q>, Stop<Q>>
        requires going { IsGoing self.old }
        requires serves { Serves (problem_of Q.value ground.now) self.old }
        requires runs { self.old.now.running ≡ Some self.old.running }
        requires room { self.old.entries < self.old.most }
        requires later { self.old.now.time <ℚ Q.value until }
        requires known { AreKnownAlong Q.fits (problem_of Q.value ground.now) self.old.now.state self.old.rates (events_looked events) (processes_looked processes) }
        ensures told { AdvanceTold Q.value Q.fits (problem_of Q.value ground.now) (Q.value until)
            self.old self.new result }
        ensures kept { OnErr result (self.new ≡ self.old) }
    {
        let time = self.time();
        let latest = bound(ground, time, until, self.next_literal);
        let Ok(mut ahead) = self.take_ahead() else {
            return Err(Stop::Memory);
        };
        match self.reach(ground, latest, events, processes, &mut ahead) {
            Err(halt) => Err(halt_stop(halt)),
            Ok(()) => {
                let time = ahead.arrival.time;
                match self.enter(ground, ahead) {
                    Err(_) => Err(Stop::Memory),
                    Ok(()) => Ok(Next::Entry { time }),
                }
            }
        }
    }

    // A state equal to the present one, to be moved ahead.
    fn take_ahead(&mut self) -> Result<Box<Ahead<Q>>, AllocError>
        ensures state { IfOk result (λ b. b.value.state ≡ self.old.now.state) }
        ensures same { self.new ≡ self.old }
    {
        self.states.take_ahead(self.alloc)
    }

    // How far the running set goes on, at most up to this time: the state ahead is moved there.
    fn reach(
        &mut self,
        ground: &Ground<Q>,
        until: Q,
        events: Looked<'_, EventId>,
        processes: Looked<'_, ProcessId>,
        ahead: &mut Ahead<Q>,
    ) -> Result<(), Halt<Q>>
        requires serves { Serves (problem_of Q.value ground.now) self.old }
        requires runs { self.old.now.running ≡ Some self.old.running }
        requires later { self.old.now.time <ℚ Q.value until }
        requires known { AreKnownAlong Q.fits (problem_of Q.value ground.now) self.old.now.state self.old.rates (events_looked events) (processes_looked processes) }
        requires ahead { ahead.old.state ≡ self.old.now.state }
        ensures told { StretchTold Q.value Q.fits (problem_of Q.value ground.now) (Q.value until)
            self.old.now.time self.old.now.state self.old.running self.old.rates (arrived_at ahead.new.arrival result) }
        ensures reached { OnOk result (IsReached self.old.now.state ahead.new.arrival.changes ahead.new.state) }
        ensures same { self.new ≡ self.old }
    {
        self.states.reach(
            ground,
            &self.running,
            self.time,
            until,
            events,
            processes,
            ahead,
        )
    }

    // Begins the next entry, where the state ahead has arrived.
    fn enter(&mut self, ground: &Ground<Q>, ahead: Box<Ahead<Q>>) -> Result<(), AllocError>
        requires serves { Serves (problem_of Q.value ground.now) self.old }
        requires reached { IsReached self.old.now.state ahead.value.arrival.changes ahead.value.state }
        requires room { self.old.entries < self.old.most }
        ensures ok { OnOk result (EntersAt (Q.value ahead.value.arrival.time) (patched self.old.now.state ahead.value.arrival.changes)
            (literals (problem_of Q.value ground.now) (Q.value ahead.value.arrival.time) (patched self.old.now.state ahead.value.arrival.changes))
            (has_literal (problem_of Q.value ground.now) (Q.value ahead.value.arrival.time)) self.old self.new) }
        ensures err { OnErr result (self.new ≡ self.old) }
    {
        let time = ahead.arrival.time;
        let literals = literal_changes(self.alloc, ground, time, &mut self.next_literal)?;
        let literal = are_there(&literals);
        self.states.enter(self.alloc, ahead, literals)?;
        self.cascade.clear(&self.fired);
        self.fired.clear();
        self.time = time;
        self.literal = literal;
        self.entries += 1;
        self.answer = Some(Next::Entry { time });
        self.acted = false;
        Ok(())
    }

    /// A step of `advance` where no event holds: the time is reached.
    pub fn arrive(&mut self)
        ensures { self.new ≡ record (self.old) {
          now = record (self.old.now) { running = None };
          answer = Some Next.There;
          acted = false;
        } }
    {
        self.answer = Some(Next::There);
        self.acted = false;
    }

    // Changes that are needed no more, for their memory.
    fn take_spare(&mut self) -> Changes<Q>
        ensures { self.new ≡ self.old }
    {
        self.states.take_spare(self.alloc)
    }

    // Goes on in the state after an action, which changed this.
    #[inline(always)]
    fn put_changes(&mut self, changes: Changes<Q>) -> Result<(), AllocError>
        requires there { self.old.answer ≡ Some Next.There }
        requires count { self.old.now.acted < u64.MAX }
        requires rises { RisesIn self.old.now.state changes }
        ensures moment { self.old.now.running ≡ None }
        ensures ok { OnOk result (self.new ≡ record (self.old) {
          now = view_after (self.old.now)
              (Act (self.old.now.acted) (patched self.old.now.state changes));
          before = self.old.now.state;
          acted = true;
        }) }
        ensures err { OnErr result (self.new ≡ self.old) }
    {
        self.states.step(changes)?;
        self.cascade.clear(&self.fired);
        self.fired.clear();
        self.lines += 1;
        self.acted = true;
        Ok(())
    }
}
