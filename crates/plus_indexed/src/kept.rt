//! What is kept between the calls of a timeline with an index.
ghost use Rattle.std.specs.Prelude.{◌≡◌, ◌<◌, [], ℕ, List, Option, Some, None, option_map, IfOk, IfSome, OnErr, MatchResult};
ghost use Rattle.plus_fraction.specs.Fraction.{◌<ℚ◌};
ghost use Rattle.plus_model.specs.Running.{holding as holding_of};
ghost use Rattle.plus_state.specs.Asked.{AllFit};
ghost use Rattle.plus_state.specs.View.{problem_of};
ghost use Rattle.plus_state.specs.Changes.{RisesIn};
ghost use Rattle.plus_cascade.specs.Rounds.{if_due};
ghost use Rattle.plus_settle.specs.Rates.{as_given};
ghost use Rattle.plus_settle.specs.Settles.{condition_nodes, ConditionStops, SettleAnswers};
ghost use Rattle.plus_timeline.specs.Timeline.{event_numbers, process_numbers};
ghost use Rattle.plus_timeline.specs.Due.{DueTold};
ghost use Rattle.plus_timeline.specs.Stops.{IsGoing};
ghost use Rattle.plus_timeline.specs.Advance.{AdvanceTold};
ghost use Rattle.plus_indexed.specs.Knows.{MayHold, Knows};
ghost use Rattle.plus_indexed.specs.Waking.{WokenBy, StillWoken, EventsAfter, ProcessesWoken, ProcessesAfter};

use crate::moving::MovingReaders;
use crate::settled::settle_by;
use crate::waiting::{Waiting, put_waiting, still_waiting};
use crate::waking::{none_woken, put_woken, still_woken};
use plus_cascade::{CascadeStop, DueRound};
use plus_number::exact::Exact;
use plus_reads::Index;
use plus_settle::{Running, SettleStop, holding};
use plus_state::looked::Looked;
use plus_state::problem::Ground;
use plus_state::term::{EventId, ProcessId};
use plus_timeline::{Next, Stop, Timeline};
use std::alloc::{AllocError, Global};
use std::marker::Model;
use std::rc::Rc;

/// An index, which copies share, and what is known of the present state of a timeline: which events and
/// which processes are to be looked at. It is of no use beside another timeline.
#[derive(Drop)]
pub struct Kept {
    alloc: Global,
    readers: MovingReaders,
    // the events that are to be looked at where a round may be due, and the processes where the entry is
    // closed; all of them where there is no list
    events: Option<Vec<EventId>>,
    processes: Option<Waiting>,
    // room for numbers and for processes, which many steps use
    numbers: Vec<u32>,
    listed: Vec<ProcessId>,
}

impl Model for Kept {
    ghost use Rattle.std.specs.Prelude.{option_map};
    ghost use Rattle.plus_state.specs.Numbers.{event_numbers};
    ghost use Rattle.plus_indexed.specs.Indexed.{Kept as KeptView};
    ghost use Rattle.plus_indexed.specs.IndexedCode.{coded_kept};

    ghost Value = { KeptView };

    ghost coded = { coded_kept };

    ghost view = { λ k. record {
      index = k.readers.index;
      events = option_map (λ w. event_numbers w.items) k.events;
      processes = k.processes;
    } };
}

fn copied_events(
    alloc: Global,
    events: &Option<Vec<EventId>>,
) -> Result<Option<Vec<EventId>>, AllocError>
    ensures { IfOk result (λ o. option_map (λ w. event_numbers w.items) o ≡ option_map (λ w. event_numbers w.items) events.now) }
{
    match events {
        Some(events) => Ok(Some(Vec::from_slice(alloc, events)?)),
        None => Ok(None),
    }
}

fn copied_processes(
    alloc: Global,
    processes: &Option<Waiting>,
) -> Result<Option<Waiting>, AllocError>
    ensures { IfOk result (λ o. o ≡ processes.now) }
{
    match processes {
        Some(processes) => Ok(Some(processes.copy(alloc)?)),
        None => Ok(None),
    }
}

// Both lists once more.
fn copied_lists(
    alloc: Global,
    events: &Option<Vec<EventId>>,
    processes: &Option<Waiting>,
) -> Result<(Option<Vec<EventId>>, Option<Waiting>), AllocError>
    ensures events { IfOk result (λ r. option_map (λ w. event_numbers w.items) r.0 ≡ option_map (λ w. event_numbers w.items) events.now) }
    ensures processes { IfOk result (λ r. r.1 ≡ processes.now) }
{
    let events = copied_events(alloc, events)?;
    let processes = copied_processes(alloc, processes)?;
    Ok((events, processes))
}

impl Kept {
    /// Over this index: all events and all processes are to be looked at.
    pub fn new(alloc: Global, index: Rc<Index>) -> Kept
        ensures { result ≡ record { index = index.value; events = None; processes = None } }
    {
        Kept {
            alloc,
            readers: MovingReaders::new(alloc, index),
            events: None,
            processes: None,
            numbers: Vec::new(alloc),
            listed: Vec::new(alloc),
        }
    }

    /// The same, over the same index.
    pub fn copy(&self, alloc: Global) -> Result<Kept, AllocError>
        ensures { IfOk result (λ k. k ≡ self.now) }
    {
        let (events, processes) = copied_lists(alloc, &self.events, &self.processes)?;
        let readers = self.readers.copy(alloc)?;
        Ok(Kept {
            alloc,
            readers,
            events,
            processes,
            numbers: Vec::new(alloc),
            listed: Vec::new(alloc),
        })
    }

    /// Whether a round is due, by a look at the events that wait: then it stands in what was lent, in place
    /// of another one.
    pub fn due<Q: Exact>(
        &self,
        ground: &Ground<Q>,
        timeline: &Timeline<Q>,
        round: &mut DueRound<Q>,
    ) -> Result<bool, CascadeStop<Q>>
        requires knows { Knows Q.fits (problem_of Q.value ground.now) (record { line = timeline.now; kept = self.now }) }
        ensures told { DueTold Q.value Q.fits (problem_of Q.value ground.now) timeline.now.now.fired timeline.now.now.state (if_due round.new result) }
        ensures rises { IfOk (if_due round.new result) (λ o. IfSome o (λ r. RisesIn timeline.now.now.state r.changes)) }
    {
        match &self.events {
            Some(events) => timeline.due(ground, Looked::These(events), round),
            None => timeline.due(ground, Looked::all(ground), round),
        }
    }

    // Puts the processes that hold in the present state in place of others.
    fn present<Q: Exact>(
        &mut self,
        ground: &Ground<Q>,
        timeline: &Timeline<Q>,
        members: &mut Vec<ProcessId>,
    ) -> Result<(), SettleStop<Q>>
        requires knows { Knows Q.fits (problem_of Q.value ground.now) (record { line = timeline.now; kept = self.old }) }
        ensures told { MatchResult result
            (λ _. AllFit Q.fits (condition_nodes ((problem_of Q.value ground.now).processes) timeline.now.now.state)
            × (process_numbers members.new.items ≡ holding_of (problem_of Q.value ground.now) timeline.now.now.state))
            (λ stop. ConditionStops Q.value Q.fits (condition_nodes ((problem_of Q.value ground.now).processes) timeline.now.now.state) stop) }
        ensures same { self.new ≡ self.old }
    {
        match &self.processes {
            Some(waiting) => match waiting.in_order(&mut self.numbers, &mut self.listed) {
                Err(_) => Err(SettleStop::Memory),
                Ok(()) => {
                    let looked = Looked::These(&self.listed);
                    holding(ground, timeline.state(), looked, members)
                }
            },
            None => holding(ground, timeline.state(), Looked::all(ground), members),
        }
    }

    /// Puts the running set of the present state in place of another one. The processes that hold in the
    /// state wait from now on.
    pub fn settled<Q: Exact>(
        &mut self,
        ground: &Ground<Q>,
        timeline: &Timeline<Q>,
        running: &mut Running<Q>,
    ) -> Result<(), SettleStop<Q>>
        requires knows { Knows Q.fits (problem_of Q.value ground.now) (record { line = timeline.now; kept = self.old }) }
        ensures told { SettleAnswers Q.value Q.fits (problem_of Q.value ground.now) timeline.now.now.state (as_given running.new result) }
        ensures kept { self.new ≡ record (self.old) { processes = self.new.processes } }
        ensures processes { (w : List ℕ) → self.new.processes ≡ Some w →
            MayHold Q.fits (problem_of Q.value ground.now) timeline.now.now.state w }
    {
        match self.present(ground, timeline, &mut running.members) {
            Err(stop) => Err(stop),
            Ok(()) => {
                put_waiting(self.alloc, &running.members, &mut self.processes);
                settle_by(
                    self.alloc,
                    ground,
                    timeline.state(),
                    &mut self.readers,
                    running,
                )
            }
        }
    }

    /// Goes on along the running set, to the next entry.
    pub fn pass<Q: Exact>(
        &mut self,
        ground: &Ground<Q>,
        timeline: &mut Timeline<Q>,
        until: Q,
    ) -> Result<Next<Q>, Stop<Q>>
        requires going { IsGoing timeline.old }
        requires knows { Knows Q.fits (problem_of Q.value ground.now) (record { line = timeline.old; kept = self.old }) }
        requires runs { timeline.old.now.running ≡ Some timeline.old.running }
        requires room { timeline.old.entries < timeline.old.most }
        requires later { timeline.old.now.time <ℚ Q.value until }
        ensures told { AdvanceTold Q.value Q.fits (problem_of Q.value ground.now) (Q.value until)
            timeline.old timeline.new result }
        ensures line { OnErr result (timeline.new ≡ timeline.old) }
        ensures kept { self.new ≡ self.old }
    {
        match self.readers.refresh(timeline.rates()) {
            Err(_) => Err(Stop::Memory),
            Ok(()) => {
                let events = Looked::These(self.readers.events());
                let processes = Looked::These(self.readers.processes());
                timeline.pass(ground, until, events, processes)
            }
        }
    }

    // Those events wait that fired in the last round, and the readers of what it changed.
    fn wake_by_round<Q: Exact>(&mut self, timeline: &Timeline<Q>)
        ensures kept { self.new ≡ record (self.old) { events = self.new.events } }
        ensures woken { (w : List ℕ) → self.new.events ≡ Some w → WokenBy (record { line = timeline.now; kept = self.old }) timeline.now.events w }
    {
        put_woken(
            self.alloc,
            &self.readers.index().events,
            timeline.changes(),
            timeline.events(),
            &mut self.numbers,
            &mut self.events,
        );
    }

    // Those events wait besides that read what the last step changed.
    #[inline(always)]
    fn wake_events<Q: Exact>(&mut self, timeline: &Timeline<Q>)
        ensures kept { self.new ≡ record (self.old) { events = self.new.events } }
        ensures woken { (w : List ℕ) → self.new.events ≡ Some w → StillWoken (record { line = timeline.now; kept = self.old }) w }
    {
        still_woken(
            &self.readers.index().events,
            timeline.changes(),
            &mut self.numbers,
            &mut self.events,
        );
    }

    // Those processes wait besides that read what the last step changed.
    #[inline(always)]
    fn wake_processes<Q: Exact>(&mut self, timeline: &Timeline<Q>)
        ensures kept { self.new ≡ record (self.old) { processes = self.new.processes } }
        ensures woken { (w : List ℕ) → self.new.processes ≡ Some w → ProcessesWoken (record { line = timeline.now; kept = self.old }) w }
    {
        still_waiting(
            &self.readers.index().processes,
            timeline.changes(),
            &mut self.processes,
        );
    }

    /// All events and all processes are to be looked at.
    pub fn forget(&mut self)
        ensures { self.new ≡ record (self.old) { events = None; processes = None } }
    {
        self.events = None;
        self.processes = None;
    }

    /// No event is to be looked at, and each process.
    pub fn stay(&mut self)
        ensures { self.new ≡ record (self.old) { events = Some []; processes = None } }
    {
        self.none_waits();
        self.processes = None;
    }

    // No event waits.
    fn none_waits(&mut self)
        ensures { self.new ≡ record (self.old) { events = Some [] } }
    {
        none_woken(self.alloc, &mut self.events);
    }

    /// Notes who waits after this part of the history.
    #[inline(always)]
    pub fn wake<Q: Exact>(&mut self, timeline: &Timeline<Q>, next: Next<Q>)
        ensures kept { self.new ≡ record (self.old) {
          events = self.new.events;
          processes = self.new.processes;
        } }
        ensures events { (w : List ℕ) → self.new.events ≡ Some w → EventsAfter next (record { line = timeline.now; kept = self.old }) w }
        ensures processes { (w : List ℕ) → self.new.processes ≡ Some w → ProcessesAfter next (record { line = timeline.now; kept = self.old }) w }
    {
        match next {
            Next::Round => {
                self.wake_by_round(timeline);
                self.wake_processes(timeline);
            }
            Next::Entry { .. } => self.wake_by_step(timeline),
            Next::Run => self.none_waits(),
            Next::There => self.none_waits(),
        }
    }

    /// Those wait besides that read what the last step changed.
    #[inline(always)]
    pub fn wake_by_step<Q: Exact>(&mut self, timeline: &Timeline<Q>)
        ensures kept { self.new ≡ record (self.old) {
          events = self.new.events;
          processes = self.new.processes;
        } }
        ensures events { (w : List ℕ) → self.new.events ≡ Some w → StillWoken (record { line = timeline.now; kept = self.old }) w }
        ensures processes { (w : List ℕ) → self.new.processes ≡ Some w → ProcessesWoken (record { line = timeline.now; kept = self.old }) w }
    {
        self.wake_events(timeline);
        self.wake_processes(timeline);
    }
}
