//! A timeline on the heap.
ghost use Rattle.std.specs.Prelude.{◌≡◌, true, Some, None, IfOk, IfSome, OnOk, OnErr};
ghost use Rattle.plus_state.specs.Fits.{ActionFits};
ghost use Rattle.plus_state.specs.View.{problem_of, action_of};
ghost use Rattle.plus_stretch.specs.Tests.{AllPass};
ghost use Rattle.plus_timeline.specs.declared.next.Next.TheVariants.{There};
ghost use Rattle.plus_timeline.specs.Act.{ActTold};
ghost use Rattle.plus_timeline.specs.Asked.{round_tests};
ghost use Rattle.plus_timeline.specs.Finish.{IsPaused};
ghost use Rattle.plus_timeline.specs.Forked.{forked, CanRefork};
ghost use Rattle.plus_timeline.specs.Stops.{IsGoing};
ghost use Rattle.plus_reads.specs.Indexing.{Indexes};
ghost use Rattle.plus_indexed.specs.Knows.{Knows};
ghost use Rattle.plus_planner.specs.Kin.{IsKin, IsLightened};
ghost use Rattle.plus_planner.specs.Standing.{CanReach, Carried};

use crate::carrying::{carry, carry_on};
use plus_indexed::Stepper;
use plus_number::exact::Exact;
use plus_search::Fate;
use plus_state::problem::{Action, Ground};
use plus_timeline::{Stop, Timeline};
use std::alloc::{AllocError, Global};
use std::marker::Model;

/// A timeline that stands on the heap, so that it is moved at no cost. Contracts see the timeline.
#[derive(Drop)]
pub struct Held<Q: Exact> {
    timeline: Box<Timeline<Q>>,
}

impl<Q: Exact> Model for Held<Q> {
    ghost use Rattle.plus_timeline.specs.Timeline.{TimelineView};
    ghost use Rattle.plus_timeline.specs.TimelineCode.{coded_timeline};

    ghost Value = { TimelineView };

    ghost coded = { coded_timeline };

    ghost view = { λ h. h.timeline.value };
}

impl<Q: Exact> Held<Q> {
    /// Puts a timeline on the heap.
    pub fn new(alloc: Global, timeline: Timeline<Q>) -> Result<Held<Q>, AllocError>
        ensures { IfOk result (λ h. h ≡ timeline) }
    {
        let timeline = Box::new(alloc, timeline)?;
        Ok(Held { timeline })
    }

    /// The timeline.
    pub fn get(&self) -> &Timeline<Q>
        ensures { result.now ≡ self.now }
    {
        &self.timeline
    }

    /// A fork of another timeline: it is made of this one.
    pub fn refork(&mut self, from: &Timeline<Q>) -> Result<(), AllocError>
        requires there { from.now.answer ≡ Some There }
        requires can { CanRefork self.old from.now }
        ensures moment { from.now.now.running ≡ None }
        ensures forked { OnOk result (self.new ≡ forked from.now) }
    {
        self.timeline.refork(from)
    }

    /// Does an action that is due, with what is known of the timeline.
    pub fn act(
        &mut self,
        stepper: &mut Stepper<Q>,
        ground: &Ground<Q>,
        action: &Action<Q>,
    ) -> Result<(), Stop<Q>>
        requires knows { IsGoing self.old → Knows Q.fits (problem_of Q.value ground.now) (record { line = self.old; kept = stepper.old }) }
        requires paused { IsGoing self.old → IsPaused self.old }
        requires action { IsGoing self.old → ActionFits (self.old.atoms) (self.old.fluents) (action_of Q.value action.now) }
        ensures told { ActTold Q.value Q.fits (problem_of Q.value ground.now) (action_of Q.value action.now) 1 self.old self.new result }
        ensures refused { OnErr result (self.new ≡ record (self.old) { ended = true }) }
        ensures knows { OnOk result (Knows Q.fits (problem_of Q.value ground.now) (record { line = self.new; kept = stepper.new })) }
        ensures index { stepper.new.index ≡ stepper.old.index }
    {
        stepper.act(&mut self.timeline, ground, action, 1)
    }

    /// Carries the timeline on to a time, with what is known of it.
    pub fn carry(
        &mut self,
        stepper: &mut Stepper<Q>,
        ground: &Ground<Q>,
        until: Q,
    ) -> Result<Fate, AllocError>
        requires reach { CanReach (problem_of Q.value ground.now) (Q.value until) self.old }
        requires kin { IsKin (problem_of Q.value ground.now) self.old }
        requires knows { Knows Q.fits (problem_of Q.value ground.now) (record { line = self.old; kept = stepper.old }) }
        ensures carried { IfOk result (Carried Q.fits (problem_of Q.value ground.now) (Q.value until) self.old self.new) }
        ensures kin { OnOk result (IsKin (problem_of Q.value ground.now) self.new) }
        ensures index { OnOk result (stepper.new.index ≡ stepper.old.index) }
    {
        let fate = carry(stepper, &mut self.timeline, ground, until)?;
        lighten(&mut self.timeline);
        Ok(fate)
    }

    /// The same from a moment at which nothing is due. What the stepper knows is of another timeline.
    pub fn carry_on(
        &mut self,
        stepper: &mut Stepper<Q>,
        ground: &Ground<Q>,
        until: Q,
    ) -> Result<Fate, AllocError>
        requires reach { CanReach (problem_of Q.value ground.now) (Q.value until) self.old }
        requires paused { IsPaused self.old }
        requires moment { self.old.now.running ≡ None }
        requires passed { AllPass Q.fits (round_tests (problem_of Q.value ground.now) self.old.now.fired self.old.now.state) }
        requires kin { IsKin (problem_of Q.value ground.now) self.old }
        requires index { Indexes (problem_of Q.value ground.now) stepper.old.index }
        ensures carried { IfOk result (Carried Q.fits (problem_of Q.value ground.now) (Q.value until) self.old self.new) }
        ensures kin { OnOk result (IsKin (problem_of Q.value ground.now) self.new) }
        ensures index { OnOk result (stepper.new.index ≡ stepper.old.index) }
    {
        stepper.forget();
        let fate = carry_on(stepper, &mut self.timeline, ground, until)?;
        lighten(&mut self.timeline);
        Ok(fate)
    }
}

// Forgets the root where it costs more to go back there than to copy a state: so no more is noted than a
// state has, but for what the last way added.
fn lighten<Q: Exact>(timeline: &mut Timeline<Q>)
    ensures { IsLightened timeline.old timeline.new }
{
    if timeline.is_far() {
        timeline.forget_root();
    }
}

/// A fork of a timeline, made of a spare one where there is one.
pub fn fork<Q: Exact>(
    alloc: Global,
    spare: Option<Held<Q>>,
    timeline: &Timeline<Q>,
) -> Result<Held<Q>, AllocError>
    requires there { timeline.now.answer ≡ Some There }
    requires can { IfSome spare (λ s. CanRefork s timeline.now) }
    ensures moment { timeline.now.now.running ≡ None }
    ensures forked { IfOk result (λ t. t ≡ forked timeline.now) }
{
    match spare {
        Some(mut held) => {
            held.refork(timeline)?;
            Ok(held)
        }
        None => Held::new(alloc, timeline.fork(alloc)?),
    }
}
