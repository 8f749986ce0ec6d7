//! Carries a timeline on to a time.
ghost use Rattle.std.specs.Prelude.{◌≡◌, ◌≢◌, Some, None, IfOk, OnOk};
ghost use Rattle.plus_state.specs.View.{problem_of};
ghost use Rattle.plus_stretch.specs.Tests.{AllPass};
ghost use Rattle.plus_timeline.specs.Asked.{round_tests};
ghost use Rattle.plus_timeline.specs.Finish.{IsPaused};
ghost use Rattle.plus_indexed.specs.Knows.{Knows};
ghost use Rattle.plus_planner.specs.Kin.{IsKin};
ghost use Rattle.plus_planner.specs.Standing.{CanReach, Carried, Steps, fate_by, refused_by};

use plus_indexed::Stepper;
use plus_number::exact::Exact;
use plus_search::Fate;
use plus_state::problem::Ground;
use plus_timeline::{Next, Stop, Timeline};
use std::alloc::AllocError;

// The answer of a step as a fate, where it is the last.
fn done<Q: Exact>(next: Next<Q>) -> Option<Fate>
    ensures { result ≡ fate_by next }
{
    match next {
        Next::Round => None,
        Next::Run => None,
        Next::Entry { .. } => None,
        Next::There => Some(Fate::Alive),
    }
}

/// The fate by a refusal of a timeline that had not ended.
pub fn refused<Q: Exact>(stop: Stop<Q>) -> Result<Fate, AllocError>
    requires { stop ≢ Stop.Ended }
    ensures { IfOk result (λ fate. refused_by stop ≡ Some fate) }
{
    match stop {
        Stop::Breach(_) => Ok(Fate::Broken),
        Stop::Limit(_) => Ok(Fate::Beyond),
        Stop::Ended => unreachable!(),
        Stop::Memory => Err(AllocError),
    }
}

// Takes one step toward a time, and says what it comes to, where it is the last.
fn step<Q: Exact>(
    stepper: &mut Stepper<Q>,
    timeline: &mut Timeline<Q>,
    ground: &Ground<Q>,
    until: Q,
) -> Result<Option<Fate>, AllocError>
    requires reach { CanReach (problem_of Q.value ground.now) (Q.value until) timeline.old }
    requires kin { IsKin (problem_of Q.value ground.now) timeline.old }
    requires knows { Knows Q.fits (problem_of Q.value ground.now) (record { line = timeline.old; kept = stepper.old }) }
    ensures steps { IfOk result (Steps Q.fits (problem_of Q.value ground.now) (Q.value until) timeline.old timeline.new) }
    ensures kin { OnOk result (IsKin (problem_of Q.value ground.now) timeline.new) }
    ensures knows { IfOk result (λ o. o ≡ None → Knows Q.fits (problem_of Q.value ground.now) (record { line = timeline.new; kept = stepper.new })) }
    ensures index { OnOk result (stepper.new.index ≡ stepper.old.index) }
{
    match stepper.advance(timeline, ground, until) {
        Ok(next) => Ok(done(next)),
        Err(stop) => Ok(Some(refused(stop)?)),
    }
}

/// Carries a timeline on to a time, until nothing is due there: it comes there, or a breach or a limit
/// stands on the way. It is played with what is known of it.
pub fn carry<Q: Exact>(
    stepper: &mut Stepper<Q>,
    timeline: &mut Timeline<Q>,
    ground: &Ground<Q>,
    until: Q,
) -> Result<Fate, AllocError>
    requires reach { CanReach (problem_of Q.value ground.now) (Q.value until) timeline.old }
    requires kin { IsKin (problem_of Q.value ground.now) timeline.old }
    requires knows { Knows Q.fits (problem_of Q.value ground.now) (record { line = timeline.old; kept = stepper.old }) }
    ensures carried { IfOk result (Carried Q.fits (problem_of Q.value ground.now) (Q.value until) timeline.old timeline.new) }
    ensures kin { OnOk result (IsKin (problem_of Q.value ground.now) timeline.new) }
    ensures index { OnOk result (stepper.new.index ≡ stepper.old.index) }
{
    'steps: loop {
        match step(stepper, timeline, ground, until)? {
            Some(fate) => return Ok(fate),
            None => {}
        }
    }
}

// Takes the first step from a moment at which nothing is due: no event is looked at there again.
fn leave<Q: Exact>(
    stepper: &mut Stepper<Q>,
    timeline: &mut Timeline<Q>,
    ground: &Ground<Q>,
    until: Q,
) -> Result<Option<Fate>, AllocError>
    requires reach { CanReach (problem_of Q.value ground.now) (Q.value until) timeline.old }
    requires paused { IsPaused timeline.old }
    requires moment { timeline.old.now.running ≡ None }
    requires passed { AllPass Q.fits (round_tests (problem_of Q.value ground.now)
        timeline.old.now.fired timeline.old.now.state) }
    requires kin { IsKin (problem_of Q.value ground.now) timeline.old }
    requires knows { Knows Q.fits (problem_of Q.value ground.now) (record { line = timeline.old; kept = stepper.old }) }
    ensures kin { OnOk result (IsKin (problem_of Q.value ground.now) timeline.new) }
    ensures knows { IfOk result (λ o. o ≡ None → Knows Q.fits (problem_of Q.value ground.now) (record { line = timeline.new; kept = stepper.new })) }
    ensures index { OnOk result (stepper.new.index ≡ stepper.old.index) }
    ensures steps { IfOk result (Steps Q.fits (problem_of Q.value ground.now) (Q.value until) timeline.old timeline.new) }
{
    match stepper.leave(timeline, ground, until) {
        Ok(next) => Ok(done(next)),
        Err(stop) => Ok(Some(refused(stop)?)),
    }
}

/// Carries a timeline on to a time, as `carry` does, from a moment at which nothing is due.
pub fn carry_on<Q: Exact>(
    stepper: &mut Stepper<Q>,
    timeline: &mut Timeline<Q>,
    ground: &Ground<Q>,
    until: Q,
) -> Result<Fate, AllocError>
    requires reach { CanReach (problem_of Q.value ground.now) (Q.value until) timeline.old }
    requires paused { IsPaused timeline.old }
    requires moment { timeline.old.now.running ≡ None }
    requires passed { AllPass Q.fits (round_tests (problem_of Q.value ground.now)
        timeline.old.now.fired timeline.old.now.state) }
    requires kin { IsKin (problem_of Q.value ground.now) timeline.old }
    requires knows { Knows Q.fits (problem_of Q.value ground.now) (record { line = timeline.old; kept = stepper.old }) }
    ensures kin { OnOk result (IsKin (problem_of Q.value ground.now) timeline.new) }
    ensures index { OnOk result (stepper.new.index ≡ stepper.old.index) }
    ensures carried { IfOk result (Carried Q.fits (problem_of Q.value ground.now) (Q.value until) timeline.old timeline.new) }
{
    match leave(stepper, timeline, ground, until)? {
        Some(fate) => Ok(fate),
        None => carry(stepper, timeline, ground, until),
    }
}
