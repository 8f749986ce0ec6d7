//! One decision more.
ghost use Rattle.std.specs.Prelude.{◌≡◌, ◌<◌, suc, None, map, length, IfOk, IfSome, OnOk};
ghost use Rattle.plus_fraction.specs.Fraction.{◌+ℚ◌};
ghost use Rattle.plus_state.specs.View.{problem_of, action_of};
ghost use Rattle.plus_state.specs.Fits.{ActionFits};
ghost use Rattle.plus_stretch.specs.Tests.{AllPass};
ghost use Rattle.plus_timeline.specs.Asked.{round_tests};
ghost use Rattle.plus_timeline.specs.Finish.{IsPaused};
ghost use Rattle.plus_reads.specs.Indexing.{Indexes};
ghost use Rattle.plus_indexed.specs.Knows.{Knows};
ghost use Rattle.plus_planner.specs.Kin.{IsKin, AreKin, AddsOne};
ghost use Rattle.plus_planner.specs.Standing.{CanReach};
ghost use Rattle.plus_planner.specs.Places.{now_in, base_in, task_from, taken_after, StandsBehind, ActFails, Goes, ActEnds, WaitEnds, CanTry, Walks};

use crate::carrying::refused;
use crate::held::{Held, fork};
use crate::places::{Place, Taken};
use plus_number::exact::Exact;
use plus_search::Fate;
use plus_state::problem::{Action, Ground};
use plus_state::truth::holds;
use plus_timeline::Timeline;
use std::alloc::{AllocError, Global};

// The fate of an action whose condition does not hold, or is not known to. It is asked before a
// timeline is copied, since most tries end here.
fn refuses<Q: Exact>(action: &Action<Q>, timeline: &Timeline<Q>) -> Option<Fate>
    requires { ActionFits (timeline.now.atoms) (timeline.now.fluents) (action_of Q.value action.now) }
    ensures { IfSome result (ActFails Q.fits timeline.now.now.acted (action_of Q.value action.now) timeline.now.now.state) }
{
    match holds(&action.condition, timeline.state()) {
        Ok(true) => None,
        Ok(false) => Some(Fate::Broken),
        Err(_) => Some(Fate::Beyond),
    }
}

// Takes a decision that leads to this timeline, where it can be taken; otherwise the timeline is spared.
fn put<Q: Exact>(
    place: &mut Place<Q>,
    timeline: Held<Q>,
    decision: u32,
    fate: Fate,
) -> Result<(), AllocError>
    ensures after { OnOk result (place.new.taken.items ≡ taken_after fate place.old.taken.items decision timeline) }
    ensures start { place.new.start ≡ place.old.start }
    ensures tried { place.new.tried ≡ place.old.tried }
    ensures stepper { place.new.stepper ≡ place.old.stepper }
    ensures kin { OnOk result (AddsOne timeline place.old.taken.items place.old.spares.items place.new.taken.items place.new.spares.items) }
{
    match fate {
        Fate::Alive => place.taken.push(Taken { decision, timeline })?,
        Fate::Broken => place.spares.push(timeline)?,
        Fate::Beyond => place.spares.push(timeline)?,
    }
    Ok(())
}

// Carries a timeline to a time. Where it comes there, the decision is taken.
fn go<Q: Exact>(
    ground: &Ground<Q>,
    place: &mut Place<Q>,
    mut timeline: Held<Q>,
    time: Q,
    decision: u32,
) -> Result<Fate, AllocError>
    requires reach { CanReach (problem_of Q.value ground.now) (Q.value time) timeline }
    requires kin { IsKin (problem_of Q.value ground.now) timeline }
    requires all_kin { AreKin (problem_of Q.value ground.now) place.old.start place.old.taken.items place.old.tried.items place.old.spares.items }
    requires knows { Knows Q.fits (problem_of Q.value ground.now) (record { line = timeline; kept = place.old.stepper }) }
    ensures goes { IfOk result (Goes Q.fits (problem_of Q.value ground.now) (Q.value time) timeline decision
        place.old.taken.items place.new.taken.items) }
    ensures start { OnOk result (place.new.start ≡ place.old.start) }
    ensures tried { OnOk result (place.new.tried ≡ place.old.tried) }
    ensures kin { OnOk result (AreKin (problem_of Q.value ground.now) place.new.start place.new.taken.items place.new.tried.items place.new.spares.items) }
    ensures index { OnOk result (place.new.stepper.index ≡ place.old.stepper.index) }
{
    let fate = timeline.carry(&mut place.stepper, ground, time)?;
    put(place, timeline, decision, fate)?;
    Ok(fate)
}

// The same from a moment at which nothing is due.
fn go_on<Q: Exact>(
    ground: &Ground<Q>,
    place: &mut Place<Q>,
    mut timeline: Held<Q>,
    time: Q,
    decision: u32,
) -> Result<Fate, AllocError>
    requires reach { CanReach (problem_of Q.value ground.now) (Q.value time) timeline }
    requires paused { IsPaused timeline }
    requires moment { timeline.now.running ≡ None }
    requires passed { AllPass Q.fits (round_tests (problem_of Q.value ground.now)
        timeline.now.fired timeline.now.state) }
    requires kin { IsKin (problem_of Q.value ground.now) timeline }
    requires all_kin { AreKin (problem_of Q.value ground.now) place.old.start place.old.taken.items place.old.tried.items place.old.spares.items }
    requires index { Indexes (problem_of Q.value ground.now) place.old.stepper.index }
    ensures goes { IfOk result (Goes Q.fits (problem_of Q.value ground.now) (Q.value time) timeline decision
        place.old.taken.items place.new.taken.items) }
    ensures start { OnOk result (place.new.start ≡ place.old.start) }
    ensures tried { OnOk result (place.new.tried ≡ place.old.tried) }
    ensures kin { OnOk result (AreKin (problem_of Q.value ground.now) place.new.start place.new.taken.items place.new.tried.items place.new.spares.items) }
    ensures index { OnOk result (place.new.stepper.index ≡ place.old.stepper.index) }
{
    let fate = timeline.carry_on(&mut place.stepper, ground, time)?;
    put(place, timeline, decision, fate)?;
    Ok(fate)
}

// Does an action at the present time. Its condition is asked first: most tries end there, and pay nothing
// for what the rest takes.
fn act<Q: Exact>(
    alloc: Global,
    ground: &Ground<Q>,
    action: &Action<Q>,
    place: &mut Place<Q>,
    decision: u32,
) -> Result<Fate, AllocError>
    requires can { CanTry (problem_of Q.value ground.now) (action_of Q.value action.now)
        (now_in place.old.start place.old.taken.items) }
    requires passed { AllPass Q.fits (round_tests (problem_of Q.value ground.now)
        (now_in place.old.start place.old.taken.items).now.fired
        (now_in place.old.start place.old.taken.items).now.state) }
    requires kin { AreKin (problem_of Q.value ground.now) place.old.start place.old.taken.items place.old.tried.items place.old.spares.items }
    requires index { Indexes (problem_of Q.value ground.now) place.old.stepper.index }
    ensures ends { IfOk result (ActEnds Q.fits (problem_of Q.value ground.now) (action_of Q.value action.now)
        decision (now_in place.old.start place.old.taken.items) place.old.taken.items place.new.taken.items) }
    ensures start { OnOk result (place.new.start ≡ place.old.start) }
    ensures tried { OnOk result (place.new.tried ≡ place.old.tried) }
    ensures kin { OnOk result (AreKin (problem_of Q.value ground.now) place.new.start place.new.taken.items place.new.tried.items place.new.spares.items) }
    ensures index { OnOk result (place.new.stepper.index ≡ place.old.stepper.index) }
{
    if let Some(fate) = refuses(action, place.now()) {
        return Ok(fate);
    }
    perform(alloc, ground, action, place, decision)
}

// Does an action on a fork of the present timeline, and carries that on to the present time.
fn perform<Q: Exact>(
    alloc: Global,
    ground: &Ground<Q>,
    action: &Action<Q>,
    place: &mut Place<Q>,
    decision: u32,
) -> Result<Fate, AllocError>
    requires can { CanTry (problem_of Q.value ground.now) (action_of Q.value action.now)
        (now_in place.old.start place.old.taken.items) }
    requires passed { AllPass Q.fits (round_tests (problem_of Q.value ground.now)
        (now_in place.old.start place.old.taken.items).now.fired
        (now_in place.old.start place.old.taken.items).now.state) }
    requires kin { AreKin (problem_of Q.value ground.now) place.old.start place.old.taken.items place.old.tried.items place.old.spares.items }
    requires index { Indexes (problem_of Q.value ground.now) place.old.stepper.index }
    ensures ends { IfOk result (ActEnds Q.fits (problem_of Q.value ground.now) (action_of Q.value action.now)
        decision (now_in place.old.start place.old.taken.items) place.old.taken.items place.new.taken.items) }
    ensures start { OnOk result (place.new.start ≡ place.old.start) }
    ensures tried { OnOk result (place.new.tried ≡ place.old.tried) }
    ensures kin { OnOk result (AreKin (problem_of Q.value ground.now) place.new.start place.new.taken.items place.new.tried.items place.new.spares.items) }
    ensures index { OnOk result (place.new.stepper.index ≡ place.old.stepper.index) }
{
    let spare = place.spares.pop();
    let mut timeline = fork(alloc, spare, place.now())?;
    let time = timeline.get().time();
    place.stepper.stay();
    match timeline.act(&mut place.stepper, ground, action) {
        Ok(()) => go(ground, place, timeline, time, decision),
        Err(stop) => {
            place.spares.push(timeline)?;
            refused(stop)
        }
    }
}

// Waits for one interval. After a wait the timeline of the last action is carried on to the later time:
// a moment at which nothing was decided is entered only where something happens there.
fn wait<Q: Exact>(
    alloc: Global,
    ground: &Ground<Q>,
    interval: Q,
    place: &mut Place<Q>,
    decision: u32,
) -> Result<Fate, AllocError>
    requires reach { CanReach (problem_of Q.value ground.now)
        ((now_in place.old.start place.old.taken.items).now.time +ℚ Q.value interval)
        (base_in decision place.old.start place.old.taken.items) }
    requires paused { IsPaused (base_in decision place.old.start place.old.taken.items) }
    requires passed { AllPass Q.fits (round_tests (problem_of Q.value ground.now)
        (base_in decision place.old.start place.old.taken.items).now.fired
        (base_in decision place.old.start place.old.taken.items).now.state) }
    requires kin { AreKin (problem_of Q.value ground.now) place.old.start place.old.taken.items place.old.tried.items place.old.spares.items }
    requires index { Indexes (problem_of Q.value ground.now) place.old.stepper.index }
    ensures ends { IfOk result (WaitEnds Q.fits (problem_of Q.value ground.now)
        ((now_in place.old.start place.old.taken.items).now.time +ℚ Q.value interval) decision
        (base_in decision place.old.start place.old.taken.items) place.old.taken.items place.new.taken.items) }
    ensures start { OnOk result (place.new.start ≡ place.old.start) }
    ensures tried { OnOk result (place.new.tried ≡ place.old.tried) }
    ensures kin { OnOk result (AreKin (problem_of Q.value ground.now) place.new.start place.new.taken.items place.new.tried.items place.new.spares.items) }
    ensures index { OnOk result (place.new.stepper.index ≡ place.old.stepper.index) }
{
    match place.now().time().add(interval) {
        Err(_) => Ok(Fate::Beyond),
        Ok(time) => {
            let spare = place.spares.pop();
            let timeline = fork(alloc, spare, place.base(decision))?;
            go_on(ground, place, timeline, time, decision)
        }
    }
}

/// Takes a decision where it can be taken: the action with this number, or else a wait. Otherwise the place
/// stands where it stood.
pub fn decide<Q: Exact>(
    alloc: Global,
    ground: &Ground<Q>,
    actions: &[Action<Q>],
    interval: Q,
    place: &mut Place<Q>,
    decision: u32,
) -> Result<Fate, AllocError>
    requires stands { StandsBehind Q.fits (task_from (problem_of Q.value ground.now)
        (map (action_of Q.value) actions.now) (Q.value interval)) place.old.start place.old.taken.items }
    requires within { decision < suc (length actions.now) }
    requires kin { AreKin (problem_of Q.value ground.now) place.old.start place.old.taken.items place.old.tried.items place.old.spares.items }
    requires index { Indexes (problem_of Q.value ground.now) place.old.stepper.index }
    ensures walks { IfOk result (Walks Q.fits (task_from (problem_of Q.value ground.now)
        (map (action_of Q.value) actions.now) (Q.value interval)) place.old.start place.new.start
        place.old.taken.items place.new.taken.items decision) }
    ensures tried { OnOk result (place.new.tried ≡ place.old.tried) }
    ensures kin { OnOk result (AreKin (problem_of Q.value ground.now) place.new.start place.new.taken.items place.new.tried.items place.new.spares.items) }
    ensures index { OnOk result (place.new.stepper.index ≡ place.old.stepper.index) }
{
    let number = decision as usize;
    if number < actions.len() {
        act(alloc, ground, &actions[number], place, decision)
    } else {
        wait(alloc, ground, interval, place, decision)
    }
}
