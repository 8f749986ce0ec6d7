//! What begins at one moment along a running set.
ghost use Rattle.std.specs.Prelude.{◌≡◌, [], ◌∷◌, true, length, map, IfOk, IfSome, IsSomeAnd, OnOk};
ghost use Rattle.plus_fraction.specs.Fraction.{◌+ℚ◌};
ghost use Rattle.plus_model.specs.Running.{moved};
ghost use Rattle.plus_state.specs.View.{problem_of};
ghost use Rattle.plus_state.specs.Fits.{StateFits};
ghost use Rattle.plus_state.specs.Asked.{node, AllFit};
ghost use Rattle.plus_state.specs.Numbers.{event_numbers};
ghost use Rattle.plus_state.specs.Walk.{event_conditions};
ghost use Rattle.plus_state.specs.Looked.{AreKnown};
ghost use Rattle.plus_crossing.specs.Moves.{moved_nodes};
ghost use Rattle.plus_crossing.specs.Motions.{Extends, MayDrift};
ghost use Rattle.plus_settle.specs.Members.{process_numbers, AreMembers};
ghost use Rattle.plus_stretch.specs.Tests.{asks};
ghost use Rattle.plus_stretch.specs.StretchTests.{here_tests};
ghost use Rattle.plus_stretch.specs.Told.{Told, Never};
ghost use Rattle.plus_stretch.specs.Here.{of_go, EventHoldsTold, HereIs, MomentlessHere, IsAlong};
ghost use Rattle.plus_stretch.specs.Among.{OthersKnown};
ghost use Rattle.plus_stretch.specs.Arrives.{ComesBy, CrossingTold, if_begun, IsArrived};

use crate::arrival::{Ahead, End};
use crate::halt::Halt;
use crate::soon::none_soon;
use plus_crossing::motions::{may_drift, set_motions};
use plus_crossing::moves::{MoveStop, moved_changes};
use plus_crossing::node::exact;
use plus_crossing::rates::Rates;
use plus_number::exact::Exact;
use plus_settle::confirms::first_other;
use plus_settle::settling::Running;
use plus_settle::stops::GoStop;
use plus_state::looked::Looked;
use plus_state::outcome::{Limit, Owner};
use plus_state::problem::Ground;
use plus_state::states::State;
use plus_state::term::{EventId, ProcessId, Sign};
use plus_state::truth::holds;
use plus_state::walk::Conditional;

// Whether an event holds, by a look at these, where no other one does.
fn event_holds<Q: Exact>(
    ground: &Ground<Q>,
    state: &State<Q>,
    events: &[EventId],
) -> Result<bool, Halt<Q>>
    requires state { StateFits (length (ground.now.atoms.items)) (length (ground.now.fluents.items)) state.now }
    requires known { AreKnown Q.fits (event_conditions (problem_of Q.value ground.now)) state.now (event_numbers events.now) }
    ensures { EventHoldsTold Q.value Q.fits (problem_of Q.value ground.now) state.now result }
{
    let mut found = false;
    'each: for event in events {
        match holds(event.condition(ground), state) {
            Err(overflow) => return Err(Halt::Limit(Limit::Number(overflow))),
            Ok(truth) => {
                if truth {
                    found = true;
                }
            }
        }
    }
    Ok(found)
}

fn go_halt<Q: Exact>(stop: GoStop<Q>) -> Halt<Q>
    ensures { result ≡ of_go stop }
{
    match stop {
        GoStop::Number(overflow) => Halt::Limit(Limit::Number(overflow)),
        GoStop::Nonlinear {
            process,
            comparison,
        } => Halt::Limit(Limit::Nonlinear {
            owner: Owner::Process(process),
            comparison,
        }),
    }
}

// What begins in a state on the way, which is reached at this time, by a look at these events and
// processes, where it is known what the others tell. The refusal is the first test that fails: all
// events, then the processes just after up to the first that differs from the running set, and then the
// events just after up to the first that holds; or want of memory.
fn begins_here<Q: Exact>(
    ground: &Ground<Q>,
    state: &State<Q>,
    running: &Running<Q>,
    time: Q,
    events: &[EventId],
    processes: &[ProcessId],
) -> Result<Option<End>, Halt<Q>>
    requires state { StateFits (length (ground.now.atoms.items)) (length (ground.now.fluents.items)) state.now }
    requires members { AreMembers (length (ground.now.processes.items)) (process_numbers running.now.members.items) }
    requires rates { length (running.now.rates) ≡ length (state.now.fluents) }
    requires events { AreMembers (length (ground.now.events.items)) (event_numbers events.now) }
    requires processes { AreMembers (length (ground.now.processes.items)) (process_numbers processes.now) }
    requires others { OthersKnown Q.fits (problem_of Q.value ground.now) (process_numbers running.now.members.items) state.now running.now.rates (event_numbers events.now) (process_numbers processes.now) }
    ensures { Told Q.value Q.fits
        (here_tests (problem_of Q.value ground.now) (Q.value time) state.now (process_numbers running.now.members.items) running.now.rates [])
        (HereIs (problem_of Q.value ground.now) state.now (process_numbers running.now.members.items) running.now.rates)
        (MomentlessHere (problem_of Q.value ground.now) (Q.value time) state.now (process_numbers running.now.members.items) running.now.rates)
        result }
{
    match event_holds(ground, state, events) {
        Err(halt) => return Err(halt),
        Ok(holds) => {
            if holds {
                return Ok(Some(End::EventHolds));
            }
        }
    }
    match first_other(
        ground,
        &running.members,
        state,
        &running.rates,
        Looked::These(processes),
    ) {
        Err(stop) => Err(go_halt(stop)),
        Ok(Some(_)) => Ok(Some(End::SetEnds)),
        Ok(None) => match none_soon(ground, state, &running.rates, time, Looked::These(events)) {
            Err(halt) => Err(halt),
            Ok(()) => Ok(None),
        },
    }
}

// The moment so much later.
fn later<Q: Exact>(time: Q, delay: Q) -> Result<Q, Halt<Q>>
    ensures { Told Q.value Q.fits (asks (node Sign.Plus (Q.value time) (Q.value delay)) ∷ [])
        (λ moment. Q.value moment ≡ Q.value time +ℚ Q.value delay) Never result }
{
    match exact(Sign::Plus, time, delay, time.add(delay)) {
        Ok(moment) => Ok(moment),
        Err(overflow) => Err(Halt::Limit(Limit::Number(overflow))),
    }
}

// Moves the state ahead to so much time after the beginning, and notes what has changed since then.
#[inline(always)]
pub fn move_ahead<Q: Exact>(
    state: &State<Q>,
    ahead: &mut Ahead<Q>,
    rates: &Rates<Q>,
    delay: Q,
) -> Result<(), Halt<Q>>
    requires rates { length rates.now ≡ length (state.now.fluents) }
    requires along { IsAlong state.now rates.now ahead.old.state }
    ensures told { Told Q.value Q.fits (map asks (moved_nodes (state.now.fluents) rates.now (Q.value delay)))
        (λ _. ComesBy state.now rates.now (Q.value delay) ahead.new.arrival.changes) Never result }
    ensures along { IsAlong state.now rates.now ahead.new.state }
    ensures there { OnOk result (ahead.new.state ≡ moved state.now rates.now (Q.value delay)) }
{
    match moved_changes(state, rates, delay, &mut ahead.arrival.changes) {
        Err(MoveStop::Number(overflow)) => Err(Halt::Limit(Limit::Number(overflow))),
        Err(MoveStop::Memory) => Err(Halt::Memory),
        Ok(()) => {
            ahead.state.patch(&ahead.arrival.changes);
            Ok(())
        }
    }
}

// What happens at a root, where all fluents that move are moved there at once.
fn at_root_moved<Q: Exact>(
    ground: &Ground<Q>,
    state: &State<Q>,
    ahead: &mut Ahead<Q>,
    running: &Running<Q>,
    time: Q,
    root: Q,
    events: &[EventId],
    processes: &[ProcessId],
) -> Result<bool, Halt<Q>>
    requires state { StateFits (length (ground.now.atoms.items)) (length (ground.now.fluents.items)) state.now }
    requires members { AreMembers (length (ground.now.processes.items)) (process_numbers running.now.members.items) }
    requires rates { length (running.now.rates) ≡ length (state.now.fluents) }
    requires along { IsAlong state.now running.now.rates ahead.old.state }
    requires events { AreMembers (length (ground.now.events.items)) (event_numbers events.now) }
    requires processes { AreMembers (length (ground.now.processes.items)) (process_numbers processes.now) }
    requires others { OthersKnown Q.fits (problem_of Q.value ground.now) (process_numbers running.now.members.items) (moved state.now running.now.rates (Q.value root)) running.now.rates (event_numbers events.now) (process_numbers processes.now) }
    ensures told { CrossingTold Q.value Q.fits (problem_of Q.value ground.now) (Q.value time) state.now (process_numbers running.now.members.items) running.now.rates (Q.value root) (if_begun ahead.new.arrival result) }
    ensures along { IsAlong state.now running.now.rates ahead.new.state }
    ensures arrived { IfOk (if_begun ahead.new.arrival result) (λ o. IfSome o (IsArrived state.now ahead.new.state)) }
{
    let moment = later(time, root)?;
    move_ahead(state, ahead, &running.rates, root)?;
    match begins_here(ground, &ahead.state, running, moment, events, processes) {
        Err(halt) => Err(halt),
        Ok(None) => Ok(false),
        Ok(Some(end)) => {
            ahead.arrival.time = moment;
            ahead.arrival.end = end;
            Ok(true)
        }
    }
}

// What happens at a root, where it is known that all that move stay values of the type: they are set on
// their way, and what has changed is worked only where something begins.
fn at_root_in_motion<Q: Exact>(
    ground: &Ground<Q>,
    state: &State<Q>,
    ahead: &mut Ahead<Q>,
    running: &Running<Q>,
    time: Q,
    root: Q,
    events: &[EventId],
    processes: &[ProcessId],
) -> Result<bool, Halt<Q>>
    requires state { StateFits (length (ground.now.atoms.items)) (length (ground.now.fluents.items)) state.now }
    requires members { AreMembers (length (ground.now.processes.items)) (process_numbers running.now.members.items) }
    requires rates { length (running.now.rates) ≡ length (state.now.fluents) }
    requires along { IsAlong state.now running.now.rates ahead.old.state }
    requires events { AreMembers (length (ground.now.events.items)) (event_numbers events.now) }
    requires processes { AreMembers (length (ground.now.processes.items)) (process_numbers processes.now) }
    requires fit { AllFit Q.fits (moved_nodes (state.now.fluents) running.now.rates (Q.value root)) }
    requires others { OthersKnown Q.fits (problem_of Q.value ground.now) (process_numbers running.now.members.items) (moved state.now running.now.rates (Q.value root)) running.now.rates (event_numbers events.now) (process_numbers processes.now) }
    ensures told { CrossingTold Q.value Q.fits (problem_of Q.value ground.now) (Q.value time) state.now (process_numbers running.now.members.items) running.now.rates (Q.value root) (if_begun ahead.new.arrival result) }
    ensures along { IsAlong state.now running.now.rates ahead.new.state }
    ensures arrived { IfOk (if_begun ahead.new.arrival result) (λ o. IfSome o (IsArrived state.now ahead.new.state)) }
{
    let moment = later(time, root)?;
    set_motions(state, &mut ahead.state, &running.rates, root);
    match begins_here(ground, &ahead.state, running, moment, events, processes)? {
        None => Ok(false),
        Some(end) => match move_ahead(state, ahead, &running.rates, root) {
            Err(halt) => Err(halt),
            Ok(()) => {
                ahead.arrival.time = moment;
                ahead.arrival.end = end;
                Ok(true)
            }
        },
    }
}

// Whether all that goes no further than this, if that is known, is sure to stay a value after so much time.
fn drifts<Q: Exact>(extent: Option<u64>, delay: Q) -> bool
    ensures { result ≡ true → IsSomeAnd extent (λ e. MayDrift Q.fits e (Q.value delay)) }
{
    match extent {
        None => false,
        Some(most) => may_drift(most, delay),
    }
}

/// Whether something begins so much time after the beginning of a stretch, by a look at these events and
/// processes, where it is known what the others tell there: then the arrival says when the stretch ends, and
/// why. The refusal is the first test that fails: the moment, the fluents that move, and then what is asked
/// there of all events and processes; or want of memory. The state ahead is moved there.
/// Where it is known how far the fluents go that move (`extent`), they may be set on their way.
#[inline(always)]
pub fn at_root<Q: Exact>(
    ground: &Ground<Q>,
    state: &State<Q>,
    ahead: &mut Ahead<Q>,
    running: &Running<Q>,
    time: Q,
    root: Q,
    events: &[EventId],
    processes: &[ProcessId],
    extent: Option<u64>,
) -> Result<bool, Halt<Q>>
    requires state { StateFits (length (ground.now.atoms.items)) (length (ground.now.fluents.items)) state.now }
    requires members { AreMembers (length (ground.now.processes.items)) (process_numbers running.now.members.items) }
    requires rates { length (running.now.rates) ≡ length (state.now.fluents) }
    requires along { IsAlong state.now running.now.rates ahead.old.state }
    requires events { AreMembers (length (ground.now.events.items)) (event_numbers events.now) }
    requires processes { AreMembers (length (ground.now.processes.items)) (process_numbers processes.now) }
    requires extent { IfSome extent (Extends state.now.fluents running.now.rates) }
    requires others { OthersKnown Q.fits (problem_of Q.value ground.now) (process_numbers running.now.members.items) (moved state.now running.now.rates (Q.value root)) running.now.rates (event_numbers events.now) (process_numbers processes.now) }
    ensures told { CrossingTold Q.value Q.fits (problem_of Q.value ground.now) (Q.value time) state.now (process_numbers running.now.members.items) running.now.rates (Q.value root) (if_begun ahead.new.arrival result) }
    ensures along { IsAlong state.now running.now.rates ahead.new.state }
    ensures arrived { IfOk (if_begun ahead.new.arrival result) (λ o. IfSome o (IsArrived state.now ahead.new.state)) }
{
    if drifts(extent, root) {
        return at_root_in_motion(ground, state, ahead, running, time, root, events, processes);
    }
    at_root_moved(ground, state, ahead, running, time, root, events, processes)
}
