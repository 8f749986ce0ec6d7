//! From root to root along a running set.
ghost use Rattle.std.specs.Prelude.{◌≡◌, ◌≤◌, true, [], ◌∷◌, ◌++◌, Ok, length, map, drop, IfOk, IfSome, OnOk, pos};
ghost use Rattle.plus_fraction.specs.Fraction.{whole, ◌-ℚ◌, ◌<ℚ◌};
ghost use Rattle.plus_model.specs.Running.{rates as rates_of, moved, GoesOn};
ghost use Rattle.plus_state.specs.View.{problem_of};
ghost use Rattle.plus_state.specs.Fits.{StateFits};
ghost use Rattle.plus_state.specs.Asked.{node};
ghost use Rattle.plus_state.specs.Numbers.{event_numbers};
ghost use Rattle.plus_state.specs.Walk.{event_conditions, process_conditions};
ghost use Rattle.plus_state.specs.Looked.{events_looked, processes_looked};
ghost use Rattle.plus_crossing.specs.Motions.{Extends};
ghost use Rattle.plus_crossing.specs.Moves.{moved_nodes};
ghost use Rattle.plus_settle.specs.Members.{process_numbers, AreMembers};
ghost use Rattle.plus_stretch.specs.Tests.{asks, AllPass};
ghost use Rattle.plus_stretch.specs.StretchTests.{root_tests};
ghost use Rattle.plus_stretch.specs.Laws.{AreLeft};
ghost use Rattle.plus_stretch.specs.After.{NoneHoldsAfter};
ghost use Rattle.plus_stretch.specs.Told.{Told, Never};
ghost use Rattle.plus_stretch.specs.Here.{IsAlong};
ghost use Rattle.plus_stretch.specs.Crossings.{rising_below};
ghost use Rattle.plus_stretch.specs.Arrives.{if_begun, arrived_at, IsArrived, CrossingTold, IsQuietAtFirst, IsAtEnd, FirstTold, WalkTold, StretchTold};
ghost use Rattle.plus_stretch.specs.Among.{KnownFor, AreKnownAlong};
ghost use Rattle.plus_stretch.specs.Marked.{marks_of, roots_of, owning_events, owning_processes, AreOwners, AreAllMarked, AllMarked, AreAscending};
ghost use Rattle.plus_stretch.specs.Skips.{OthersSimple};

use crate::arrival::{Ahead, End};
use crate::crossing::{at_root, move_ahead};
use crate::halt::Halt;
use crate::least::least_below;
use crate::listing::roots;
use crate::looked::{Lists, Looking, everywhere, looked_at};
use crate::mark::{Mark, Room};
use crate::soon::none_soon;
use crate::sorted::{rising, up_to};
use plus_crossing::motions::extent;
use plus_crossing::node::exact;
use plus_crossing::rates::Rates;
use plus_number::exact::Exact;
use plus_settle::settling::Running;
use plus_state::looked::Looked;
use plus_state::outcome::Limit;
use plus_state::problem::Ground;
use plus_state::states::State;
use plus_state::term::{EventId, ProcessId, Sign};
use std::alloc::Global;

// So few fluents are moved at once faster than set on their way.
const FEW: usize = 8;

// A stretch of time: from a moment up to another, and how long that is.
#[derive(Clone, Copy)]
struct Span<Q> {
    from: Q,
    until: Q,
    length: Q,
}

// What happens at a root: by a look at the owners of the marks there, and at whatever is looked at everywhere, where it is
// known what all others tell.
fn cross<Q: Exact>(
    ground: &Ground<Q>,
    state: &State<Q>,
    ahead: &mut Ahead<Q>,
    running: &Running<Q>,
    time: Q,
    root: Q,
    marks: &[Mark<Q>],
    everywhere: &Lists,
    looking: &mut Looking,
    extent: Option<u64>,
) -> Result<bool, Halt<Q>>
    requires state { StateFits (length (ground.now.atoms.items)) (length (ground.now.fluents.items)) state.now }
    requires members { AreMembers (length (ground.now.processes.items)) (process_numbers running.now.members.items) }
    requires rates { length (running.now.rates) ≡ length (state.now.fluents) }
    requires along { IsAlong state.now running.now.rates ahead.old.state }
    requires owners { AreOwners (problem_of Q.value ground.now) (marks_of Q.value marks.now) }
    requires events { AreMembers (length (ground.now.events.items)) (event_numbers everywhere.now.events.items) }
    requires processes { AreMembers (length (ground.now.processes.items)) (process_numbers everywhere.now.processes.items) }
    requires extent { IfSome extent (Extends state.now.fluents running.now.rates) }
    requires others { KnownFor Q.fits (problem_of Q.value ground.now) (process_numbers running.now.members.items) (moved state.now running.now.rates (Q.value root)) running.now.rates
        (event_numbers everywhere.now.events.items ++ owning_events (marks_of Q.value marks.now))
        (process_numbers everywhere.now.processes.items ++ owning_processes (marks_of Q.value marks.now)) }
    ensures told { CrossingTold Q.value Q.fits (problem_of Q.value ground.now) (Q.value time) state.now (process_numbers running.now.members.items) running.now.rates (Q.value root) (if_begun ahead.new.arrival result) }
    ensures along { IsAlong state.now running.now.rates ahead.new.state }
    ensures arrived { IfOk (if_begun ahead.new.arrival result) (λ o. IfSome o (IsArrived state.now ahead.new.state)) }
{
    match looked_at(marks, everywhere, looking) {
        Err(_) => Err(Halt::Memory),
        Ok(()) => at_root(
            ground,
            state,
            ahead,
            running,
            time,
            root,
            &looking.looked.events,
            &looking.looked.processes,
            extent,
        ),
    }
}

// The same behind the first root, where it is known that nothing begins.
fn cross_behind<Q: Exact>(
    ground: &Ground<Q>,
    state: &State<Q>,
    ahead: &mut Ahead<Q>,
    running: &Running<Q>,
    time: Q,
    root: Q,
    marks: &[Mark<Q>],
    everywhere: &Lists,
    looking: &mut Looking,
    extent: Option<u64>,
    is_first: bool,
) -> Result<bool, Halt<Q>>
    requires state { StateFits (length (ground.now.atoms.items)) (length (ground.now.fluents.items)) state.now }
    requires members { AreMembers (length (ground.now.processes.items)) (process_numbers running.now.members.items) }
    requires rates { length (running.now.rates) ≡ length (state.now.fluents) }
    requires along { IsAlong state.now running.now.rates ahead.old.state }
    requires owners { AreOwners (problem_of Q.value ground.now) (marks_of Q.value marks.now) }
    requires events { AreMembers (length (ground.now.events.items)) (event_numbers everywhere.now.events.items) }
    requires processes { AreMembers (length (ground.now.processes.items)) (process_numbers everywhere.now.processes.items) }
    requires extent { IfSome extent (Extends state.now.fluents running.now.rates) }
    requires others { KnownFor Q.fits (problem_of Q.value ground.now) (process_numbers running.now.members.items) (moved state.now running.now.rates (Q.value root)) running.now.rates
        (event_numbers everywhere.now.events.items ++ owning_events (marks_of Q.value marks.now))
        (process_numbers everywhere.now.processes.items ++ owning_processes (marks_of Q.value marks.now)) }
    requires quiet { is_first ≡ true → IsQuietAtFirst Q.fits (problem_of Q.value ground.now) (Q.value time) state.now (process_numbers running.now.members.items) running.now.rates (Q.value root ∷ []) }
    ensures told { CrossingTold Q.value Q.fits (problem_of Q.value ground.now) (Q.value time) state.now (process_numbers running.now.members.items) running.now.rates (Q.value root) (if_begun ahead.new.arrival result) }
    ensures along { IsAlong state.now running.now.rates ahead.new.state }
    ensures arrived { IfOk (if_begun ahead.new.arrival result) (λ o. IfSome o (IsArrived state.now ahead.new.state)) }
{
    if is_first {
        return Ok(false);
    }
    cross(
        ground, state, ahead, running, time, root, marks, everywhere, looking, extent,
    )
}

// What is reached at the end, so much time later, where nothing begins before it.
fn finish<Q: Exact>(
    state: &State<Q>,
    ahead: &mut Ahead<Q>,
    rates: &Rates<Q>,
    until: Q,
    delay: Q,
) -> Result<(), Halt<Q>>
    requires rates { length rates.now ≡ length (state.now.fluents) }
    requires along { IsAlong state.now rates.now ahead.old.state }
    ensures told { Told Q.value Q.fits (map asks (moved_nodes (state.now.fluents) rates.now (Q.value delay)))
        (IsAtEnd Q.value (Q.value until) state.now rates.now (Q.value delay)) Never (arrived_at ahead.new.arrival result) }
    ensures along { IsAlong state.now rates.now ahead.new.state }
    ensures arrived { OnOk result (IsArrived state.now ahead.new.state ahead.new.arrival) }
{
    match move_ahead(state, ahead, rates, delay) {
        Err(halt) => Err(halt),
        Ok(()) => {
            ahead.arrival.time = until;
            ahead.arrival.end = End::Until;
            Ok(())
        }
    }
}

// The marks behind so many.
fn behind<Q: Exact>(marks: &[Mark<Q>], count: usize) -> &[Mark<Q>]
    requires { count ≤ length marks.now }
    ensures { marks_of Q.value result.now ≡ drop count (marks_of Q.value marks.now) }
{
    &marks[count..]
}

// How far the fluents go that move, where so many move that it pays to set them on their way: then there is room
// for that, if there is memory.
fn quick_extent<Q: Exact>(state: &State<Q>, ahead: &mut State<Q>, rates: &Rates<Q>) -> Option<u64>
    requires { length rates.now ≡ length (state.now.fluents) }
    ensures extent { IfSome result (Extends state.now.fluents rates.now) }
    ensures ahead { ahead.new ≡ ahead.old }
{
    if rates.given().len() <= FEW {
        return None;
    }
    match ahead.make_room_for_motions() {
        Err(_) => None,
        Ok(()) => extent(state, rates),
    }
}

// The same behind a crossing at which nothing begins. It is asked behind the first one, and known behind the others: most
// stretches end at their first crossing, and all has to be moved there.
#[inline(always)]
fn extent_behind<Q: Exact>(
    state: &State<Q>,
    ahead: &mut State<Q>,
    rates: &Rates<Q>,
    is_first: bool,
    known: Option<u64>,
) -> Option<u64>
    requires rates { length rates.now ≡ length (state.now.fluents) }
    requires known { IfSome known (Extends state.now.fluents rates.now) }
    ensures extent { IfSome result (Extends state.now.fluents rates.now) }
    ensures ahead { ahead.new ≡ ahead.old }
{
    if is_first {
        quick_extent(state, ahead, rates)
    } else {
        known
    }
}

// What happens at the least of the roots that are marked, or at the end of the span where none comes before it.
fn first<Q: Exact>(
    ground: &Ground<Q>,
    state: &State<Q>,
    ahead: &mut Ahead<Q>,
    running: &Running<Q>,
    span: Span<Q>,
    marks: &[Mark<Q>],
    here: &mut Vec<Mark<Q>>,
    everywhere: &Lists,
    looking: &mut Looking,
) -> Result<bool, Halt<Q>>
    requires state { StateFits (length (ground.now.atoms.items)) (length (ground.now.fluents.items)) state.now }
    requires members { AreMembers (length (ground.now.processes.items)) (process_numbers running.now.members.items) }
    requires size { length (running.now.rates) ≡ length (state.now.fluents) }
    requires rates { rates_of (problem_of Q.value ground.now) state.now (process_numbers running.now.members.items) ≡ Ok running.now.rates }
    requires on { GoesOn (problem_of Q.value ground.now) state.now running.now.rates (process_numbers running.now.members.items) }
    requires none { NoneHoldsAfter (problem_of Q.value ground.now) state.now running.now.rates }
    requires linear { AllPass Q.fits (root_tests (problem_of Q.value ground.now) state.now running.now.rates) }
    requires later { Q.value span.from <ℚ Q.value span.until }
    requires length { Q.value span.length ≡ Q.value span.until -ℚ Q.value span.from }
    requires along { IsAlong state.now running.now.rates ahead.old.state }
    requires marked { AllMarked (problem_of Q.value ground.now) state.now running.now.rates (marks_of Q.value marks.now) }
    requires events { AreMembers (length (ground.now.events.items)) (event_numbers everywhere.now.events.items) }
    requires processes { AreMembers (length (ground.now.processes.items)) (process_numbers everywhere.now.processes.items) }
    requires simple_events { OthersSimple (event_conditions (problem_of Q.value ground.now)) running.now.rates (event_numbers everywhere.now.events.items) }
    requires simple_processes { OthersSimple (process_conditions (problem_of Q.value ground.now)) running.now.rates (process_numbers everywhere.now.processes.items) }
    ensures told { FirstTold Q.value Q.fits (problem_of Q.value ground.now) (Q.value span.until) (Q.value span.from) state.now (process_numbers running.now.members.items) running.now.rates (Q.value span.length) (rising_below (Q.value span.length) (roots_of (marks_of Q.value marks.now))) (if_begun ahead.new.arrival result) }
    ensures along { IsAlong state.now running.now.rates ahead.new.state }
    ensures arrived { IfOk (if_begun ahead.new.arrival result) (λ o. IfSome o (IsArrived state.now ahead.new.state)) }
{
    match least_below(marks, span.length, here) {
        Err(_) => Err(Halt::Memory),
        Ok(None) => match finish(state, ahead, &running.rates, span.until, span.length) {
            Err(halt) => Err(halt),
            Ok(()) => Ok(true),
        },
        Ok(Some(root)) => cross(
            ground, state, ahead, running, span.from, root, here, everywhere, looking, None,
        ),
    }
}

// From one of these roots to the next, up to the first at which something begins, or to the end: at the first of them it is known
// that nothing begins. At each only the owners of the marks there are looked at, and those whose conditions are not simple.
fn walk<Q: Exact>(
    ground: &Ground<Q>,
    state: &State<Q>,
    ahead: &mut Ahead<Q>,
    running: &Running<Q>,
    span: Span<Q>,
    roots: &[Q],
    marks: &[Mark<Q>],
    everywhere: &Lists,
    looking: &mut Looking,
) -> Result<(), Halt<Q>>
    requires state { StateFits (length (ground.now.atoms.items)) (length (ground.now.fluents.items)) state.now }
    requires members { AreMembers (length (ground.now.processes.items)) (process_numbers running.now.members.items) }
    requires size { length (running.now.rates) ≡ length (state.now.fluents) }
    requires rates { rates_of (problem_of Q.value ground.now) state.now (process_numbers running.now.members.items) ≡ Ok running.now.rates }
    requires on { GoesOn (problem_of Q.value ground.now) state.now running.now.rates (process_numbers running.now.members.items) }
    requires none { NoneHoldsAfter (problem_of Q.value ground.now) state.now running.now.rates }
    requires linear { AllPass Q.fits (root_tests (problem_of Q.value ground.now) state.now running.now.rates) }
    requires later { Q.value span.from <ℚ Q.value span.until }
    requires length { Q.value span.length ≡ Q.value span.until -ℚ Q.value span.from }
    requires roots { AreLeft (problem_of Q.value ground.now) state.now running.now.rates (whole (pos 0)) (Q.value span.length) (map Q.value roots.now) }
    requires quiet { IsQuietAtFirst Q.fits (problem_of Q.value ground.now) (Q.value span.from) state.now (process_numbers running.now.members.items) running.now.rates (map Q.value roots.now) }
    requires along { IsAlong state.now running.now.rates ahead.old.state }
    requires marked { AreAllMarked (problem_of Q.value ground.now) state.now running.now.rates (marks_of Q.value marks.now) }
    requires ascending { AreAscending (roots_of (marks_of Q.value marks.now)) }
    requires events { AreMembers (length (ground.now.events.items)) (event_numbers everywhere.now.events.items) }
    requires processes { AreMembers (length (ground.now.processes.items)) (process_numbers everywhere.now.processes.items) }
    requires simple_events { OthersSimple (event_conditions (problem_of Q.value ground.now)) running.now.rates (event_numbers everywhere.now.events.items) }
    requires simple_processes { OthersSimple (process_conditions (problem_of Q.value ground.now)) running.now.rates (process_numbers everywhere.now.processes.items) }
    ensures told { WalkTold Q.value Q.fits (problem_of Q.value ground.now) (Q.value span.until) (Q.value span.from) state.now (process_numbers running.now.members.items) running.now.rates (Q.value span.length) (map Q.value roots.now) (arrived_at ahead.new.arrival result) }
    ensures along { IsAlong state.now running.now.rates ahead.new.state }
    ensures arrived { OnOk result (IsArrived state.now ahead.new.state ahead.new.arrival) }
{
    let Span {
        from,
        until,
        length,
    } = span;
    let mut rest = marks;
    let mut extent: Option<u64> = None;
    let mut is_first = true;
    'each: for root in roots {
        let count = up_to(rest, *root);
        match cross_behind(
            ground,
            state,
            ahead,
            running,
            from,
            *root,
            &rest[..count],
            everywhere,
            looking,
            extent,
            is_first,
        ) {
            Err(halt) => return Err(halt),
            Ok(true) => return Ok(()),
            Ok(false) => {}
        }
        rest = behind(rest, count);
        extent = extent_behind(state, &mut ahead.state, &running.rates, is_first, extent);
        is_first = false;
    }
    finish(state, ahead, &running.rates, until, length)
}

// From root to root, where the roots stand in the room: the least is tried first, since something begins there mostly. Only
// where nothing does, all marks are put in order.
fn along_roots<Q: Exact>(
    ground: &Ground<Q>,
    state: &State<Q>,
    ahead: &mut Ahead<Q>,
    running: &Running<Q>,
    span: Span<Q>,
    room: &mut Room<Q>,
) -> Result<(), Halt<Q>>
    requires state { StateFits (length (ground.now.atoms.items)) (length (ground.now.fluents.items)) state.now }
    requires members { AreMembers (length (ground.now.processes.items)) (process_numbers running.now.members.items) }
    requires size { length (running.now.rates) ≡ length (state.now.fluents) }
    requires rates { rates_of (problem_of Q.value ground.now) state.now (process_numbers running.now.members.items) ≡ Ok running.now.rates }
    requires on { GoesOn (problem_of Q.value ground.now) state.now running.now.rates (process_numbers running.now.members.items) }
    requires none { NoneHoldsAfter (problem_of Q.value ground.now) state.now running.now.rates }
    requires linear { AllPass Q.fits (root_tests (problem_of Q.value ground.now) state.now running.now.rates) }
    requires later { Q.value span.from <ℚ Q.value span.until }
    requires length { Q.value span.length ≡ Q.value span.until -ℚ Q.value span.from }
    requires along { IsAlong state.now running.now.rates ahead.old.state }
    requires marked { AllMarked (problem_of Q.value ground.now) state.now running.now.rates (marks_of Q.value room.old.marks.items) }
    requires events { AreMembers (length (ground.now.events.items)) (event_numbers room.old.everywhere.events.items) }
    requires processes { AreMembers (length (ground.now.processes.items)) (process_numbers room.old.everywhere.processes.items) }
    requires simple_events { OthersSimple (event_conditions (problem_of Q.value ground.now)) running.now.rates (event_numbers room.old.everywhere.events.items) }
    requires simple_processes { OthersSimple (process_conditions (problem_of Q.value ground.now)) running.now.rates (process_numbers room.old.everywhere.processes.items) }
    ensures told { WalkTold Q.value Q.fits (problem_of Q.value ground.now) (Q.value span.until) (Q.value span.from) state.now (process_numbers running.now.members.items) running.now.rates (Q.value span.length) (rising_below (Q.value span.length) (roots_of (marks_of Q.value room.old.marks.items))) (arrived_at ahead.new.arrival result) }
    ensures along { IsAlong state.now running.now.rates ahead.new.state }
    ensures arrived { OnOk result (IsArrived state.now ahead.new.state ahead.new.arrival) }
{
    match first(
        ground,
        state,
        ahead,
        running,
        span,
        &room.marks,
        &mut room.here,
        &room.everywhere,
        &mut room.looking,
    ) {
        Err(halt) => Err(halt),
        Ok(true) => Ok(()),
        Ok(false) => match rising(&mut room.marks, span.length, &mut room.different) {
            Err(_) => Err(Halt::Memory),
            Ok(()) => walk(
                ground,
                state,
                ahead,
                running,
                span,
                &room.different,
                &room.marks,
                &room.everywhere,
                &mut room.looking,
            ),
        },
    }
}

// How long it is up to this moment.
fn time_left<Q: Exact>(time: Q, until: Q) -> Result<Q, Halt<Q>>
    ensures { Told Q.value Q.fits (asks (node Sign.Minus (Q.value until) (Q.value time)) ∷ [])
        (λ left. Q.value left ≡ Q.value until -ℚ Q.value time) Never result }
{
    match exact(Sign::Minus, until, time, until.sub(time)) {
        Ok(left) => Ok(left),
        Err(overflow) => Err(Halt::Limit(Limit::Number(overflow))),
    }
}

/// How far a running set goes on from a time: the first moment, at most the one asked for, at which an
/// event holds or the set does not go on. The rates are those of its members in the state, and they go
/// on in it; the time asked for is later. Only some events and processes are looked at: no other
/// one reads a fluent that moves, what each other one asks in the state passes, and no other event holds
/// in it. At a root only the events and processes are looked at that have it, and those whose conditions
/// ask more than their truth on the way. The refusal is the first test that fails, in this order: the events just after the state, up
/// to the first that holds; the time that is left; the roots of all events and all processes; then root
/// by root below the time asked for, from the least, the moment, the fluents that move, all events, the
/// processes just after up to the first that differs, and the events just after up to the first that
/// holds; at last the fluents that move up to the time asked for. Want of memory may come at any time.
/// The state ahead is one more copy of the state, which is moved on the way; then it is the state on arrival,
/// and the arrival beside it says when and why the stretch ends there. After a refusal that says nothing. The room is memory only: the answer is the same, whatever stands in it.
pub fn reach_in<Q: Exact>(
    ground: &Ground<Q>,
    state: &State<Q>,
    ahead: &mut Ahead<Q>,
    running: &Running<Q>,
    time: Q,
    until: Q,
    events: Looked<'_, EventId>,
    processes: Looked<'_, ProcessId>,
    room: &mut Room<Q>,
) -> Result<(), Halt<Q>>
    requires state { StateFits (length (ground.now.atoms.items)) (length (ground.now.fluents.items)) state.now }
    requires members { AreMembers (length (ground.now.processes.items)) (process_numbers running.now.members.items) }
    requires size { length (running.now.rates) ≡ length (state.now.fluents) }
    requires rates { rates_of (problem_of Q.value ground.now) state.now (process_numbers running.now.members.items) ≡ Ok running.now.rates }
    requires on { GoesOn (problem_of Q.value ground.now) state.now running.now.rates (process_numbers running.now.members.items) }
    requires later { Q.value time <ℚ Q.value until }
    requires ahead { ahead.old.state ≡ state.now }
    requires known { AreKnownAlong Q.fits (problem_of Q.value ground.now) state.now running.now.rates (events_looked events) (processes_looked processes) }
    ensures told { StretchTold Q.value Q.fits (problem_of Q.value ground.now) (Q.value until) (Q.value time) state.now (process_numbers running.now.members.items) running.now.rates (arrived_at ahead.new.arrival result) }
    ensures along { IsAlong state.now running.now.rates ahead.new.state }
    ensures arrived { OnOk result (IsArrived state.now ahead.new.state ahead.new.arrival) }
{
    none_soon(ground, state, &running.rates, time, events)?;
    let length = time_left(time, until)?;
    roots(ground, state, &running.rates, events, processes, room)?;
    match everywhere(
        ground,
        &running.rates,
        events,
        processes,
        &mut room.everywhere,
    ) {
        Err(_) => Err(Halt::Memory),
        Ok(()) => along_roots(
            ground,
            state,
            ahead,
            running,
            Span {
                from: time,
                until,
                length,
            },
            room,
        ),
    }
}

/// How far a running set goes on from a time, by a look at all events and processes: that of
/// `reach_in`, in memory of its own.
pub fn reach<Q: Exact>(
    alloc: Global,
    ground: &Ground<Q>,
    state: &State<Q>,
    ahead: &mut Ahead<Q>,
    running: &Running<Q>,
    time: Q,
    until: Q,
) -> Result<(), Halt<Q>>
    requires state { StateFits (length (ground.now.atoms.items)) (length (ground.now.fluents.items)) state.now }
    requires members { AreMembers (length (ground.now.processes.items)) (process_numbers running.now.members.items) }
    requires size { length (running.now.rates) ≡ length (state.now.fluents) }
    requires rates { rates_of (problem_of Q.value ground.now) state.now (process_numbers running.now.members.items) ≡ Ok running.now.rates }
    requires on { GoesOn (problem_of Q.value ground.now) state.now running.now.rates (process_numbers running.now.members.items) }
    requires later { Q.value time <ℚ Q.value until }
    requires ahead { ahead.old.state ≡ state.now }
    ensures told { StretchTold Q.value Q.fits (problem_of Q.value ground.now) (Q.value until) (Q.value time) state.now (process_numbers running.now.members.items) running.now.rates (arrived_at ahead.new.arrival result) }
    ensures along { IsAlong state.now running.now.rates ahead.new.state }
    ensures arrived { OnOk result (IsArrived state.now ahead.new.state ahead.new.arrival) }
{
    reach_in(
        ground,
        state,
        ahead,
        running,
        time,
        until,
        Looked::all(ground),
        Looked::all(ground),
        &mut Room::new(alloc),
    )
}
