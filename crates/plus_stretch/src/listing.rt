//! All roots along rates, with their owners.
ghost use Rattle.std.specs.Prelude.{◌≡◌, ◌++◌, [], length, map, IfOk};
ghost use Rattle.plus_state.specs.View.{problem_of};
ghost use Rattle.plus_state.specs.Fits.{StateFits};
ghost use Rattle.plus_state.specs.Numbers.{AreMembers};
ghost use Rattle.plus_state.specs.Looked.{events_looked, processes_looked};
ghost use Rattle.plus_state.specs.Walk.{event_conditions, process_conditions};
ghost use Rattle.plus_stretch.specs.Tests.{event, process, whose};
ghost use Rattle.plus_stretch.specs.StretchTests.{root_tests};
ghost use Rattle.plus_stretch.specs.Told.{Told, Never};
ghost use Rattle.plus_stretch.specs.Collected.{of_roots};
ghost use Rattle.plus_stretch.specs.Among.{OthersHaveNoRoot};
ghost use Rattle.plus_stretch.specs.Marked.{marks_of, MarksTold, AllMarked};

use crate::halt::Halt;
use crate::mark::{Mark, Room};
use plus_crossing::listing::{RootsStop, roots_into};
use plus_crossing::node::CondStop;
use plus_crossing::rates::Rates;
use plus_number::exact::Exact;
use plus_state::looked::Looked;
use plus_state::outcome::{Limit, Owner};
use plus_state::problem::Ground;
use plus_state::states::State;
use plus_state::term::{Cond, EventId, ProcessId};
use std::alloc::AllocError;

// The stop of a condition of this owner.
fn root_halt<Q: Exact>(stop: RootsStop<Q>, owner: Owner) -> Halt<Q>
    ensures { result ≡ of_roots owner stop }
{
    match stop {
        RootsStop::Condition(CondStop::Number(overflow)) => Halt::Limit(Limit::Number(overflow)),
        RootsStop::Condition(CondStop::Nonlinear { comparison }) => {
            Halt::Limit(Limit::Nonlinear { owner, comparison })
        }
        RootsStop::Memory => Halt::Memory,
    }
}

// Appends marks of these roots.
fn mark_all<Q: Exact>(roots: &[Q], owner: Owner, into: &mut Vec<Mark<Q>>) -> Result<(), AllocError>
    ensures { IfOk result (λ _. marks_of Q.value into.new.items ≡ marks_of Q.value into.old.items ++ map (λ r. (Q.value r, whose owner)) roots.now) }
{
    'each: for root in roots {
        into.push(Mark { at: *root, owner })?;
    }
    Ok(())
}

// Appends the roots of these events, where no other event has one.
fn event_marks<Q: Exact>(
    ground: &Ground<Q>,
    state: &State<Q>,
    rates: &Rates<Q>,
    events: Looked<'_, EventId>,
    roots: &mut Vec<Q>,
    into: &mut Vec<Mark<Q>>,
) -> Result<(), Halt<Q>>
    requires state { StateFits (length (ground.now.atoms.items)) (length (ground.now.fluents.items)) state.now }
    requires rates { length rates.now ≡ length (state.now.fluents) }
    requires events { AreMembers (length (ground.now.events.items)) (events_looked events) }
    requires others { OthersHaveNoRoot Q.fits (event_conditions (problem_of Q.value ground.now)) state.now rates.now (events_looked events) }
    ensures { MarksTold Q.value Q.fits event (λ e. e.condition) ((problem_of Q.value ground.now).events) state.now rates.now into.old.items into.new.items result }
{
    'each: for place in 0..events.count() {
        let id = events.member(place);
        roots.clear();
        match roots_into(&ground.events[id.0 as usize].condition, state, rates, roots) {
            Err(stop) => return Err(root_halt(stop, Owner::Event(id))),
            Ok(()) => match mark_all(roots, Owner::Event(id), into) {
                Err(_) => return Err(Halt::Memory),
                Ok(()) => {}
            },
        }
    }
    Ok(())
}

// Appends the roots of these processes, where no other process has one.
fn process_marks<Q: Exact>(
    ground: &Ground<Q>,
    state: &State<Q>,
    rates: &Rates<Q>,
    processes: Looked<'_, ProcessId>,
    roots: &mut Vec<Q>,
    into: &mut Vec<Mark<Q>>,
) -> Result<(), Halt<Q>>
    requires state { StateFits (length (ground.now.atoms.items)) (length (ground.now.fluents.items)) state.now }
    requires rates { length rates.now ≡ length (state.now.fluents) }
    requires processes { AreMembers (length (ground.now.processes.items)) (processes_looked processes) }
    requires others { OthersHaveNoRoot Q.fits (process_conditions (problem_of Q.value ground.now)) state.now rates.now (processes_looked processes) }
    ensures { MarksTold Q.value Q.fits process (λ p. p.condition) ((problem_of Q.value ground.now).processes) state.now rates.now into.old.items into.new.items result }
{
    'each: for place in 0..processes.count() {
        let id = processes.member(place);
        roots.clear();
        match roots_into(
            &ground.processes[id.0 as usize].condition,
            state,
            rates,
            roots,
        ) {
            Err(stop) => return Err(root_halt(stop, Owner::Process(id))),
            Ok(()) => match mark_all(roots, Owner::Process(id), into) {
                Err(_) => return Err(Halt::Memory),
                Ok(()) => {}
            },
        }
    }
    Ok(())
}

/// The moments above 0 at which the sides of a live comparison meet, when the fluents move at these
/// rates, with their owners: those of all events and then of all processes, in ground order and in the
/// order of the text, by a look at some alone, where no other one has a root. They are the
/// marks in the room then, which is memory only: whatever stands in it before is left out. The refusal
/// is the first test that fails, or want of memory.
pub fn roots<Q: Exact>(
    ground: &Ground<Q>,
    state: &State<Q>,
    rates: &Rates<Q>,
    events: Looked<'_, EventId>,
    processes: Looked<'_, ProcessId>,
    room: &mut Room<Q>,
) -> Result<(), Halt<Q>>
    requires state { StateFits (length (ground.now.atoms.items)) (length (ground.now.fluents.items)) state.now }
    requires rates { length rates.now ≡ length (state.now.fluents) }
    requires events { AreMembers (length (ground.now.events.items)) (events_looked events) }
    requires processes { AreMembers (length (ground.now.processes.items)) (processes_looked processes) }
    requires other_events { OthersHaveNoRoot Q.fits (event_conditions (problem_of Q.value ground.now)) state.now rates.now (events_looked events) }
    requires other_processes { OthersHaveNoRoot Q.fits (process_conditions (problem_of Q.value ground.now)) state.now rates.now (processes_looked processes) }
    ensures { Told Q.value Q.fits (root_tests (problem_of Q.value ground.now) state.now rates.now)
        (λ _. AllMarked (problem_of Q.value ground.now) state.now rates.now (marks_of Q.value room.new.marks.items)) Never result }
{
    room.marks.clear();
    event_marks(
        ground,
        state,
        rates,
        events,
        &mut room.roots,
        &mut room.marks,
    )?;
    process_marks(
        ground,
        state,
        rates,
        processes,
        &mut room.roots,
        &mut room.marks,
    )?;
    Ok(())
}
