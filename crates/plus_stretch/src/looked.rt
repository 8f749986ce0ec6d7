//! Which events and processes are looked at from root to root.
ghost use Rattle.std.specs.Prelude.{◌≡◌, ◌<◌, ◌↔◌, ℕ, true, [], ◌∷◌, ◌++◌, length, map, IfOk, if◌then◌else◌};
ghost use Rattle.plus_model.specs.Firing.{is_in};
ghost use Rattle.plus_model.specs.Running.{IsRising};
ghost use Rattle.plus_state.specs.View.{problem_of};
ghost use Rattle.plus_state.specs.Numbers.{event_numbers, process_numbers, AreMembers};
ghost use Rattle.plus_state.specs.Walk.{event_conditions, process_conditions};
ghost use Rattle.plus_state.specs.Looked.{looked_numbers, events_looked, processes_looked};
ghost use Rattle.plus_stretch.specs.Tests.{whose};
ghost use Rattle.plus_stretch.specs.Marked.{marks_of, event_of, process_of, owning_events, owning_processes};
ghost use Rattle.plus_stretch.specs.Skips.{not_simple_among};

use crate::mark::Mark;
use plus_crossing::rates::Rates;
use plus_number::exact::Exact;
use plus_reads::touched::members_into;
use plus_settle::still::simple::is_simple;
use plus_state::looked::Looked;
use plus_state::outcome::Owner;
use plus_state::problem::Ground;
use plus_state::term::{EventId, ProcessId};
use plus_state::walk::Conditional;
use std::alloc::{AllocError, Global};

/// Events and processes.
#[derive(Drop)]
pub struct Lists {
    pub events: Vec<EventId>,
    pub processes: Vec<ProcessId>,
}

impl Lists {
    /// None yet.
    pub fn new(alloc: Global) -> Lists {
        Lists {
            events: Vec::new(alloc),
            processes: Vec::new(alloc),
        }
    }
}

/// What is looked at at one root after the other, and memory for their numbers.
#[derive(Drop)]
pub struct Looking {
    pub looked: Lists,
    numbers: Vec<u32>,
}

impl Looking {
    /// None yet.
    pub fn new(alloc: Global) -> Looking {
        Looking {
            looked: Lists::new(alloc),
            numbers: Vec::new(alloc),
        }
    }
}

fn append_unless<I: Conditional>(
    found: &mut Vec<I>,
    member: I,
    left_out: bool,
) -> Result<(), AllocError>
    ensures { IfOk result (λ _. map I.number found.new.items
        ≡ map I.number found.old.items ++ (if left_out then [] else I.number member ∷ [])) }
{
    if !left_out {
        found.push(member)?;
    }
    Ok(())
}

// Puts those of these members whose condition is not simple in place of others.
fn not_simple<Q: Exact, I: Conditional>(
    ground: &Ground<Q>,
    rates: &Rates<Q>,
    looked: Looked<'_, I>,
    found: &mut Vec<I>,
) -> Result<(), AllocError>
    requires rates { length rates.now ≡ length (ground.now.fluents.items) }
    requires members { AreMembers (length (I.conditions (problem_of Q.value ground.now))) (looked_numbers I.number looked) }
    ensures { IfOk result (λ _. map I.number found.new.items ≡ not_simple_among (I.conditions (problem_of Q.value ground.now)) (looked_numbers I.number looked.entry) rates.now) }
{
    found.clear();
    'each: for place in 0..looked.count() {
        let member = looked.member(place);
        let simple = is_simple(member.condition(ground), rates);
        append_unless(found, member, simple)?;
    }
    Ok(())
}

/// Puts those of these events and processes whose conditions are not simple in place of others: what they ask may
/// fail on the way.
pub fn everywhere<Q: Exact>(
    ground: &Ground<Q>,
    rates: &Rates<Q>,
    events: Looked<'_, EventId>,
    processes: Looked<'_, ProcessId>,
    into: &mut Lists,
) -> Result<(), AllocError>
    requires rates { length rates.now ≡ length (ground.now.fluents.items) }
    requires events { AreMembers (length (ground.now.events.items)) (events_looked events) }
    requires processes { AreMembers (length (ground.now.processes.items)) (processes_looked processes) }
    ensures events { IfOk result (λ _. event_numbers into.new.events.items ≡ not_simple_among (event_conditions (problem_of Q.value ground.now)) (events_looked events.entry) rates.now) }
    ensures processes { IfOk result (λ _. process_numbers into.new.processes.items ≡ not_simple_among (process_conditions (problem_of Q.value ground.now)) (processes_looked processes.entry) rates.now) }
{
    not_simple(ground, rates, events, &mut into.events)?;
    not_simple(ground, rates, processes, &mut into.processes)?;
    Ok(())
}

// In order, each once.
#[inline(always)]
fn sort_once(numbers: &mut Vec<u32>)
    ensures rises { IsRising 0 numbers.new.items }
    ensures same { (k : ℕ) → is_in numbers.new.items k ≡ true ↔ is_in numbers.old.items k ≡ true }
{
    numbers.sort_unstable();
    numbers.dedup();
}

// Puts the members with these numbers, in ground order and each once, in place of others.
fn in_order<I: Conditional>(numbers: &mut Vec<u32>, members: &mut Vec<I>) -> Result<(), AllocError>
    ensures rising { IfOk result (λ _. IsRising 0 (map I.number members.new.items)) }
    ensures same { IfOk result (λ _. (k : ℕ) → is_in (map I.number members.new.items) k ≡ true ↔ is_in numbers.old.items k ≡ true) }
{
    sort_once(numbers);
    members_into(numbers, members)?;
    Ok(())
}

fn note_event(numbers: &mut Vec<u32>, owner: Owner) -> Result<(), AllocError>
    ensures { IfOk result (λ _. numbers.new.items ≡ numbers.old.items ++ event_of (whose owner)) }
{
    match owner {
        Owner::Event(event) => {
            numbers.push(event.0)?;
            Ok(())
        }
        Owner::Process(_) => Ok(()),
    }
}

fn note_process(numbers: &mut Vec<u32>, owner: Owner) -> Result<(), AllocError>
    ensures { IfOk result (λ _. numbers.new.items ≡ numbers.old.items ++ process_of (whose owner)) }
{
    match owner {
        Owner::Event(_) => Ok(()),
        Owner::Process(process) => {
            numbers.push(process.0)?;
            Ok(())
        }
    }
}

// Puts the numbers of these events, and of those among the owners, in place of others.
fn with_events<Q: Exact>(
    events: &[EventId],
    marks: &[Mark<Q>],
    numbers: &mut Vec<u32>,
) -> Result<(), AllocError>
    ensures { IfOk result (λ _. numbers.new.items ≡ event_numbers events.now ++ owning_events (marks_of Q.value marks.now)) }
{
    numbers.clear();
    'events: for event in events {
        numbers.push(event.0)?;
    }
    'marks: for mark in marks {
        note_event(numbers, mark.owner)?;
    }
    Ok(())
}

// Puts the numbers of these processes, and of those among the owners, in place of others.
fn with_processes<Q: Exact>(
    processes: &[ProcessId],
    marks: &[Mark<Q>],
    numbers: &mut Vec<u32>,
) -> Result<(), AllocError>
    ensures { IfOk result (λ _. numbers.new.items ≡ process_numbers processes.now ++ owning_processes (marks_of Q.value marks.now)) }
{
    numbers.clear();
    'processes: for process in processes {
        numbers.push(process.0)?;
    }
    'marks: for mark in marks {
        note_process(numbers, mark.owner)?;
    }
    Ok(())
}

/// Puts what is looked at where these marks are in place of what is looked at before: their owners, and whatever
/// is looked at everywhere; in ground order and each once.
pub fn looked_at<Q: Exact>(
    marks: &[Mark<Q>],
    everywhere: &Lists,
    looking: &mut Looking,
) -> Result<(), AllocError>
    ensures events_rise { IfOk result (λ _. IsRising 0 (event_numbers looking.new.looked.events.items)) }
    ensures events { IfOk result (λ _. (k : ℕ) → is_in (event_numbers looking.new.looked.events.items) k ≡ true
        ↔ is_in (event_numbers everywhere.now.events.items ++ owning_events (marks_of Q.value marks.now)) k ≡ true) }
    ensures processes_rise { IfOk result (λ _. IsRising 0 (process_numbers looking.new.looked.processes.items)) }
    ensures processes { IfOk result (λ _. (k : ℕ) → is_in (process_numbers looking.new.looked.processes.items) k ≡ true
        ↔ is_in (process_numbers everywhere.now.processes.items ++ owning_processes (marks_of Q.value marks.now)) k ≡ true) }
{
    with_events(&everywhere.events, marks, &mut looking.numbers)?;
    in_order(&mut looking.numbers, &mut looking.looked.events)?;
    with_processes(&everywhere.processes, marks, &mut looking.numbers)?;
    in_order(&mut looking.numbers, &mut looking.looked.processes)?;
    Ok(())
}
