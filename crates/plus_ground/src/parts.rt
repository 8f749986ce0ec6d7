//! The parts of a ground problem, two results to a function.

ghost use Rattle.std.specs.Prelude.{◌≡◌, true, [], map, IfOk};
ghost use Rattle.plus_state.specs.View.{condition_of, process_of, event_of, timed_of};
ghost use Rattle.plus_types.specs.Faults.{problem_context};
ghost use Rattle.plus_expansion.specs.Numbers.{ground_labels};
ghost use Rattle.plus_expansion.specs.Expansion.{initial_state, timed_meant, instances_of, process_meant, event_meant, condition_meant};
ghost use Rattle.plus_expansion.specs.Counting.{IsGroundable};

use crate::conditions::condition;
use crate::environments::Environment;
use crate::initial::initial;
use crate::schemas::{events, processes};
use crate::timed_literals::timed_literals;
use plus_literal::FromParts;
use plus_numbering::Numbering;
use plus_state::{Cond, Event, Label, Process, State, Timed};
use std::alloc::{AllocError, Global};

/// The names of the ground atoms and fluents.
#[derive(Drop)]
pub struct Names {
    pub atoms: Vec<Label>,
    pub fluents: Vec<Label>,
}

/// What a ground problem begins with, and what it is to end with.
#[derive(Drop)]
pub struct Ends<Q: FromParts> {
    pub initial: State<Q>,
    pub goal: Cond<Q>,
}

/// What acts by its condition alone.
#[derive(Drop)]
pub struct Rules<Q: FromParts> {
    pub processes: Vec<Process<Q>>,
    pub events: Vec<Event<Q>>,
}

/// What happens without an action.
#[derive(Drop)]
pub struct Happenings<Q: FromParts> {
    pub rules: Rules<Q>,
    pub timed: Vec<Timed<Q>>,
}

/// All but the names.
#[derive(Drop)]
pub struct Contents<Q: FromParts> {
    pub ends: Ends<Q>,
    pub happenings: Happenings<Q>,
}

/// The names, in ground order.
pub fn ground_names(alloc: Global, numbering: &Numbering) -> Result<Names, AllocError>
    ensures atoms { IfOk result (λ n. n.atoms.items ≡ ground_labels (problem_context numbering.now.typed.now.domain numbering.now.typed.now.problem) numbering.now.typed.now.domain.predicates) }
    ensures fluents { IfOk result (λ n. n.fluents.items ≡ ground_labels (problem_context numbering.now.typed.now.domain numbering.now.typed.now.problem) numbering.now.typed.now.domain.functions) }
{
    let atoms = numbering.atom_labels(alloc)?;
    let fluents = numbering.fluent_labels(alloc)?;
    Ok(Names { atoms, fluents })
}

// The goal.
fn ground_goal<Q: FromParts>(alloc: Global, numbering: &Numbering) -> Result<Cond<Q>, AllocError>
    requires { IsGroundable Q.fits numbering.now.typed.now.domain numbering.now.typed.now.problem }
    ensures { IfOk result (λ k. condition_of Q.value k
        ≡ condition_meant (problem_context numbering.now.typed.now.domain numbering.now.typed.now.problem) [] true numbering.now.typed.now.problem.goal) }
{
    let problem = numbering.typed.problem();
    let none = Environment::new(alloc);
    let goal = condition(alloc, numbering, &none, true, &problem.goal)?;
    Ok(goal)
}

// The initial state and the goal.
fn ground_ends<Q: FromParts>(alloc: Global, numbering: &Numbering) -> Result<Ends<Q>, AllocError>
    requires { IsGroundable Q.fits numbering.now.typed.now.domain numbering.now.typed.now.problem }
    ensures initial { IfOk result (λ e. e.initial
        ≡ initial_state (problem_context numbering.now.typed.now.domain numbering.now.typed.now.problem) numbering.now.typed.now.problem.init) }
    ensures goal { IfOk result (λ e. condition_of Q.value e.goal
        ≡ condition_meant (problem_context numbering.now.typed.now.domain numbering.now.typed.now.problem) [] true numbering.now.typed.now.problem.goal) }
{
    let problem = numbering.typed.problem();
    let initial = initial(alloc, numbering, problem.init.as_slice())?;
    let goal = ground_goal(alloc, numbering)?;
    Ok(Ends { initial, goal })
}

// The processes and the events.
fn ground_rules<Q: FromParts>(alloc: Global, numbering: &Numbering) -> Result<Rules<Q>, AllocError>
    requires { IsGroundable Q.fits numbering.now.typed.now.domain numbering.now.typed.now.problem }
    ensures processes { IfOk result (λ r. map (process_of Q.value) r.processes.items
        ≡ instances_of (problem_context numbering.now.typed.now.domain numbering.now.typed.now.problem)
        (process_meant (problem_context numbering.now.typed.now.domain numbering.now.typed.now.problem)) numbering.now.typed.now.domain.processes) }
    ensures events { IfOk result (λ r. map (event_of Q.value) r.events.items
        ≡ instances_of (problem_context numbering.now.typed.now.domain numbering.now.typed.now.problem)
        (event_meant (problem_context numbering.now.typed.now.domain numbering.now.typed.now.problem)) numbering.now.typed.now.domain.events) }
{
    let domain = numbering.typed.domain();
    let processes = processes(alloc, numbering, domain.processes.as_slice())?;
    let events = events(alloc, numbering, domain.events.as_slice())?;
    Ok(Rules { processes, events })
}

// The processes, the events and the timed literals.
fn ground_happenings<Q: FromParts>(
    alloc: Global,
    numbering: &Numbering,
) -> Result<Happenings<Q>, AllocError>
    requires { IsGroundable Q.fits numbering.now.typed.now.domain numbering.now.typed.now.problem }
    ensures processes { IfOk result (λ h. map (process_of Q.value) h.rules.processes.items
        ≡ instances_of (problem_context numbering.now.typed.now.domain numbering.now.typed.now.problem)
        (process_meant (problem_context numbering.now.typed.now.domain numbering.now.typed.now.problem)) numbering.now.typed.now.domain.processes) }
    ensures events { IfOk result (λ h. map (event_of Q.value) h.rules.events.items
        ≡ instances_of (problem_context numbering.now.typed.now.domain numbering.now.typed.now.problem)
        (event_meant (problem_context numbering.now.typed.now.domain numbering.now.typed.now.problem)) numbering.now.typed.now.domain.events) }
    ensures timed { IfOk result (λ h. map (timed_of Q.value) h.timed.items
        ≡ timed_meant (problem_context numbering.now.typed.now.domain numbering.now.typed.now.problem) numbering.now.typed.now.problem.init) }
{
    let problem = numbering.typed.problem();
    let rules = ground_rules(alloc, numbering)?;
    let timed = timed_literals(alloc, numbering, problem.init.as_slice())?;
    Ok(Happenings { rules, timed })
}

/// All but the names.
pub fn ground_contents<Q: FromParts>(
    alloc: Global,
    numbering: &Numbering,
) -> Result<Contents<Q>, AllocError>
    requires { IsGroundable Q.fits numbering.now.typed.now.domain numbering.now.typed.now.problem }
    ensures initial { IfOk result (λ c. c.ends.initial
        ≡ initial_state (problem_context numbering.now.typed.now.domain numbering.now.typed.now.problem) numbering.now.typed.now.problem.init) }
    ensures goal { IfOk result (λ c. condition_of Q.value c.ends.goal
        ≡ condition_meant (problem_context numbering.now.typed.now.domain numbering.now.typed.now.problem) [] true numbering.now.typed.now.problem.goal) }
    ensures processes { IfOk result (λ c. map (process_of Q.value) c.happenings.rules.processes.items
        ≡ instances_of (problem_context numbering.now.typed.now.domain numbering.now.typed.now.problem)
        (process_meant (problem_context numbering.now.typed.now.domain numbering.now.typed.now.problem)) numbering.now.typed.now.domain.processes) }
    ensures events { IfOk result (λ c. map (event_of Q.value) c.happenings.rules.events.items
        ≡ instances_of (problem_context numbering.now.typed.now.domain numbering.now.typed.now.problem)
        (event_meant (problem_context numbering.now.typed.now.domain numbering.now.typed.now.problem)) numbering.now.typed.now.domain.events) }
    ensures timed { IfOk result (λ c. map (timed_of Q.value) c.happenings.timed.items
        ≡ timed_meant (problem_context numbering.now.typed.now.domain numbering.now.typed.now.problem) numbering.now.typed.now.problem.init) }
{
    let ends = ground_ends(alloc, numbering)?;
    let happenings = ground_happenings(alloc, numbering)?;
    Ok(Contents { ends, happenings })
}
