//! From a well-typed pair to what a search answers.
ghost use Rattle.std.specs.Prelude.{◌≡◌, ◌<◌, ◌≤◌, ◌+◌, ◌*◌, ◌^◌, pos, map, length, IfOk, IfErr};
ghost use Rattle.plus_fraction.specs.Fraction.{whole, ◌<ℚ◌};
ghost use Rattle.plus_number.specs.Frac.{fraction_of, IsFrac64};
ghost use Rattle.plus_state.specs.View.{problem_of, action_of};
ghost use Rattle.plus_expansion.specs.Expansion.{expanded};
ghost use Rattle.plus_actions.specs.Actions.{ground_actions};
ghost use Rattle.plus_planner.specs.Places.{task_from, CanSearch};
ghost use Rattle.plus_planner.specs.Searches.{IsNotSpent};
ghost use Rattle.plus_cut.specs.Answers.{CutAnswers};
ghost use Rattle.plus_possible.specs.Possible.{narrowed};
ghost use Rattle.plus_plan_command.specs.Planning.Planned.{cut_atoms, cut_asked, IsInside, IsPlanned, IsUnplanned};

use plus_actions::ground_actions;
use plus_cut::{CutPlanner, Lost};
use plus_ground::ground;
use plus_number::frac::Frac64;
use plus_numbering::{GroundFault, Numbering};
use plus_planner::{Answer, ByGoal, Planner};
use plus_possible::narrow;
use plus_state::problem::{Action, Ground};
use plus_types::Typed;
use std::alloc::{AllocError, Global};

// The planner of a pair whose ground atoms and fluents are numbered.
fn planner(
    alloc: Global,
    numbering: &Numbering,
    interval: Frac64,
) -> Result<Planner<Frac64, ByGoal>, GroundFault>
    requires { whole (pos 0) <ℚ fraction_of interval }
    ensures problem { IfOk result (λ w. problem_of fraction_of w.problem
        ≡ expanded numbering.now.typed.now.domain numbering.now.typed.now.problem) }
    ensures actions { IfOk result (λ w. map (action_of fraction_of) w.actions.items
        ≡ ground_actions numbering.now.typed.now.domain numbering.now.typed.now.problem) }
    ensures interval { IfOk result (λ w. w.interval ≡ interval) }
    ensures inside { IfOk result (λ _. IsInside numbering.now.typed.now.domain numbering.now.typed.now.problem) }
    ensures refused { IfErr result (IsUnplanned numbering.now.typed.now.domain numbering.now.typed.now.problem) }
{
    let problem = ground::<Frac64>(alloc, numbering)?;
    let actions = ground_actions::<Frac64>(alloc, numbering)?;
    Ok(Planner::new(alloc, problem, actions, interval, ByGoal))
}

// The cut that is asked for. One that is not looks at no atom, and never says yes.
fn cut_for(planner: &Planner<Frac64, ByGoal>, is_cut: bool) -> Result<Lost, AllocError>
    ensures { IfOk result (λ c. c.atoms.items
        ≡ cut_atoms is_cut (task_from (problem_of fraction_of planner.now.problem)
        (map (action_of fraction_of) planner.now.actions.items) (fraction_of planner.now.interval))) }
{
    if is_cut {
        Lost::find(planner.alloc, &planner.problem, &planner.actions)
    } else {
        Ok(Lost {
            atoms: Vec::new(planner.alloc),
        })
    }
}

// The planner over those of these actions that may be done.
fn possible_only(
    alloc: Global,
    problem: Ground<Frac64>,
    mut actions: Vec<Action<Frac64>>,
    interval: Frac64,
) -> Result<Planner<Frac64, ByGoal>, AllocError>
    requires { CanSearch (task_from (problem_of fraction_of problem) (map (action_of fraction_of) actions.items) (fraction_of interval)) }
    ensures { IfOk result (λ w. task_from (problem_of fraction_of w.problem) (map (action_of fraction_of) w.actions.items) (fraction_of w.interval)
        ≡ narrowed (task_from (problem_of fraction_of problem) (map (action_of fraction_of) actions.items) (fraction_of interval))) }
{
    narrow(alloc, &problem, &mut actions)?;
    Ok(Planner::new(alloc, problem, actions, interval, ByGoal))
}

// Searches with the cut, or without, and over the actions that may be done. The cut is that for all actions.
fn search_with(
    planner: Planner<Frac64, ByGoal>,
    decisions: u32,
    tries: u64,
    is_cut: bool,
) -> Result<Answer<Frac64>, AllocError>
    requires few { decisions ≤ 64 }
    requires tries { tries < u64.MAX }
    ensures answers { IfOk result (CutAnswers fraction_of IsFrac64 (task_from (problem_of fraction_of planner.problem)
        (map (action_of fraction_of) planner.actions.items) (fraction_of planner.interval))
        (cut_asked is_cut (task_from (problem_of fraction_of planner.problem)
        (map (action_of fraction_of) planner.actions.items) (fraction_of planner.interval))) decisions tries) }
    ensures enough { (decisions + 1) * ((length planner.actions.items + 2) ^ decisions) ≤ tries → IfOk result IsNotSpent }
{
    let cut = cut_for(&planner, is_cut)?;
    let Planner {
        alloc,
        problem,
        actions,
        interval,
        ..
    } = planner;
    let planner = possible_only(alloc, problem, actions, interval)?;
    let planner = CutPlanner::over(planner, cut);
    planner.search(decisions, tries)
}

// Searches for a plan of a pair whose ground atoms and fluents are numbered.
fn search(
    alloc: Global,
    numbering: &Numbering,
    interval: Frac64,
    decisions: u32,
    tries: u64,
    is_cut: bool,
) -> Result<Answer<Frac64>, GroundFault>
    requires above { whole (pos 0) <ℚ fraction_of interval }
    requires few { decisions ≤ 64 }
    requires tries { tries < u64.MAX }
    ensures planned { IfOk result (IsPlanned numbering.now.typed.now.domain numbering.now.typed.now.problem
        (fraction_of interval) decisions tries is_cut) }
    ensures unplanned { IfErr result (IsUnplanned numbering.now.typed.now.domain numbering.now.typed.now.problem) }
{
    let planner = planner(alloc, numbering, interval)?;
    match search_with(planner, decisions, tries, is_cut) {
        Ok(answer) => Ok(answer),
        Err(_) => Err(GroundFault::Memory),
    }
}

/// Searches for a plan of a well-typed pair: of at most so many decisions on the grid of the interval, with
/// so many tries, and with the cut by the atoms of the goal that nothing adds or without. There is no search where the ground problem or the ground actions pass a limit, or a
/// literal of them is no value of the type of numbers.
pub fn plan(
    alloc: Global,
    typed: &Typed,
    interval: Frac64,
    decisions: u32,
    tries: u64,
    is_cut: bool,
) -> Result<Answer<Frac64>, GroundFault>
    requires above { whole (pos 0) <ℚ fraction_of interval }
    requires few { decisions ≤ 64 }
    requires tries { tries < u64.MAX }
    ensures planned { IfOk result (IsPlanned typed.now.domain typed.now.problem (fraction_of interval) decisions tries is_cut) }
    ensures unplanned { IfErr result (IsUnplanned typed.now.domain typed.now.problem) }
{
    let numbering = Numbering::new(alloc, typed)?;
    search(alloc, &numbering, interval, decisions, tries, is_cut)
}
