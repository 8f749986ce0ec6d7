//! The acts of the lines of a plan, and its end.

ghost use Rattle.std.specs.Prelude.{◌≡◌, ◌<◌, ◌≤◌, ◌+◌, ◌++◌, length, map, pos, All, IfOk, OnOk};
ghost use Rattle.plus_fraction.specs.Fraction.{whole};
ghost use Rattle.plus_model.specs.Plan.{Instance};
ghost use Rattle.plus_number.specs.Frac.{fraction_of, IsFrac64};
ghost use Rattle.plus_expansion.specs.Calls.{called_of};
ghost use Rattle.plus_expansion.specs.Numbers.{ground_names};
ghost use Rattle.plus_numbering.specs.Numbered.{context};
ghost use Rattle.plus_plan.specs.Answers.{HasBottom};
ghost use Rattle.plus_plan.specs.TimeValue.{value_of};
ghost use Rattle.plus_state.specs.Fits.{ActionFits};
ghost use Rattle.plus_state.specs.View.{action_of};
ghost use Rattle.plus_trim.specs.Acts.{act_of, AllFit};
ghost use Rattle.plus_trim_command.specs.Acts.{act_count, acts_in, last_time};
ghost use Rattle.plus_trim_command.specs.Playable.{IsCallable, IsPlayable, time_after};
ghost use Rattle.plus_validator.specs.Plans.{Pair, pair_in, line_meant, lines_meant, HasValue};

use plus_ground::{InstanceFault, instance};
use plus_number::consts::zero;
use plus_number::frac::Frac64;
use plus_numbering::Numbering;
use plus_plan::{Line, Time, time_value};
use plus_state::problem::Action;
use plus_tree::Call;
use plus_trim::TimedAction;
use std::alloc::{AllocError, Global};

// 1 for an action, and else 0.
fn one_where_act(line: &Line) -> usize
    ensures count { (d : Pair) → result ≡ act_count (line_meant d line.now) }
    ensures few { result ≤ 1 }
{
    match line {
        Line::Act { .. } => 1,
        Line::Blank | Line::End { .. } | Line::Step { .. } => 0,
    }
}

/// How many lines are actions.
pub fn count(lines: &[Line]) -> usize
    ensures { (d : Pair) → result ≡ act_count (lines_meant d lines.now) }
{
    let mut count = 0;
    'each: for line in lines {
        count += one_where_act(line);
    }
    count
}

// The value of a time that is one of the type of numbers.
fn moment(time: &Time) -> Frac64
    requires bottom { 0 < time.now.bottom }
    requires fits { IsFrac64 (value_of time.now) }
    ensures { fraction_of result ≡ value_of time.now }
{
    match time_value(time) {
        Ok(value) => value,
        Err(_) => unreachable!(),
    }
}

// The time of a line, where it has one, and else another.
fn time_or(line: &Line, other: Frac64) -> Frac64
    requires bottom { HasBottom line.now }
    requires value { HasValue line.now }
    ensures { (d : Pair) → fraction_of result ≡ time_after (line_meant d line.now) (fraction_of other) }
{
    match line {
        Line::Act { time, .. } => moment(time),
        Line::End { time, .. } => moment(time),
        Line::Blank | Line::Step { .. } => other,
    }
}

/// The time of the last line, and 0 where there is none.
pub fn end_of(lines: &[Line]) -> Frac64
    requires bottoms { All HasBottom lines.now }
    requires values { All HasValue lines.now }
    ensures { (d : Pair) → fraction_of result ≡ last_time (lines_meant d lines.now) }
{
    let mut end = zero::<Frac64>();
    'each: for line in lines {
        end = time_or(line, end);
    }
    end
}

// Want of memory; no other fault comes here.
fn wanting(fault: InstanceFault) -> AllocError
    requires { fault ≡ InstanceFault.Memory }
{
    match fault {
        InstanceFault::UnknownAction => unreachable!(),
        InstanceFault::WrongArguments => unreachable!(),
        InstanceFault::TooManyNodes => unreachable!(),
        InstanceFault::Literal { .. } => unreachable!(),
        InstanceFault::Memory => AllocError,
    }
}

// The instance that a call names, which is inside the limits.
fn instance_of(
    alloc: Global,
    numbering: &Numbering,
    call: &Call,
) -> Result<Action<Frac64>, AllocError>
    requires { IsCallable numbering.now.typed.now.domain numbering.now.typed.now.problem call.now }
    ensures called { IfOk result (λ a. called_of numbering.now.typed.now.domain numbering.now.typed.now.problem call.now.name call.now.args
        ≡ Instance (action_of fraction_of a)) }
    ensures fits { IfOk result (λ a. ActionFits
        (length (ground_names (context numbering.now) numbering.now.typed.now.domain.predicates))
        (length (ground_names (context numbering.now) numbering.now.typed.now.domain.functions))
        (action_of fraction_of a)) }
{
    match instance::<Frac64>(alloc, numbering, call) {
        Ok(action) => Ok(action),
        Err(fault) => Err(wanting(fault)),
    }
}

// Appends the act of a line, where it has one.
fn add(
    alloc: Global,
    numbering: &Numbering,
    line: &Line,
    acts: &mut Vec<TimedAction<Frac64>>,
) -> Result<(), AllocError>
    requires playable { IsPlayable numbering.now.typed.now.domain numbering.now.typed.now.problem line.now }
    requires fit { AllFit
        (length (ground_names (context numbering.now) numbering.now.typed.now.domain.predicates))
        (length (ground_names (context numbering.now) numbering.now.typed.now.domain.functions))
        (map (act_of fraction_of) acts.old.items) }
    ensures acts { OnOk result (map (act_of fraction_of) acts.new.items
        ≡ map (act_of fraction_of) acts.old.items ++ acts_in (line_meant (pair_in numbering.now.typed.now) line.now)) }
    ensures fit { OnOk result (AllFit
        (length (ground_names (context numbering.now) numbering.now.typed.now.domain.predicates))
        (length (ground_names (context numbering.now) numbering.now.typed.now.domain.functions))
        (map (act_of fraction_of) acts.new.items)) }
{
    match line {
        Line::Act { time, call, .. } => {
            let time = moment(time);
            let action = instance_of(alloc, numbering, call)?;
            acts.push(TimedAction { time, action })?;
            Ok(())
        }
        Line::Blank | Line::End { .. } | Line::Step { .. } => Ok(()),
    }
}

/// The acts of lines that can be played.
pub fn acts_of(
    alloc: Global,
    numbering: &Numbering,
    lines: &[Line],
) -> Result<Vec<TimedAction<Frac64>>, AllocError>
    requires { All (IsPlayable numbering.now.typed.now.domain numbering.now.typed.now.problem) lines.now }
    ensures acts { IfOk result (λ acts. map (act_of fraction_of) acts.items ≡ acts_in (lines_meant (pair_in numbering.now.typed.now) lines.now)) }
    ensures fit { IfOk result (λ acts. AllFit
        (length (ground_names (context numbering.now) numbering.now.typed.now.domain.predicates))
        (length (ground_names (context numbering.now) numbering.now.typed.now.domain.functions))
        (map (act_of fraction_of) acts.items)) }
{
    let mut acts = Vec::new(alloc);
    'each: for line in lines {
        add(alloc, numbering, line, &mut acts)?;
    }
    Ok(acts)
}
