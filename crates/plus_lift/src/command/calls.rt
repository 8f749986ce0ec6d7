//! What the calls of a plan of the translation stand for.

ghost use Rattle.std.specs.Prelude.{◌≡◌, ◌++◌, codes, IfOk, IfErr, MatchResult};
ghost use Rattle.plus_io.specs.MemSink.{sink_state};
ghost use Rattle.plus_number.specs.Frac.{fraction_of};
ghost use Rattle.plus_report.specs.Plans.{acts_of, plan_text};
ghost use Rattle.plus_report.specs.Verdicts.{operation_text};
ghost use Rattle.plus_lift.specs.Command.Lift.{JudgesPlan, LiftsCalls};

use crate::{LiftFault, lift, overflow_line};
use plus_io::{Freeing, MemSink};
use plus_number::frac::Frac64;
use plus_reply::reply::{Fault, Reply};
use plus_report::{Status, write_plan};
use plus_state::TimedPlan;
use plus_state::term::Overflow;
use plus_tree::Call;
use plus_types::Typed;
use plus_validator::judge::judge;
use plus_words::happenings::Happenings;
use plus_words::interval::Interval;
use std::alloc::Global;

// The lines of a timed plan.
fn lines(alloc: Global, plan: &TimedPlan<Frac64>) -> Result<MemSink, Fault>
    ensures { MatchResult result
        (λ text. (sink_state text).bytes ≡ plan_text (acts_of fraction_of plan.now.acts.items) (fraction_of plan.now.«end»))
        (λ fault. fault ≡ Fault.NoMemory) }
{
    let mut text = MemSink::new(alloc, usize::MAX);
    match write_plan(&mut text, plan) {
        Ok(()) => Ok(text),
        Err(_) => Err(Fault::NoMemory),
    }
}

// A timed plan, and the verdict of a check on it.
fn judged(alloc: Global, typed: &Typed, plan: &TimedPlan<Frac64>) -> Result<Reply, Fault>
    ensures { MatchResult result
        (JudgesPlan typed.now.domain typed.now.problem
        (plan_text (acts_of fraction_of plan.now.acts.items) (fraction_of plan.now.«end»)))
        (λ fault. fault ≡ Fault.NoMemory) }
{
    let lines = lines(alloc, plan)?;
    let judged = judge(
        alloc,
        typed,
        lines.bytes(),
        Happenings::DEFAULT.number,
        Freeing::Now,
    )?;
    let mut text = Vec::from_slice(alloc, lines.bytes())?;
    text.extend_from_slice(b"; ")?;
    text.extend_from_slice(&judged.line)?;
    Ok(Reply {
        status: judged.outcome().status(),
        text,
    })
}

// A time is no value.
fn late(alloc: Global, overflow: &Overflow<Frac64>) -> Result<Reply, Fault>
    ensures { MatchResult result
        (λ r. (r.status ≡ Status.Beyond)
        × (r.text.items ≡ codes "beyond: number " ++ operation_text fraction_of overflow.now))
        (λ fault. fault ≡ Fault.NoMemory) }
{
    let text = overflow_line(alloc, overflow)?;
    Ok(Reply {
        status: Status::Beyond,
        text,
    })
}

/// The timed plan that these calls stand for, and the verdict on it.
#[tactic(none)]
pub fn lifted(
    alloc: Global,
    interval: Interval,
    typed: &Typed,
    calls: &[Call],
) -> Result<Reply, Fault>
    ensures lifts { IfOk result (λ r. LiftsCalls (fraction_of interval.value)
        typed.now.domain typed.now.problem calls.now r.status r.text.items) }
    ensures memory { IfErr result (λ fault. fault ≡ Fault.NoMemory) }
{
    match lift(alloc, calls, interval.value) {
        Ok(plan) => judged(alloc, typed, &plan),
        Err(LiftFault::Number(overflow)) => late(alloc, &overflow),
        Err(LiftFault::Memory) => Err(Fault::NoMemory),
    }
}
