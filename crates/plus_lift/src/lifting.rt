//! Lifts an untimed plan.

ghost use Rattle.std.specs.Prelude.{◌≡◌, ◌<◌, ◌^◌, pos, IfOk, MatchResult};
ghost use Rattle.plus_fraction.specs.Fraction.{whole};
ghost use Rattle.plus_number.specs.Frac.{fraction_of};
ghost use Rattle.plus_expansion.specs.Numbers.{label_of};
ghost use Rattle.plus_steps.specs.Stepped.{time_of_step};
ghost use Rattle.plus_lift.specs.Lifts.{IsOverflow, IsLifted, IsNotLifted};

use crate::fault::LiftFault;
use plus_number::exact::Exact;
use plus_number::frac::Frac64;
use plus_state::term::{Overflow, Sign};
use plus_state::{Label, TimedPlan};
use plus_tree::Call;
use std::alloc::{AllocError, Global};

// The label of a call: its name, and the names of its arguments.
fn label(alloc: Global, call: &Call) -> Result<Label, AllocError>
    ensures { IfOk result (λ label. label ≡ label_of call.now.name call.now.args) }
{
    let mut text = Vec::new(alloc);
    text.push(b'(')?;
    text.extend_from_slice(call.name.bytes())?;
    'each: for arg in call.args.as_slice() {
        text.push(b' ')?;
        text.extend_from_slice(arg.bytes())?;
    }
    text.push(b')')?;
    Label::new(alloc, &text)
}

// A count as a value.
#[tactic(auto, using(crate::proofs::TimeLemmas::counts_fit))]
fn counted(count: u64) -> Frac64
    requires { count < 2 ^ 63 }
    ensures { fraction_of result ≡ whole (pos count) }
{
    match Frac64::ratio(count as i64, 1) {
        Ok(value) => value,
        Err(_) => unreachable!(),
    }
}

// The time after so many steps.
fn time(count: u64, interval: Frac64) -> Result<Frac64, LiftFault>
    requires { count < 2 ^ 63 }
    ensures { MatchResult result (λ time. fraction_of time ≡ time_of_step (fraction_of interval) count)
        (λ fault. IsOverflow interval count fault) }
{
    let steps = counted(count);
    match steps.mul(interval) {
        Ok(time) => Ok(time),
        Err(_) => Err(LiftFault::Number(Overflow {
            sign: Sign::Times,
            left: steps,
            right: interval,
        })),
    }
}

/// The timed plan that these calls leave: each action at the time of the steps before it, and the end
/// at the time of all steps.
#[tactic(auto, using(crate::proofs::LiftLemmas::lifting))]
pub fn lift(alloc: Global, steps: &[Call], interval: Frac64) -> Result<TimedPlan<Frac64>, LiftFault>
    ensures { MatchResult result (IsLifted (fraction_of interval) steps.now)
        (IsNotLifted interval steps.now) }
{
    let mut acts = Vec::new(alloc);
    let mut count = 0u64;
    'steps: for step in steps {
        if step.name.bytes() == b"pp-step".as_slice() {
            count += 1;
            continue;
        }
        if step.name.bytes() == b"pp-fire".as_slice() {
            continue;
        }
        let now = match time(count, interval) {
            Ok(now) => now,
            Err(fault) => return Err(fault),
        };
        let label = match label(alloc, step) {
            Ok(label) => label,
            Err(_) => return Err(LiftFault::Memory),
        };
        if let Err(_) = acts.push((now, label)) {
            return Err(LiftFault::Memory);
        }
    }
    match time(count, interval) {
        Ok(end) => Ok(TimedPlan { acts, end }),
        Err(fault) => Err(fault),
    }
}
