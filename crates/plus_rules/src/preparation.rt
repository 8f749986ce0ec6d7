//! Makes the constraints of a text ready to be watched.

ghost use Rattle.std.specs.Prelude.{◌≡◌, ◌<◌, ◌^◌, [], map, All, IfOk, MatchResult};
ghost use Rattle.plus_state.specs.View.{condition_of};
ghost use Rattle.plus_state.specs.Fits.{Fits, comparisons};
ghost use Rattle.plus_literal.specs.Value.{literal_value, LiteralFits};
ghost use Rattle.plus_expansion.specs.Expansion.{expanded};
ghost use Rattle.plus_expansion.specs.Literals.{condition_literals};
ghost use Rattle.plus_numbering.specs.Numbered.{context};
ghost use Rattle.plus_watch.specs.View.{when_of};
ghost use Rattle.plus_watch.specs.Watched.{constraint_of, constraints_of};
ghost use Rattle.plus_rules.specs.Written.{faults_of, times_of, numbers_of, when_meant, constraint_meant, constraints_meant};
ghost use Rattle.plus_rules.specs.Refusals.{AreSound, RefusesConstraints, fault_of};

use crate::faults::WatchFault;
use crate::numbers::fit;
use crate::sizes::are_small;
use crate::typing::walk;
use plus_ground::conditions::condition;
use plus_ground::environments::Environment;
use plus_literal::{FromParts, literal};
use plus_numbering::Numbering;
use plus_tree::{Constraint, Literal, Rule};
use plus_types::TypeFault;
use plus_watch::rule::RuleAt;
use plus_watch::watched::Watched;
use std::alloc::{AllocError, Global};

// How a fault of typing is told. Its text is that of the constraints.
fn told(fault: TypeFault) -> WatchFault
    ensures { result ≡ fault_of fault }
{
    match fault {
        TypeFault::At {
            wrong,
            file: _,
            span,
        } => WatchFault::At { wrong, span },
        TypeFault::Memory => WatchFault::Memory,
    }
}

// Tests the limits of constraints that are well typed.
fn limits<Q: FromParts>(numbering: &Numbering<'_>, rules: &[Constraint]) -> Result<(), WatchFault>
    requires { faults_of numbering.now.typed.now.domain numbering.now.typed.now.problem rules.now ≡ [] }
    ensures { MatchResult result
        (λ _. AreSound Q.fits numbering.now.typed.now.domain numbering.now.typed.now.problem rules.now)
        (RefusesConstraints Q.fits numbering.now.typed.now.domain numbering.now.typed.now.problem rules.now) }
{
    if !are_small(numbering, rules) {
        return Err(WatchFault::TooManyNodes);
    }
    match fit::<Q>(rules) {
        Ok(()) => Ok(()),
        Err(span) => Err(WatchFault::Literal { span }),
    }
}

// Tests constraints, in the order in which their faults are told.
fn test<Q: FromParts>(
    alloc: Global,
    numbering: &Numbering<'_>,
    rules: &[Constraint],
) -> Result<(), WatchFault>
    ensures { MatchResult result
        (λ _. AreSound Q.fits numbering.now.typed.now.domain numbering.now.typed.now.problem rules.now)
        (RefusesConstraints Q.fits numbering.now.typed.now.domain numbering.now.typed.now.problem rules.now) }
{
    match walk(alloc, numbering.typed, rules) {
        Ok(()) => limits::<Q>(numbering, rules),
        Err(fault) => Err(told(fault)),
    }
}

// The time that a literal means.
fn time<Q: FromParts>(value: &Literal) -> Q
    requires { LiteralFits Q.fits value.now }
    ensures { Q.value result ≡ literal_value value.now }
{
    match literal::<Q>(value) {
        Ok(time) => time,
        Err(_) => unreachable!(),
    }
}

// When a condition under a rule is to hold.
fn rule_at<Q: FromParts>(rule: Rule) -> RuleAt<Q>
    requires { All (LiteralFits Q.fits) (times_of rule) }
    ensures { when_of Q.value result ≡ when_meant rule }
{
    match rule {
        Rule::Always => RuleAt::Always,
        Rule::Sometime => RuleAt::Sometime,
        Rule::Within(until) => RuleAt::Within(time(&until)),
        Rule::HoldAfter(from) => RuleAt::HoldAfter(time(&from)),
    }
}

// A constraint with its ground condition.
fn watched<Q: FromParts>(
    alloc: Global,
    numbering: &Numbering<'_>,
    rule: &Constraint,
) -> Result<Watched<Q>, AllocError>
    requires condition { All (LiteralFits Q.fits) (condition_literals rule.now.cond) }
    requires time { All (LiteralFits Q.fits) (times_of rule.now.rule) }
    ensures { IfOk result (λ w. constraint_of Q.value w ≡ constraint_meant (context numbering.now) rule.now) }
{
    let none = Environment::new(alloc);
    let cond = condition(alloc, numbering, &none, true, &rule.cond)?;
    Ok(Watched {
        rule: rule_at(rule.rule),
        cond,
    })
}

// Constraints whose numbers are values, with their ground conditions.
fn build<Q: FromParts>(
    alloc: Global,
    numbering: &Numbering<'_>,
    rules: &[Constraint],
) -> Result<Vec<Watched<Q>>, AllocError>
    requires { All (LiteralFits Q.fits) (numbers_of rules.now) }
    ensures { IfOk result (λ ws. constraints_of Q.value ws.items
        ≡ map (constraint_meant (context numbering.now)) rules.now) }
{
    let mut found = Vec::with_capacity(alloc, rules.len())?;
    'rules: for rule in rules {
        found.push(watched(alloc, numbering, rule)?)?;
    }
    Ok(found)
}

/// The constraints of a text beside a well-typed pair, ready to be watched. They are refused at the first form of a condition that
/// breaks a rule of typing, in text order; else where the ground events, the ground processes and the ground conditions have more than
/// 1,000,000 nodes together; else at the first literal of a condition that is no value of the type of numbers; else at the first time of
/// a rule that is none.
pub fn prepare<Q: FromParts>(
    alloc: Global,
    numbering: &Numbering<'_>,
    rules: &[Constraint],
) -> Result<Vec<Watched<Q>>, WatchFault>
    ensures meant { IfOk result (λ ws. constraints_of Q.value ws.items
        ≡ constraints_meant numbering.now.typed.now.domain numbering.now.typed.now.problem rules.now) }
    ensures limits { MatchResult result
        (λ _. AreSound Q.fits numbering.now.typed.now.domain numbering.now.typed.now.problem rules.now)
        (RefusesConstraints Q.fits numbering.now.typed.now.domain numbering.now.typed.now.problem rules.now) }
    ensures fit { IfOk result (λ ws. All (λ w. Fits
        (expanded numbering.now.typed.now.domain numbering.now.typed.now.problem).atoms
        (expanded numbering.now.typed.now.domain numbering.now.typed.now.problem).fluents
        (condition_of Q.value w.cond)) ws.items) }
    ensures few { IfOk result (λ ws. All (λ w. comparisons (condition_of Q.value w.cond) < 2 ^ 32) ws.items) }
{
    test::<Q>(alloc, numbering, rules)?;
    Ok(build(alloc, numbering, rules)?)
}
