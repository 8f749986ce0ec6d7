//! The ground forms of conditions.

ghost use Rattle.std.specs.Prelude.{◌≡◌, [], All, IfOk, map, nat_eq};
ghost use Rattle.plus_numbering.specs.Numbered.{context};
ghost use Rattle.plus_literal.specs.Value.{LiteralFits};
ghost use Rattle.plus_model.specs.Terms.{Always, Compare};
ghost use Rattle.plus_model.specs.Value.{signed};
ghost use Rattle.plus_state.specs.View.{condition_of, test_of};
ghost use Rattle.plus_state.specs.Tests.{joined};
ghost use Rattle.plus_expansion.specs.Literals.{expression_literals, condition_literals};
ghost use Rattle.plus_expansion.specs.Expansion.{expression_meant, condition_meant, test_meant};
ghost use Rattle.plus_expansion.specs.Environments.{term_object};
ghost use Rattle.plus_ground.specs.Chains.{asks_all};

use crate::environments::{Environment, atom, environments, term_object};
use crate::expressions::expression;
use plus_literal::FromParts;
use plus_numbering::Numbering;
use plus_state::{Cond, Test};
use plus_tree::{Comparison, CondNode, CondTree, ExprTree, Term};
use std::alloc::{AllocError, Global};

// All of these, or any of them.
#[tactic(auto, using(crate::proofs::ConditionsLemmas::viewing))]
fn joined<Q: FromParts>(all: bool, members: Vec<Cond<Q>>) -> Cond<Q>
    ensures { condition_of Q.value result ≡ joined all (map (condition_of Q.value) members.items) }
{
    if all {
        Cond::All(members)
    } else {
        Cond::Any(members)
    }
}

/// The condition that always holds.
#[tactic(auto, using(crate::proofs::ConditionsLemmas::no_members))]
pub fn always<Q: FromParts>(alloc: Global) -> Cond<Q>
    ensures { condition_of Q.value result ≡ Always }
{
    Cond::All(Vec::new(alloc))
}

fn test(comparison: Comparison) -> Test
    ensures { test_of result ≡ test_meant comparison }
{
    match comparison {
        Comparison::Less => Test::Less,
        Comparison::AtMost => Test::AtMost,
        Comparison::Equal => Test::Equal,
        Comparison::AtLeast => Test::AtLeast,
        Comparison::Greater => Test::Greater,
    }
}

// A truth, or its opposite where the sign is false.
fn signed(positive: bool, truth: bool) -> bool
    ensures { result ≡ signed positive truth }
{
    if positive { truth } else { !truth }
}

// Whether it is one of the forms that ask all of their members.
fn asks_all(cond: &CondTree) -> bool
    ensures { result ≡ asks_all cond.now }
{
    match &cond.node {
        CondNode::All(_) | CondNode::ForAll(_, _) => true,
        _ => false,
    }
}

// Whether two terms are the same object, or are not.
fn same<Q: FromParts>(
    alloc: Global,
    numbering: &Numbering,
    env: &Environment,
    positive: bool,
    left: &Term,
    right: &Term,
) -> Cond<Q>
    ensures { condition_of Q.value result ≡ joined (signed positive (nat_eq
        (term_object (context numbering.now) env.now left.now)
        (term_object (context numbering.now) env.now right.now))) [] }
{
    let same = term_object(numbering, env, left) == term_object(numbering, env, right);
    joined(signed(positive, same), Vec::new(alloc))
}

// The ground form of a comparison.
fn compare<Q: FromParts>(
    alloc: Global,
    numbering: &Numbering,
    env: &Environment,
    positive: bool,
    comparison: Comparison,
    sides: (&ExprTree, &ExprTree),
) -> Result<Cond<Q>, AllocError>
    requires left { All (LiteralFits Q.fits) (expression_literals sides.0.now) }
    requires right { All (LiteralFits Q.fits) (expression_literals sides.1.now) }
    ensures { IfOk result (λ k. condition_of Q.value k ≡ Compare (test_meant comparison)
        (expression_meant (context numbering.now) env.now sides.entry.0.now)
        (expression_meant (context numbering.now) env.now sides.entry.1.now) positive) }
{
    Ok(Cond::Compare {
        test: test(comparison),
        left: expression(alloc, numbering, env, sides.0)?,
        right: expression(alloc, numbering, env, sides.1)?,
        positive,
    })
}

/// The ground form of a condition, or of its negation where the sign is false. Negations go inward to
/// atoms and comparisons; a quantifier is the forms of its body for the objects of the types of its
/// variables.
#[tactic(auto, using(crate::proofs::ConditionsLemmas::meaning))]
pub fn condition<Q: FromParts>(
    alloc: Global,
    numbering: &Numbering,
    env: &Environment,
    positive: bool,
    cond: &CondTree,
) -> Result<Cond<Q>, AllocError>
    requires { All (LiteralFits Q.fits) (condition_literals cond.now) }
    ensures { IfOk result (λ k. condition_of Q.value k
        ≡ condition_meant (context numbering.now) env.now positive cond.now) }
{
    let all = signed(positive, asks_all(cond));
    match &cond.node {
        CondNode::All(members) | CondNode::Any(members) => {
            let mut forms = Vec::with_capacity(alloc, members.len())?;
            'members: for member in members {
                forms.push(condition(alloc, numbering, env, positive, member)?)?;
            }
            Ok(joined(all, forms))
        }
        CondNode::Imply(premise, conclusion) => {
            let mut forms = Vec::with_capacity(alloc, 2)?;
            forms.push(condition(alloc, numbering, env, !positive, premise)?)?;
            forms.push(condition(alloc, numbering, env, positive, conclusion)?)?;
            Ok(joined(all, forms))
        }
        CondNode::ForAll(vars, body) | CondNode::Exists(vars, body) => {
            let mut forms = Vec::new(alloc);
            'choices: for inner in &environments(alloc, numbering, vars.as_slice(), env)? {
                forms.push(condition(alloc, numbering, inner, positive, body)?)?;
            }
            Ok(joined(all, forms))
        }
        CondNode::Not(negated) => condition(alloc, numbering, env, !positive, negated),
        CondNode::Atom(used) => {
            let atom = atom(alloc, numbering, env, used)?;
            Ok(Cond::Atom { atom, positive })
        }
        CondNode::Same(left, right) => Ok(same(alloc, numbering, env, positive, left, right)),
        CondNode::Compare(test, left, right) => {
            compare(alloc, numbering, env, positive, *test, (left, right))
        }
    }
}
