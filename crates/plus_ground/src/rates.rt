//! The ground rates of processes.

ghost use Rattle.std.specs.Prelude.{◌≡◌, ◌++◌, All, IfOk, OnOk, map};
ghost use Rattle.plus_numbering.specs.Numbered.{context};
ghost use Rattle.plus_literal.specs.Value.{LiteralFits};
ghost use Rattle.plus_state.specs.View.{expression_of, rate_of};
ghost use Rattle.plus_tree.specs.Expr.{exprs_of};
ghost use Rattle.plus_expansion.specs.Literals.{expression_literals, expressions_literals, write_literals, effect_literals};
ghost use Rattle.plus_expansion.specs.Expansion.{factor_meant, amount_meant, rate_meant, rates_meant};

use crate::effects::writes_nothing;
use crate::environments::{Environment, environments, fluent};
use crate::expressions::{expression, zero};
use plus_literal::FromParts;
use plus_numbering::Numbering;
use plus_state::{Expr, Rate};
use plus_tree::{EffectNode, EffectTree, ExprNode, ExprTree, LeafNode, Use};
use plus_types::effects::is_clock;
use std::alloc::{AllocError, Global};

// Of two factors, the one beside `#t`.
fn factor<Q: FromParts>(
    alloc: Global,
    numbering: &Numbering,
    env: &Environment,
    factors: &[ExprTree],
) -> Result<Expr<Q>, AllocError>
    requires { All (LiteralFits Q.fits) (expressions_literals (exprs_of factors.now)) }
    ensures { IfOk result (λ e. expression_of Q.value e
        ≡ factor_meant (context numbering.now) env.now (exprs_of factors.now)) }
{
    if factors.len() != 2 {
        // Stands in no well-typed pair.
        return Ok(Expr::Number(zero()));
    }
    if is_clock(&factors[0]) {
        expression(alloc, numbering, env, &factors[1])
    } else {
        expression(alloc, numbering, env, &factors[0])
    }
}

// The amount of a rate: the factor beside `#t`, and 1 of `#t` alone.
fn amount<Q: FromParts>(
    alloc: Global,
    numbering: &Numbering,
    env: &Environment,
    expr: &ExprTree,
) -> Result<Expr<Q>, AllocError>
    requires { All (LiteralFits Q.fits) (expression_literals expr.now) }
    ensures { IfOk result (λ e. expression_of Q.value e
        ≡ amount_meant (context numbering.now) env.now expr.now) }
{
    match &expr.node {
        ExprNode::Product(factors) => factor(alloc, numbering, env, factors),
        _ => expression(alloc, numbering, env, expr),
    }
}

// Adds the rate of a write: up of an `increase`, down of a `decrease`.
fn rate<Q: FromParts>(
    alloc: Global,
    numbering: &Numbering,
    env: &Environment,
    leaf: &LeafNode,
    into: &mut Vec<Rate<Q>>,
) -> Result<(), AllocError>
    requires { All (LiteralFits Q.fits) (write_literals leaf.now) }
    ensures { OnOk result (map (rate_of Q.value) into.new.items ≡ map (rate_of Q.value) into.old.items
        ++ rate_meant (context numbering.now) env.now leaf.now) }
{
    match leaf {
        LeafNode::Increase(used, by) => {
            let fluent = fluent(alloc, numbering, env, used)?;
            let amount = amount(alloc, numbering, env, by)?;
            into.push(Rate {
                fluent,
                up: true,
                amount,
            })?;
            Ok(())
        }
        LeafNode::Decrease(used, by) => {
            let fluent = fluent(alloc, numbering, env, used)?;
            let amount = amount(alloc, numbering, env, by)?;
            into.push(Rate {
                fluent,
                up: false,
                amount,
            })?;
            Ok(())
        }
        // Stand in the effect of no process of a well-typed pair.
        LeafNode::Add(_)
        | LeafNode::Delete(_)
        | LeafNode::Assign(_, _)
        | LeafNode::ScaleUp(_, _)
        | LeafNode::ScaleDown(_, _) => Ok(()),
    }
}

/// Adds the ground rates of the effect of a process, in text order.
pub fn rates<Q: FromParts>(
    alloc: Global,
    numbering: &Numbering,
    env: &Environment,
    effect: &EffectTree,
    into: &mut Vec<Rate<Q>>,
) -> Result<(), AllocError>
    requires { All (LiteralFits Q.fits) (effect_literals effect.now) }
    ensures { OnOk result (map (rate_of Q.value) into.new.items ≡ map (rate_of Q.value) into.old.items
        ++ rates_meant (context numbering.now) env.now effect.now) }
{
    match &effect.node {
        EffectNode::All(members) => {
            'members: for member in members {
                rates(alloc, numbering, env, member, into)?;
            }
            Ok(())
        }
        EffectNode::ForAll(vars, body) => {
            if writes_nothing(body) {
                return Ok(());
            }
            'choices: for inner in &environments(alloc, numbering, vars.as_slice(), env)? {
                rates(alloc, numbering, inner, body, into)?;
            }
            Ok(())
        }
        // Stands in the effect of no process of a well-typed pair.
        EffectNode::When(_, _) => Ok(()),
        EffectNode::Leaf(leaf) => rate(alloc, numbering, env, &leaf.node, into),
    }
}
