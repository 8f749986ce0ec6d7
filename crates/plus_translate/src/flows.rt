//! What processes do in a whole step, as the effects of an action.

ghost use Rattle.std.specs.Prelude.{◌≡◌, ◌++◌, [], ◌∷◌, IfOk, OnOk, map, pos};
ghost use Rattle.std.specs.List.{flat_map};
ghost use Rattle.plus_fraction.specs.Fraction.{whole, ◌<ℚ◌};
ghost use Rattle.plus_number.specs.Frac.{fraction_of};
ghost use Rattle.plus_tree.specs.Expr.{x_number, exprs_of};
ghost use Rattle.plus_types.specs.Faults.{is_clock};
ghost use Rattle.plus_translation.specs.Renamed.{nowhere};
ghost use Rattle.plus_translation.specs.Translated.{natural, length_of_step, flow_factor, flow_amount, flow_node, flows};
ghost use Rattle.plus_translate.specs.Placed.{shown};
ghost use Rattle.plus_translate.specs.Fires.{flow_of};

use crate::pieces::{leaf, natural, nested, when};
use crate::placed::{Placed, writes_of};
use plus_number::exact::Exact;
use plus_number::frac::Frac64;
use plus_renaming::copies;
use plus_tree::{CondTree, EffectTree, ExprNode, ExprTree, LeafNode, NOWHERE, Schema, Use};
use std::alloc::{AllocError, Global};

/// A whole number as an expression.
pub fn number(value: u64) -> ExprTree
    ensures { result ≡ x_number (natural value) nowhere }
{
    ExprTree {
        node: ExprNode::Number(natural(value)),
        span: NOWHERE,
    }
}

/// The length of a step: a number, or a quotient of two.
pub fn length_of_step(alloc: Global, interval: Frac64) -> Result<ExprTree, AllocError>
    ensures { IfOk result (λ piece. piece ≡ length_of_step (fraction_of interval)) }
{
    let (top, bottom) = interval.parts();
    let top = number(top.unsigned_abs());
    if bottom == 1 {
        return Ok(top);
    }
    let top = Box::new(alloc, top)?;
    let bottom = Box::new(alloc, number(bottom.unsigned_abs()))?;
    Ok(ExprTree {
        node: ExprNode::Quotient(top, bottom),
        span: NOWHERE,
    })
}

fn is_clock(expr: &ExprTree) -> bool
    ensures { result ≡ is_clock expr.now }
{
    matches!(expr.node, ExprNode::Clock)
}

// The amount of a rate with these factors, for a whole step.
#[tactic(auto, using(crate::proofs::FlowLemmas::others))]
fn factor(alloc: Global, step: &ExprTree, factors: &[ExprTree]) -> Result<ExprTree, AllocError>
    ensures { IfOk result (λ piece. piece ≡ flow_factor step.now (exprs_of factors.now)) }
{
    match factors {
        [first, second] => {
            let rate = if is_clock(first) { second } else { first };
            let mut product = Vec::with_capacity(alloc, 2)?;
            product.push(copies::expression(alloc, step)?)?;
            product.push(copies::expression(alloc, rate)?)?;
            Ok(ExprTree {
                node: ExprNode::Product(product),
                span: NOWHERE,
            })
        }
        _ => copies::expression(alloc, step),
    }
}

// The amount of a rate, for a whole step.
fn amount(alloc: Global, step: &ExprTree, rate: &ExprTree) -> Result<ExprTree, AllocError>
    ensures { IfOk result (λ piece. piece ≡ flow_amount step.now rate.now) }
{
    match &rate.node {
        ExprNode::Product(factors) => factor(alloc, step, factors),
        _ => copies::expression(alloc, step),
    }
}

// A fluent with the amount of its rate, for a whole step.
fn parts(
    alloc: Global,
    step: &ExprTree,
    fluent: &Use,
    rate: &ExprTree,
) -> Result<(Use, ExprTree), AllocError>
    ensures { IfOk result (λ parts. (parts.0 ≡ fluent.now) × (parts.1 ≡ flow_amount step.now rate.now)) }
{
    let fluent = copies::used(alloc, fluent)?;
    Ok((fluent, amount(alloc, step, rate)?))
}

// A rate, for a whole step.
fn flow(alloc: Global, step: &ExprTree, node: &LeafNode) -> Result<LeafNode, AllocError>
    ensures { IfOk result (λ flow. flow ≡ flow_node step.now node.now) }
{
    match node {
        LeafNode::Increase(fluent, rate) => {
            let (fluent, amount) = parts(alloc, step, fluent, rate)?;
            Ok(LeafNode::Increase(fluent, amount))
        }
        LeafNode::Decrease(fluent, rate) => {
            let (fluent, amount) = parts(alloc, step, fluent, rate)?;
            Ok(LeafNode::Decrease(fluent, amount))
        }
        _ => copies::node(alloc, node),
    }
}

// One rate of a process, where it holds.
fn flow_of(
    alloc: Global,
    step: &ExprTree,
    cond: &CondTree,
    write: &Placed<'_>,
) -> Result<EffectTree, AllocError>
    ensures { IfOk result (λ piece. piece ≡ flow_of step.now cond.now (shown write.now)) }
{
    let cond = copies::condition(alloc, cond)?;
    let effect = when(alloc, cond, leaf(flow(alloc, step, &write.leaf.node)?))?;
    nested(alloc, &write.lists, effect)
}

// Appends the rates of a process with this condition.
fn put_rates(
    alloc: Global,
    step: &ExprTree,
    cond: &CondTree,
    writes: &[Placed<'_>],
    into: &mut Vec<EffectTree>,
) -> Result<(), AllocError>
    ensures { OnOk result (into.new.items
        ≡ into.old.items ++ map (flow_of step.now cond.now) (map shown writes.now)) }
{
    'writes: for write in writes {
        into.push(flow_of(alloc, step, cond, write)?)?;
    }
    Ok(())
}

// Appends what a process does in a whole step.
fn put_process(
    alloc: Global,
    step: &ExprTree,
    process: &Schema,
    into: &mut Vec<EffectTree>,
) -> Result<(), AllocError>
    ensures { OnOk result (into.new.items ≡ into.old.items ++ flows step.now process.now) }
{
    let writes = writes_of(alloc, process.params.as_slice(), &process.effect)?;
    put_rates(alloc, step, &process.condition, &writes, into)?;
    Ok(())
}

/// Appends what processes do in a whole step.
#[tactic(auto, using(crate::proofs::FiresLemmas::flowing))]
pub fn put_flows(
    alloc: Global,
    step: &ExprTree,
    processes: &[Schema],
    into: &mut Vec<EffectTree>,
) -> Result<(), AllocError>
    ensures { OnOk result (into.new.items ≡ into.old.items ++ flat_map (flows step.now) processes.now) }
{
    'processes: for process in processes {
        put_process(alloc, step, process, into)?;
    }
    Ok(())
}
