//! Walks effects, and the rates of processes.

ghost use Rattle.std.specs.Prelude.{◌≡◌, not, ◌&&◌, IfOk};
ghost use Rattle.plus_types.specs.Faults.{Walks, has_clock, is_clock, are_clock_and_rate, is_rate_amount, is_rate, fault_where, number_faults, write_faults, leaf_faults, leaves_faults, effect_faults};
ghost use Rattle.plus_types.specs.declared.faults.Wrong.TheVariants.{RateForm};
ghost use Rattle.plus_types.specs.Known.{context};
ghost use Rattle.plus_tree.specs.Expr.{exprs_of};

use crate::conditions::{condition, variables};
use crate::faults::{TypeFault, Wrong};
use crate::kinds::Kinds;
use crate::known::Known;
use crate::uses::{expression, used};
use plus_tree::{EffectNode, EffectTree, ExprNode, ExprTree, Leaf, LeafNode, Span, Use};
use std::alloc::Global;

// Whether `#t` stands in an expression.
fn has_clock(expr: &ExprTree) -> bool
    ensures { result ≡ has_clock expr.now }
{
    match &expr.node {
        ExprNode::Number(_) | ExprNode::Fluent(_) => false,
        ExprNode::Clock => true,
        ExprNode::Sum(members) | ExprNode::Product(members) => {
            'members: for member in members {
                if has_clock(member) {
                    return true;
                }
            }
            false
        }
        ExprNode::Minus(operand) => has_clock(operand),
        ExprNode::Difference(left, right) | ExprNode::Quotient(left, right) => {
            if has_clock(left) {
                true
            } else {
                has_clock(right)
            }
        }
    }
}

/// Whether an expression is `#t`.
pub fn is_clock(expr: &ExprTree) -> bool
    ensures { result ≡ is_clock expr.now }
{
    match &expr.node {
        ExprNode::Clock => true,
        _ => false,
    }
}

// Whether one is `#t`, and the other is without it.
fn is_clock_and_rate(clock: &ExprTree, rate: &ExprTree) -> bool
    ensures { result ≡ (is_clock clock.now && not (has_clock rate.now)) }
{
    if is_clock(clock) {
        !has_clock(rate)
    } else {
        false
    }
}

// `#t` and one more factor, in which no `#t` stands.
fn are_clock_and_rate(factors: &[ExprTree]) -> bool
    ensures { result ≡ are_clock_and_rate (exprs_of factors.now) }
{
    match factors {
        [left, right] => {
            if is_clock_and_rate(left, right) {
                true
            } else {
                is_clock_and_rate(right, left)
            }
        }
        _ => false,
    }
}

// `#t`, `(* #t e)` or `(* e #t)`.
fn is_rate_amount(amount: &ExprTree) -> bool
    ensures { result ≡ is_rate_amount amount.now }
{
    match &amount.node {
        ExprNode::Clock => true,
        ExprNode::Product(factors) => are_clock_and_rate(factors),
        _ => false,
    }
}

fn is_rate(node: &LeafNode) -> bool
    ensures { result ≡ is_rate node.now }
{
    match node {
        LeafNode::Increase(_, amount) | LeafNode::Decrease(_, amount) => is_rate_amount(amount),
        _ => false,
    }
}

// A form that does not stand in a process so.
fn rate_form(known: &Known<'_>, broken: bool, span: Span) -> Result<(), TypeFault>
    ensures { Walks (fault_where broken RateForm known.now.file span) result }
{
    if broken {
        Err(TypeFault::At {
            wrong: Wrong::RateForm,
            file: known.file,
            span,
        })
    } else {
        Ok(())
    }
}

// A fluent and the number that it changes by.
#[tactic(auto, using(crate::proofs::WalkLemmas::walking))]
fn number(
    known: &Known<'_>,
    vars: &Kinds,
    process: bool,
    fluent: &Use,
    amount: &ExprTree,
) -> Result<(), TypeFault>
    ensures { Walks (number_faults (context known.now) vars.now process fluent.now amount.now) result }
{
    used(known, vars, &known.functions, fluent)?;
    expression(known, vars, process, amount)
}

fn write(known: &Known<'_>, vars: &Kinds, process: bool, node: &LeafNode) -> Result<(), TypeFault>
    ensures { Walks (write_faults (context known.now) vars.now process node.now) result }
{
    match node {
        LeafNode::Add(atom) | LeafNode::Delete(atom) => {
            used(known, vars, &known.predicates, atom)
        }
        LeafNode::Assign(fluent, amount)
        | LeafNode::Increase(fluent, amount)
        | LeafNode::Decrease(fluent, amount)
        | LeafNode::ScaleUp(fluent, amount)
        | LeafNode::ScaleDown(fluent, amount) => number(known, vars, process, fluent, amount),
    }
}

#[tactic(auto, using(crate::proofs::WalkLemmas::walking), unfolding(crate::specs::Faults::leaf_faults))]
fn leaf(known: &Known<'_>, vars: &Kinds, process: bool, leaf: &Leaf) -> Result<(), TypeFault>
    ensures { Walks (leaf_faults (context known.now) vars.now process leaf.now) result }
{
    rate_form(known, process && !is_rate(&leaf.node), leaf.span)?;
    write(known, vars, process, &leaf.node)
}

#[tactic(auto, using(crate::proofs::WalkLemmas::walking))]
fn leaves(known: &Known<'_>, vars: &Kinds, process: bool, leaves: &[Leaf]) -> Result<(), TypeFault>
    ensures { Walks (leaves_faults (context known.now) vars.now process leaves.now) result }
{
    'leaves: for write in leaves {
        leaf(known, vars, process, write)?;
    }
    Ok(())
}

/// Walks an effect, in which these variables are bound.
#[tactic(auto, using(crate::proofs::WalkLemmas::walking))]
pub fn effect(
    alloc: Global,
    known: &Known<'_>,
    vars: &mut Kinds,
    process: bool,
    effect_tree: &EffectTree,
) -> Result<(), TypeFault>
    ensures walks { Walks (effect_faults (context known.now) vars.old process effect_tree.now) result }
    ensures kept { IfOk result (λ _. vars.new ≡ vars.old) }
{
    match &effect_tree.node {
        EffectNode::All(members) => {
            'members: for member in members {
                effect(alloc, known, vars, process, member)?;
            }
            Ok(())
        }
        EffectNode::ForAll(list_of, body) => {
            let outer = vars.len();
            variables(alloc, known, vars, list_of.as_slice())?;
            effect(alloc, known, vars, process, body)?;
            vars.truncate(outer);
            Ok(())
        }
        EffectNode::When(guard, writes) => {
            rate_form(known, process, effect_tree.span)?;
            condition(alloc, known, vars, guard)?;
            leaves(known, vars, process, writes.as_slice())
        }
        EffectNode::Leaf(write) => leaf(known, vars, process, write),
    }
}
