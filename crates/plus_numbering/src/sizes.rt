//! The nodes of what is ground, counted in the trees.

ghost use Rattle.std.specs.Prelude.{◌≡◌, sum_by};
ghost use Rattle.plus_tree.specs.Expr.{exprs_of};
ghost use Rattle.plus_numbering.specs.Sizes.{held, choices, operators, expression_size, condition_size, write_size, leaf_size, effect_size, factor_size, amount_size, rate_size, rates_size, schema_size};
ghost use Rattle.plus_numbering.specs.Numbered.{context};

use crate::held::{count, product, sum};
use crate::numbering::Numbering;
use plus_tree::{
    CondNode, CondTree, EffectNode, EffectTree, ExprNode, ExprTree, Leaf, LeafNode, Schema,
    TypedName,
};
use plus_types::effects::is_clock;

/// How many environments there are for a list of variables.
#[tactic(auto, using(crate::proofs::Holding::holding))]
pub fn choices(numbering: &Numbering<'_>, vars: &[TypedName]) -> u32
    ensures { result ≡ held (choices (context numbering.now) vars.now) }
{
    let mut total = 1;
    'vars: for var in vars {
        let members = numbering.members(var.kind.name.bytes());
        total = product(total, count(members.len()));
    }
    total
}

// Of several operands: one operator less. The one node of 0 where there is no operand.
#[tactic(auto, using(crate::proofs::Holding::holding))]
fn operators(operands: usize) -> u32
    ensures { result ≡ held (operators operands) }
{
    if operands == 0 {
        1
    } else {
        count(operands - 1)
    }
}

#[tactic(auto, using(crate::proofs::Holding::holding, crate::proofs::Nodes::operands_of))]
fn expression(expr: &ExprTree) -> u32
    ensures { result ≡ held (expression_size expr.now) }
{
    match &expr.node {
        ExprNode::Number(_) | ExprNode::Clock | ExprNode::Fluent(_) => 1,
        ExprNode::Sum(members) | ExprNode::Product(members) => {
            let mut total = operators(members.len());
            'members: for member in members {
                total = sum(total, expression(member));
            }
            total
        }
        ExprNode::Minus(operand) => sum(2, expression(operand)),
        ExprNode::Difference(left, right) | ExprNode::Quotient(left, right) => {
            sum(1, sum(expression(left), expression(right)))
        }
    }
}

/// The nodes of a condition in each environment.
#[tactic(auto, using(crate::proofs::Holding::holding))]
pub fn condition(numbering: &Numbering<'_>, cond: &CondTree) -> u32
    ensures { result ≡ held (condition_size (context numbering.now) cond.now) }
{
    match &cond.node {
        CondNode::All(members) | CondNode::Any(members) => {
            let mut total = 1;
            'members: for member in members {
                total = sum(total, condition(numbering, member));
            }
            total
        }
        CondNode::Not(negated) => condition(numbering, negated),
        CondNode::Imply(premise, conclusion) => {
            let premise_nodes = condition(numbering, premise);
            sum(1, sum(premise_nodes, condition(numbering, conclusion)))
        }
        CondNode::ForAll(vars, body) | CondNode::Exists(vars, body) => {
            let repeated = choices(numbering, vars.as_slice());
            sum(1, product(repeated, condition(numbering, body)))
        }
        CondNode::Atom(_) | CondNode::Same(_, _) => 1,
        CondNode::Compare(_, left, right) => sum(1, sum(expression(left), expression(right))),
    }
}

#[tactic(auto, using(crate::proofs::Holding::holding))]
fn write(node: &LeafNode) -> u32
    ensures { result ≡ held (write_size node.now) }
{
    match node {
        LeafNode::Add(_) | LeafNode::Delete(_) => 0,
        LeafNode::Assign(_, amount)
        | LeafNode::Increase(_, amount)
        | LeafNode::Decrease(_, amount)
        | LeafNode::ScaleUp(_, amount)
        | LeafNode::ScaleDown(_, amount) => expression(amount),
    }
}

// A write under a guard of so many nodes.
#[tactic(auto, using(crate::proofs::Holding::holding))]
fn leaf(guard: u32, leaf: &Leaf) -> u32
    ensures { result ≡ held (leaf_size guard leaf.now) }
{
    sum(1, sum(guard, write(&leaf.node)))
}

#[tactic(auto, using(crate::proofs::Holding::holding))]
fn leaves(guard: u32, leaves: &[Leaf]) -> u32
    ensures { result ≡ held (sum_by (leaf_size guard) leaves.now) }
{
    let mut total = 0;
    'leaves: for write in leaves {
        total = sum(total, leaf(guard, write));
    }
    total
}

#[tactic(auto, using(crate::proofs::Holding::holding))]
fn effect(numbering: &Numbering<'_>, effect_tree: &EffectTree) -> u32
    ensures { result ≡ held (effect_size (context numbering.now) effect_tree.now) }
{
    match &effect_tree.node {
        EffectNode::All(members) => {
            let mut total = 0;
            'members: for member in members {
                total = sum(total, effect(numbering, member));
            }
            total
        }
        EffectNode::ForAll(vars, body) => {
            let repeated = choices(numbering, vars.as_slice());
            product(repeated, effect(numbering, body))
        }
        EffectNode::When(guard, writes) => leaves(condition(numbering, guard), writes.as_slice()),
        EffectNode::Leaf(write) => leaf(1, write),
    }
}

// The factor beside `#t`.
#[tactic(auto, using(crate::proofs::Holding::holding))]
fn factor(factors: &[ExprTree]) -> u32
    ensures { result ≡ held (factor_size (exprs_of factors.now)) }
{
    match factors {
        [left, right] => {
            if is_clock(left) {
                expression(right)
            } else {
                expression(left)
            }
        }
        _ => 1,
    }
}

fn amount(expr: &ExprTree) -> u32
    ensures { result ≡ held (amount_size expr.now) }
{
    match &expr.node {
        ExprNode::Product(factors) => factor(factors),
        _ => expression(expr),
    }
}

#[tactic(auto, using(crate::proofs::Holding::holding))]
fn rate(node: &LeafNode) -> u32
    ensures { result ≡ held (rate_size node.now) }
{
    match node {
        LeafNode::Increase(_, per_time) | LeafNode::Decrease(_, per_time) => {
            sum(1, amount(per_time))
        }
        _ => 0,
    }
}

#[tactic(auto, using(crate::proofs::Holding::holding))]
fn rates(numbering: &Numbering<'_>, effect_tree: &EffectTree) -> u32
    ensures { result ≡ held (rates_size (context numbering.now) effect_tree.now) }
{
    match &effect_tree.node {
        EffectNode::All(members) => {
            let mut total = 0;
            'members: for member in members {
                total = sum(total, rates(numbering, member));
            }
            total
        }
        EffectNode::ForAll(vars, body) => {
            let repeated = choices(numbering, vars.as_slice());
            product(repeated, rates(numbering, body))
        }
        EffectNode::When(_, _) => 0,
        EffectNode::Leaf(write) => rate(&write.node),
    }
}

/// The nodes of each instance of a process, or of an action or an event.
#[tactic(auto, using(crate::proofs::Holding::holding))]
pub fn schema(numbering: &Numbering<'_>, process: bool, schema: &Schema) -> u32
    ensures { result ≡ held (schema_size (context numbering.now) process schema.now) }
{
    let changes = if process {
        rates(numbering, &schema.effect)
    } else {
        effect(numbering, &schema.effect)
    };
    sum(condition(numbering, &schema.condition), changes)
}
