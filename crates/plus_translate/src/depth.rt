//! Whether the canonical text of a tree has no more than so many parentheses open at once.

ghost use Rattle.std.specs.Prelude.{◌≡◌, ◌&&◌};
ghost use Rattle.std.specs.List.{list_all};
ghost use Rattle.plus_translation.specs.Depth.{expr_within, cond_within, node_within, leaves_within, effect_within, schema_within, init_within, domain_within, problem_within, pair_within};

use plus_tree::{
    CondNode, CondTree, Domain, EffectNode, EffectTree, ExprNode, ExprTree, Init, Leaf, LeafNode,
    Problem, Schema,
};

/// The most parentheses open at once.
pub const MOST_DEPTH: u8 = 64;

#[tactic(auto, using(crate::proofs::DepthLemmas::in_exprs))]
fn expr_within(room: u8, expr: &ExprTree) -> bool
    ensures { result ≡ expr_within room expr.now }
{
    match &expr.node {
        ExprNode::Number(_) | ExprNode::Clock => true,
        ExprNode::Fluent(_) => room > 0,
        ExprNode::Sum(members) | ExprNode::Product(members) => {
            if room == 0 {
                return false;
            }
            'members: for member in members {
                if !expr_within(room - 1, member) {
                    return false;
                }
            }
            true
        }
        ExprNode::Minus(only) => room > 0 && expr_within(room - 1, only),
        ExprNode::Difference(left, right) | ExprNode::Quotient(left, right) => {
            room > 0 && expr_within(room - 1, left) && expr_within(room - 1, right)
        }
    }
}

/// Whether the text of a condition has no more than so many parentheses open at once.
#[tactic(auto, using(crate::proofs::DepthLemmas::in_conds))]
pub fn cond_within(room: u8, cond: &CondTree) -> bool
    ensures { result ≡ cond_within room cond.now }
{
    match &cond.node {
        CondNode::All(members) | CondNode::Any(members) => {
            if room == 0 {
                return false;
            }
            'members: for member in members {
                if !cond_within(room - 1, member) {
                    return false;
                }
            }
            true
        }
        CondNode::Not(negated) => room > 0 && cond_within(room - 1, negated),
        CondNode::Imply(first, second) => {
            room > 0 && cond_within(room - 1, first) && cond_within(room - 1, second)
        }
        CondNode::ForAll(_, inner) | CondNode::Exists(_, inner) => {
            room > 1 && cond_within(room - 1, inner)
        }
        CondNode::Atom(_) | CondNode::Same(_, _) => room > 0,
        CondNode::Compare(_, left, right) => {
            room > 0 && expr_within(room - 1, left) && expr_within(room - 1, right)
        }
    }
}

fn node_within(room: u8, node: &LeafNode) -> bool
    ensures { result ≡ node_within room node.now }
{
    match node {
        LeafNode::Add(_) => room > 0,
        LeafNode::Delete(_) => room > 1,
        LeafNode::Assign(_, amount)
        | LeafNode::Increase(_, amount)
        | LeafNode::Decrease(_, amount)
        | LeafNode::ScaleUp(_, amount)
        | LeafNode::ScaleDown(_, amount) => room > 1 && expr_within(room - 1, amount),
    }
}

fn nodes_within(room: u8, leaves: &[Leaf]) -> bool
    ensures { result ≡ list_all (λ l. node_within room l.node) leaves.now }
{
    leaves.iter().all(|leaf| node_within(room, &leaf.node))
}

fn leaves_within(room: u8, leaves: &[Leaf]) -> bool
    ensures { result ≡ leaves_within room leaves.now }
{
    match leaves {
        [only] => node_within(room, &only.node),
        _ => room > 0 && nodes_within(room - 1, leaves),
    }
}

/// Whether the text of an effect has no more than so many parentheses open at once.
#[tactic(auto, using(crate::proofs::DepthLemmas::in_effects))]
pub fn effect_within(room: u8, effect: &EffectTree) -> bool
    ensures { result ≡ effect_within room effect.now }
{
    match &effect.node {
        EffectNode::All(members) => {
            if room == 0 {
                return false;
            }
            'members: for member in members {
                if !effect_within(room - 1, member) {
                    return false;
                }
            }
            true
        }
        EffectNode::ForAll(_, inner) => room > 1 && effect_within(room - 1, inner),
        EffectNode::When(guard, writes) => {
            room > 0 && cond_within(room - 1, guard) && leaves_within(room - 1, writes.as_slice())
        }
        EffectNode::Leaf(leaf) => node_within(room, &leaf.node),
    }
}

fn schema_within(room: u8, schema: &Schema) -> bool
    ensures { result ≡ schema_within room schema.now }
{
    room > 1 && cond_within(room - 1, &schema.condition) && effect_within(room - 1, &schema.effect)
}

fn schemas_within(room: u8, schemas: &[Schema]) -> bool
    ensures { result ≡ list_all (schema_within room) schemas.now }
{
    schemas.iter().all(|schema| schema_within(room, schema))
}

fn init_within(room: u8, member: &Init) -> bool
    ensures { result ≡ init_within room member.now }
{
    match member {
        Init::Holds(_) => room > 0,
        Init::Absent(_, _) | Init::Value(_, _, _) | Init::At(_, _, _) => room > 1,
        Init::AtNot(_, _, _) => room > 2,
    }
}

fn inits_within(room: u8, init: &[Init]) -> bool
    ensures { result ≡ list_all (init_within room) init.now }
{
    init.iter().all(|member| init_within(room, member))
}

/// Whether the text of a domain has no more than so many parentheses open at once.
pub fn domain_within(room: u8, domain: &Domain) -> bool
    ensures { result ≡ domain_within room domain.now }
{
    room > 2
        && schemas_within(room - 1, domain.actions.as_slice())
        && schemas_within(room - 1, domain.processes.as_slice())
        && schemas_within(room - 1, domain.events.as_slice())
}

fn problem_within(room: u8, problem: &Problem) -> bool
    ensures { result ≡ problem_within room problem.now }
{
    room > 1
        && inits_within(room - 2, problem.init.as_slice())
        && cond_within(room - 2, &problem.goal)
}

/// Whether the canonical texts of a pair have no more than 64 parentheses open at once.
pub fn pair_within(domain: &Domain, problem: &Problem) -> bool
    ensures { result ≡ pair_within domain.now problem.now }
{
    domain_within(MOST_DEPTH, domain) && problem_within(MOST_DEPTH, problem)
}
