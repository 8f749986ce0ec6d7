//! Literals that are no value of the type of numbers.

ghost use Rattle.std.specs.Prelude.{[], ◌∷◌, ◌++◌, All, MatchResult};
ghost use Rattle.std.specs.List.{flat_map};
ghost use Rattle.plus_literal.specs.Value.{LiteralFits};
ghost use Rattle.plus_expansion.specs.Literals.{expression_literals, condition_literals, write_literals, effect_literals, init_literals, literals_of, schema_literals};
ghost use Rattle.plus_expansion.specs.Unfit.{IsFirstUnfitAt};
ghost use Rattle.plus_numbering.specs.Refusals.{RefusesLiteral};
ghost use Rattle.plus_numbering.specs.Tested.{Tests};

use crate::faults::GroundFault;
use plus_literal::{FromParts, literal};
use plus_tree::{
    CondNode, CondTree, Domain, EffectNode, EffectTree, ExprNode, ExprTree, Init, Leaf, LeafNode,
    Literal, Problem, Schema, Span,
};
use plus_types::{File, Typed};

#[tactic(auto, using(crate::proofs::Unfits::walking))]
fn number<Q: FromParts>(value: &Literal) -> Result<(), Span>
    ensures { Tests Q.fits (value.now ∷ []) result }
{
    match literal::<Q>(value) {
        Ok(_) => Ok(()),
        Err(_) => Err(value.span),
    }
}

#[tactic(auto, using(crate::proofs::Unfits::walking))]
fn expression<Q: FromParts>(expr: &ExprTree) -> Result<(), Span>
    ensures { Tests Q.fits (expression_literals expr.now) result }
{
    match &expr.node {
        ExprNode::Number(value) => number::<Q>(value),
        ExprNode::Clock | ExprNode::Fluent(_) => Ok(()),
        ExprNode::Sum(members) | ExprNode::Product(members) => {
            'members: for member in members {
                expression::<Q>(member)?;
            }
            Ok(())
        }
        ExprNode::Minus(operand) => expression::<Q>(operand),
        ExprNode::Difference(left, right) | ExprNode::Quotient(left, right) => {
            expression::<Q>(left)?;
            expression::<Q>(right)
        }
    }
}

/// Looks for the first literal of a condition, in text order, that fractions of this kind do not hold.
#[tactic(auto, using(crate::proofs::Unfits::walking))]
pub fn condition<Q: FromParts>(cond: &CondTree) -> Result<(), Span>
    ensures { Tests Q.fits (condition_literals cond.now) result }
{
    match &cond.node {
        CondNode::All(members) | CondNode::Any(members) => {
            'members: for member in members {
                condition::<Q>(member)?;
            }
            Ok(())
        }
        CondNode::Not(body) | CondNode::ForAll(_, body) | CondNode::Exists(_, body) => {
            condition::<Q>(body)
        }
        CondNode::Imply(premise, conclusion) => {
            condition::<Q>(premise)?;
            condition::<Q>(conclusion)
        }
        CondNode::Atom(_) | CondNode::Same(_, _) => Ok(()),
        CondNode::Compare(_, left, right) => {
            expression::<Q>(left)?;
            expression::<Q>(right)
        }
    }
}

#[tactic(auto, using(crate::proofs::Unfits::walking))]
fn write<Q: FromParts>(node: &LeafNode) -> Result<(), Span>
    ensures { Tests Q.fits (write_literals node.now) result }
{
    match node {
        LeafNode::Add(_) | LeafNode::Delete(_) => Ok(()),
        LeafNode::Assign(_, amount)
        | LeafNode::Increase(_, amount)
        | LeafNode::Decrease(_, amount)
        | LeafNode::ScaleUp(_, amount)
        | LeafNode::ScaleDown(_, amount) => expression::<Q>(amount),
    }
}

#[tactic(auto, using(crate::proofs::Unfits::walking))]
fn leaves<Q: FromParts>(leaves: &[Leaf]) -> Result<(), Span>
    ensures { Tests Q.fits (flat_map (λ (l : Leaf). write_literals l.node) leaves.now) result }
{
    'leaves: for leaf in leaves {
        write::<Q>(&leaf.node)?;
    }
    Ok(())
}

#[tactic(auto, using(crate::proofs::Unfits::walking))]
fn effect<Q: FromParts>(effect_tree: &EffectTree) -> Result<(), Span>
    ensures { Tests Q.fits (effect_literals effect_tree.now) result }
{
    match &effect_tree.node {
        EffectNode::All(members) => {
            'members: for member in members {
                effect::<Q>(member)?;
            }
            Ok(())
        }
        EffectNode::ForAll(_, body) => effect::<Q>(body),
        EffectNode::When(guard, writes) => {
            condition::<Q>(guard)?;
            leaves::<Q>(writes.as_slice())
        }
        EffectNode::Leaf(leaf) => write::<Q>(&leaf.node),
    }
}

/// Tests that the literals of a schema, of its condition before those of its effect, are values of the
/// type of numbers, and answers the place of the first that is none.
#[tactic(auto, using(crate::proofs::Unfits::walking))]
pub fn schema_fits<Q: FromParts>(schema: &Schema) -> Result<(), Span>
    ensures { MatchResult result
        (λ _. All (LiteralFits Q.fits) (schema_literals schema.now))
        (IsFirstUnfitAt Q.fits (schema_literals schema.now)) }
{
    condition::<Q>(&schema.condition)?;
    effect::<Q>(&schema.effect)
}

#[tactic(auto, using(crate::proofs::Unfits::walking))]
fn schemas<Q: FromParts>(schemas: &[Schema]) -> Result<(), Span>
    ensures { Tests Q.fits (flat_map schema_literals schemas.now) result }
{
    'schemas: for schema in schemas {
        schema_fits::<Q>(schema)?;
    }
    Ok(())
}

#[tactic(auto, using(crate::proofs::Unfits::walking))]
fn initial<Q: FromParts>(member: &Init) -> Result<(), Span>
    ensures { Tests Q.fits (init_literals member.now) result }
{
    match member {
        Init::Value(_, value, _) | Init::At(value, _, _) | Init::AtNot(value, _, _) => {
            number::<Q>(value)
        }
        Init::Holds(_) | Init::Absent(_, _) => Ok(()),
    }
}

#[tactic(auto, using(crate::proofs::Unfits::walking))]
fn init<Q: FromParts>(members: &[Init]) -> Result<(), Span>
    ensures { Tests Q.fits (flat_map init_literals members.now) result }
{
    'members: for member in members {
        initial::<Q>(member)?;
    }
    Ok(())
}

// The initial state and the goal.
#[tactic(auto, using(crate::proofs::Unfits::walking))]
fn problem<Q: FromParts>(problem: &Problem) -> Result<(), Span>
    ensures { Tests Q.fits (flat_map init_literals problem.now.init ++ condition_literals problem.now.goal) result }
{
    init::<Q>(problem.init.as_slice())?;
    condition::<Q>(&problem.goal)
}

// The processes and the events.
#[tactic(auto, using(crate::proofs::Unfits::walking))]
fn domain<Q: FromParts>(domain: &Domain) -> Result<(), Span>
    ensures { Tests Q.fits (flat_map schema_literals domain.now.processes ++ flat_map schema_literals domain.now.events) result }
{
    schemas::<Q>(domain.processes.as_slice())?;
    schemas::<Q>(domain.events.as_slice())
}

/// Tests that the literals of the initial state, the goal, the processes and the events are values of the
/// type of numbers, and answers the first that is none.
#[tactic(auto, using(crate::proofs::Unfits::files))]
pub fn fit<Q: FromParts>(typed: &Typed) -> Result<(), GroundFault>
    ensures { MatchResult result
        (λ _. All (λ l. LiteralFits Q.fits l.1) (literals_of typed.now.domain typed.now.problem))
        (RefusesLiteral Q.fits (literals_of typed.now.domain typed.now.problem)) }
{
    if let Err(span) = problem::<Q>(typed.problem()) {
        return Err(GroundFault::Literal {
            file: File::Problem,
            span,
        });
    }
    if let Err(span) = domain::<Q>(typed.domain()) {
        return Err(GroundFault::Literal {
            file: File::Domain,
            span,
        });
    }
    Ok(())
}
