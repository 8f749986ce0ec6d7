//! Copies of trees.

ghost use Rattle.std.specs.Prelude.{◌≡◌, ◌++◌, IfOk, OnOk};

use plus_tree::{
    Args, CondNode, CondTree, EffectNode, EffectTree, ExprNode, ExprTree, Head, Leaf, LeafNode,
    Members, Name, Spelled, Term, TypedName, Use,
};
use std::alloc::{AllocError, Global};

/// A name with its place.
pub fn spelled(alloc: Global, word: &Spelled) -> Result<Spelled, AllocError>
    ensures { IfOk result (λ copy. copy ≡ word.now) }
{
    Ok(Spelled {
        name: Name::new(alloc, word.name.bytes())?,
        span: word.span,
    })
}

/// A name with its type.
pub fn typed_name(alloc: Global, member: &TypedName) -> Result<TypedName, AllocError>
    ensures { IfOk result (λ copy. copy ≡ member.now) }
{
    Ok(TypedName {
        name: spelled(alloc, &member.name)?,
        kind: spelled(alloc, &member.kind)?,
    })
}

/// Appends copies of names with their types.
pub fn put_typed_names(
    alloc: Global,
    members: &[TypedName],
    into: &mut Members<TypedName>,
) -> Result<(), AllocError>
    ensures { OnOk result (into.new ≡ into.old ++ members.now) }
{
    'members: for member in members {
        into.push(typed_name(alloc, member)?)?;
    }
    Ok(())
}

/// A typed list.
pub fn typed_names(alloc: Global, members: &[TypedName]) -> Result<Members<TypedName>, AllocError>
    ensures { IfOk result (λ copy. copy ≡ members.now) }
{
    let mut copy = Members::new(alloc);
    put_typed_names(alloc, members, &mut copy)?;
    Ok(copy)
}

/// A predicate or a function that is declared.
pub fn head(alloc: Global, head: &Head) -> Result<Head, AllocError>
    ensures { IfOk result (λ copy. copy ≡ head.now) }
{
    Ok(Head {
        name: spelled(alloc, &head.name)?,
        params: typed_names(alloc, head.params.as_slice())?,
        span: head.span,
    })
}

/// An argument.
pub fn term(alloc: Global, term: &Term) -> Result<Term, AllocError>
    ensures { IfOk result (λ copy. copy ≡ term.now) }
{
    match term {
        Term::Object(name) => Ok(Term::Object(spelled(alloc, name)?)),
        Term::Variable(name) => Ok(Term::Variable(spelled(alloc, name)?)),
    }
}

// The arguments of a use.
fn terms(alloc: Global, terms: &[Term]) -> Result<Args, AllocError>
    ensures { IfOk result (λ copy. copy ≡ terms.now) }
{
    let mut copy = Args::new(alloc);
    'terms: for member in terms {
        copy.push(term(alloc, member)?)?;
    }
    Ok(copy)
}

/// A predicate or a function that is used.
pub fn used(alloc: Global, used: &Use) -> Result<Use, AllocError>
    ensures { IfOk result (λ copy. copy ≡ used.now) }
{
    Ok(Use {
        head: spelled(alloc, &used.head)?,
        args: terms(alloc, used.args.as_slice())?,
        span: used.span,
    })
}

/// An expression.
pub fn expression(alloc: Global, expr: &ExprTree) -> Result<ExprTree, AllocError>
    ensures { IfOk result (λ copy. copy ≡ expr.now) }
{
    let node = match &expr.node {
        ExprNode::Number(number) => ExprNode::Number(*number),
        ExprNode::Clock => ExprNode::Clock,
        ExprNode::Fluent(fluent) => ExprNode::Fluent(Box::new(alloc, used(alloc, fluent)?)?),
        ExprNode::Sum(members) => {
            let mut copy = Vec::with_capacity(alloc, members.len())?;
            'sum: for member in members {
                copy.push(expression(alloc, member)?)?;
            }
            ExprNode::Sum(copy)
        }
        ExprNode::Product(members) => {
            let mut copy = Vec::with_capacity(alloc, members.len())?;
            'product: for member in members {
                copy.push(expression(alloc, member)?)?;
            }
            ExprNode::Product(copy)
        }
        ExprNode::Minus(only) => ExprNode::Minus(Box::new(alloc, expression(alloc, only)?)?),
        ExprNode::Difference(left, right) => {
            let left = Box::new(alloc, expression(alloc, left)?)?;
            let right = Box::new(alloc, expression(alloc, right)?)?;
            ExprNode::Difference(left, right)
        }
        ExprNode::Quotient(left, right) => {
            let left = Box::new(alloc, expression(alloc, left)?)?;
            let right = Box::new(alloc, expression(alloc, right)?)?;
            ExprNode::Quotient(left, right)
        }
    };
    Ok(ExprTree {
        node,
        span: expr.span,
    })
}

/// A condition.
pub fn condition(alloc: Global, cond: &CondTree) -> Result<CondTree, AllocError>
    ensures { IfOk result (λ copy. copy ≡ cond.now) }
{
    let node = match &cond.node {
        CondNode::All(members) => {
            let mut copy = Vec::with_capacity(alloc, members.len())?;
            'all: for member in members {
                copy.push(condition(alloc, member)?)?;
            }
            CondNode::All(copy)
        }
        CondNode::Any(members) => {
            let mut copy = Vec::with_capacity(alloc, members.len())?;
            'any: for member in members {
                copy.push(condition(alloc, member)?)?;
            }
            CondNode::Any(copy)
        }
        CondNode::Not(negated) => CondNode::Not(Box::new(alloc, condition(alloc, negated)?)?),
        CondNode::Imply(first, second) => {
            let first = Box::new(alloc, condition(alloc, first)?)?;
            let second = Box::new(alloc, condition(alloc, second)?)?;
            CondNode::Imply(first, second)
        }
        CondNode::ForAll(names, inner) => {
            let names = typed_names(alloc, names.as_slice())?;
            CondNode::ForAll(names, Box::new(alloc, condition(alloc, inner)?)?)
        }
        CondNode::Exists(names, inner) => {
            let names = typed_names(alloc, names.as_slice())?;
            CondNode::Exists(names, Box::new(alloc, condition(alloc, inner)?)?)
        }
        CondNode::Atom(atom) => CondNode::Atom(Box::new(alloc, used(alloc, atom)?)?),
        CondNode::Same(left, right) => {
            let left = Box::new(alloc, term(alloc, left)?)?;
            let right = Box::new(alloc, term(alloc, right)?)?;
            CondNode::Same(left, right)
        }
        CondNode::Compare(sign, left, right) => {
            let left = Box::new(alloc, expression(alloc, left)?)?;
            let right = Box::new(alloc, expression(alloc, right)?)?;
            CondNode::Compare(*sign, left, right)
        }
    };
    Ok(CondTree {
        node,
        span: cond.span,
    })
}

/// What is written.
pub fn node(alloc: Global, node: &LeafNode) -> Result<LeafNode, AllocError>
    ensures { IfOk result (λ copy. copy ≡ node.now) }
{
    Ok(match node {
        LeafNode::Add(atom) => LeafNode::Add(used(alloc, atom)?),
        LeafNode::Delete(atom) => LeafNode::Delete(used(alloc, atom)?),
        LeafNode::Assign(fluent, amount) => {
            LeafNode::Assign(used(alloc, fluent)?, expression(alloc, amount)?)
        }
        LeafNode::Increase(fluent, amount) => {
            LeafNode::Increase(used(alloc, fluent)?, expression(alloc, amount)?)
        }
        LeafNode::Decrease(fluent, amount) => {
            LeafNode::Decrease(used(alloc, fluent)?, expression(alloc, amount)?)
        }
        LeafNode::ScaleUp(fluent, amount) => {
            LeafNode::ScaleUp(used(alloc, fluent)?, expression(alloc, amount)?)
        }
        LeafNode::ScaleDown(fluent, amount) => {
            LeafNode::ScaleDown(used(alloc, fluent)?, expression(alloc, amount)?)
        }
    })
}

/// A write.
pub fn leaf(alloc: Global, leaf: &Leaf) -> Result<Leaf, AllocError>
    ensures { IfOk result (λ copy. copy ≡ leaf.now) }
{
    Ok(Leaf {
        node: node(alloc, &leaf.node)?,
        span: leaf.span,
    })
}

// The writes of a `when`.
fn leaves(alloc: Global, leaves: &[Leaf]) -> Result<Members<Leaf>, AllocError>
    ensures { IfOk result (λ copy. copy ≡ leaves.now) }
{
    let mut copy = Members::new(alloc);
    'leaves: for member in leaves {
        copy.push(leaf(alloc, member)?)?;
    }
    Ok(copy)
}

/// An effect.
pub fn effect(alloc: Global, effect_tree: &EffectTree) -> Result<EffectTree, AllocError>
    ensures { IfOk result (λ copy. copy ≡ effect_tree.now) }
{
    let node = match &effect_tree.node {
        EffectNode::All(members) => {
            let mut copy = Vec::with_capacity(alloc, members.len())?;
            'all: for member in members {
                copy.push(effect(alloc, member)?)?;
            }
            EffectNode::All(copy)
        }
        EffectNode::ForAll(names, inner) => {
            let names = typed_names(alloc, names.as_slice())?;
            EffectNode::ForAll(names, Box::new(alloc, effect(alloc, inner)?)?)
        }
        EffectNode::When(guard, writes) => {
            let guard = Box::new(alloc, condition(alloc, guard)?)?;
            EffectNode::When(guard, leaves(alloc, writes.as_slice())?)
        }
        EffectNode::Leaf(write) => EffectNode::Leaf(Box::new(alloc, leaf(alloc, write)?)?),
    };
    Ok(EffectTree {
        node,
        span: effect_tree.span,
    })
}
