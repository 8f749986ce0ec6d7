//! The pieces of a translation.

ghost use Rattle.std.specs.Prelude.{◌≡◌, [], ◌∷◌, map, IfOk};
ghost use Rattle.plus_tree.specs.Cond.{c_not, c_atom};
ghost use Rattle.plus_tree.specs.Effect.{e_all, e_when, effects_of};
ghost use Rattle.plus_translation.specs.Renamed.{nowhere, spelled};
ghost use Rattle.plus_translation.specs.Leaves.{over, some, over_effect, nested};
ghost use Rattle.plus_translation.specs.Translated.{natural, both, writes, leaf, variable_of, mark_name, mark_of};
ghost use Rattle.plus_translate.specs.Placed.{lists_of};

use plus_renaming::copies;
use plus_renaming::numerals::put_numeral;
use plus_tree::{
    Args, CondNode, CondTree, EffectNode, EffectTree, Leaf, LeafNode, Literal, Members, NOWHERE,
    Name, Schema, Span, Spelled, Term, TypedName, Use,
};
use std::alloc::{AllocError, Global};

/// A new name.
pub fn word(alloc: Global, bytes: &[u8]) -> Result<Spelled, AllocError>
    ensures { IfOk result (λ word. word ≡ spelled bytes.now) }
{
    Ok(Spelled {
        name: Name::new(alloc, bytes)?,
        span: NOWHERE,
    })
}

/// A whole number.
pub fn natural(number: u64) -> Literal
    ensures { result ≡ natural number }
{
    Literal {
        negative: false,
        digits: u128::from(number),
        places: 0,
        span: NOWHERE,
    }
}

/// The condition for all objects in place of the variables of a list.
#[tactic(auto, using(crate::proofs::PieceLemmas::over_some))]
pub fn over(alloc: Global, list: &[TypedName], cond: CondTree) -> Result<CondTree, AllocError>
    ensures { IfOk result (λ piece. piece ≡ over list.now cond) }
{
    if list.is_empty() {
        return Ok(cond);
    }
    let names = copies::typed_names(alloc, list)?;
    Ok(CondTree {
        node: CondNode::ForAll(names, Box::new(alloc, cond)?),
        span: NOWHERE,
    })
}

/// The condition for some objects in place of the variables of a list.
#[tactic(auto, using(crate::proofs::PieceLemmas::some_some))]
pub fn some(alloc: Global, list: &[TypedName], cond: CondTree) -> Result<CondTree, AllocError>
    ensures { IfOk result (λ piece. piece ≡ some list.now cond) }
{
    if list.is_empty() {
        return Ok(cond);
    }
    let names = copies::typed_names(alloc, list)?;
    Ok(CondTree {
        node: CondNode::Exists(names, Box::new(alloc, cond)?),
        span: NOWHERE,
    })
}

/// The effect for all objects in place of the variables of a list.
#[tactic(auto, using(crate::proofs::PieceLemmas::over_effect_some))]
pub fn over_effect(
    alloc: Global,
    list: &[TypedName],
    effect: EffectTree,
) -> Result<EffectTree, AllocError>
    ensures { IfOk result (λ piece. piece ≡ over_effect list.now effect) }
{
    if list.is_empty() {
        return Ok(effect);
    }
    let names = copies::typed_names(alloc, list)?;
    Ok(EffectTree {
        node: EffectNode::ForAll(names, Box::new(alloc, effect)?),
        span: NOWHERE,
    })
}

/// The effect inside lists, from outside.
#[tactic(auto, using(crate::proofs::PieceLemmas::nesting))]
pub fn nested(
    alloc: Global,
    lists: &[&[TypedName]],
    effect: EffectTree,
) -> Result<EffectTree, AllocError>
    ensures { IfOk result (λ piece. piece ≡ nested (lists_of lists.now) effect) }
{
    let mut left = lists.len();
    let mut piece = effect;
    'lists: while left > 0 {
        left -= 1;
        piece = over_effect(alloc, lists[left], piece)?;
    }
    Ok(piece)
}

/// All of these conditions.
pub fn both(conds: Vec<CondTree>) -> CondTree
    ensures { result ≡ both conds.items }
{
    CondTree {
        node: CondNode::All(conds),
        span: NOWHERE,
    }
}

/// The opposite of a condition.
pub fn not(alloc: Global, cond: CondTree) -> Result<CondTree, AllocError>
    ensures { IfOk result (λ piece. piece ≡ c_not cond nowhere) }
{
    Ok(CondTree {
        node: CondNode::Not(Box::new(alloc, cond)?),
        span: NOWHERE,
    })
}

/// An atom as a condition.
pub fn atom(alloc: Global, used: Use) -> Result<CondTree, AllocError>
    ensures { IfOk result (λ piece. piece ≡ c_atom used nowhere) }
{
    Ok(CondTree {
        node: CondNode::Atom(Box::new(alloc, used)?),
        span: NOWHERE,
    })
}

/// A new write.
pub fn leaf(node: LeafNode) -> Leaf
    ensures { result ≡ leaf node }
{
    Leaf {
        node,
        span: NOWHERE,
    }
}

/// One write as an effect.
pub fn writes(alloc: Global, leaf: Leaf) -> Result<EffectTree, AllocError>
    ensures { IfOk result (λ piece. piece ≡ writes leaf) }
{
    Ok(EffectTree {
        node: EffectNode::Leaf(Box::new(alloc, leaf)?),
        span: NOWHERE,
    })
}

/// One write where a condition holds.
pub fn when(alloc: Global, cond: CondTree, leaf: Leaf) -> Result<EffectTree, AllocError>
    ensures { IfOk result (λ piece. piece ≡ e_when cond (leaf ∷ []) nowhere) }
{
    let mut leaves = Members::new(alloc);
    leaves.push(leaf)?;
    Ok(EffectTree {
        node: EffectNode::When(Box::new(alloc, cond)?, leaves),
        span: NOWHERE,
    })
}

/// All of these effects.
pub fn everything(effects: Vec<EffectTree>) -> EffectTree
    ensures { result ≡ e_all (effects_of effects.items) nowhere }
{
    EffectTree {
        node: EffectNode::All(effects),
        span: NOWHERE,
    }
}

// The name of the marks of an event.
pub fn mark_name(alloc: Global, number: u64) -> Result<Spelled, AllocError>
    ensures { IfOk result (λ name. name ≡ spelled (mark_name number)) }
{
    let mut bytes = Vec::with_capacity(alloc, 16)?;
    bytes.extend_from_slice(b"pp-f")?;
    put_numeral(&mut bytes, number)?;
    word(alloc, &bytes)
}

// The variables of a list as arguments.
fn variables(alloc: Global, list: &[TypedName]) -> Result<Args, AllocError>
    ensures { IfOk result (λ args. args ≡ map variable_of list.now) }
{
    let mut args = Args::new(alloc);
    'list: for member in list {
        args.push(Term::Variable(word(alloc, member.name.name.bytes())?))?;
    }
    Ok(args)
}

/// The mark of an event, for its variables.
pub fn mark(alloc: Global, number: u64, event: &Schema) -> Result<Use, AllocError>
    ensures { IfOk result (λ mark. mark ≡ mark_of number event.now) }
{
    Ok(Use {
        head: mark_name(alloc, number)?,
        args: variables(alloc, event.params.as_slice())?,
        span: NOWHERE,
    })
}
