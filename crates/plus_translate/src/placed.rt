//! The writes of an effect one by one, each with what stands around it.

ghost use Rattle.std.specs.Prelude.{◌≡◌, [], ◌∷◌, ◌++◌, map, OnOk, IfOk};
ghost use Rattle.plus_translation.specs.Leaves.{inside, leaves_of};
ghost use Rattle.plus_translate.specs.Placed.{shown, under, lists_of};

use plus_tree::{CondTree, EffectNode, EffectTree, Leaf, TypedName};
use std::alloc::{AllocError, Global};

/// A write, with the lists of variables around it, from outside, and the guard of its `when`.
#[derive(Drop)]
pub struct Placed<'a> {
    pub lists: Vec<&'a [TypedName]>,
    pub guard: Option<&'a CondTree>,
    pub leaf: &'a Leaf,
}

// The writes of a `when`.
#[tactic(auto, using(crate::proofs::PlacedLemmas::in_when))]
fn put_guarded<'a>(
    alloc: Global,
    lists: &[&'a [TypedName]],
    guard: &'a CondTree,
    writes: &'a [Leaf],
    into: &mut Vec<Placed<'a>>,
) -> Result<(), AllocError>
    ensures { OnOk result (map shown into.new.items ≡ map shown into.old.items
        ++ map (λ l. record { lists = lists_of lists.now; guards = guard.now ∷ []; leaf = l }) writes.now) }
{
    'writes: for leaf in writes {
        into.push(Placed {
            lists: Vec::from_slice(alloc, lists)?,
            guard: Some(guard),
            leaf,
        })?;
    }
    Ok(())
}

// Appends a write without a `when`.
#[tactic(auto, using(crate::proofs::PlacedLemmas::placing))]
fn put_alone<'a>(
    alloc: Global,
    lists: &[&'a [TypedName]],
    leaf: &'a Leaf,
    into: &mut Vec<Placed<'a>>,
) -> Result<(), AllocError>
    ensures { OnOk result (map shown into.new.items ≡ map shown into.old.items
        ++ record { lists = lists_of lists.now; guards = []; leaf = leaf.now } ∷ []) }
{
    into.push(Placed {
        lists: Vec::from_slice(alloc, lists)?,
        guard: None,
        leaf,
    })?;
    Ok(())
}

// Appends the writes of an effect that stands inside these lists.
#[tactic(auto, using(crate::proofs::PlacedLemmas::placing))]
fn put<'a>(
    alloc: Global,
    lists: &mut Vec<&'a [TypedName]>,
    tree: &'a EffectTree,
    into: &mut Vec<Placed<'a>>,
) -> Result<(), AllocError>
    ensures same { OnOk result (lists.new.items ≡ lists.old.items) }
    ensures put { OnOk result (map shown into.new.items ≡ map shown into.old.items
        ++ map (under (lists_of lists.old.items)) (leaves_of tree.now)) }
{
    match &tree.node {
        EffectNode::All(members) => {
            'members: for member in members {
                put(alloc, lists, member, into)?;
            }
            Ok(())
        }
        EffectNode::ForAll(names, inner) => {
            lists.push(names.as_slice())?;
            put(alloc, lists, inner, into)?;
            lists.pop();
            Ok(())
        }
        EffectNode::When(guard, writes) => put_guarded(
            alloc,
            lists,
            guard,
            writes.as_slice(),
            into,
        ),
        EffectNode::Leaf(leaf) => put_alone(alloc, lists, leaf, into),
    }
}

/// The writes of an effect, in text order, all inside one list.
pub fn writes_of<'a>(
    alloc: Global,
    outer: &'a [TypedName],
    tree: &'a EffectTree,
) -> Result<Vec<Placed<'a>>, AllocError>
    ensures { IfOk result (λ found. map shown found.items ≡ map (inside outer.now) (leaves_of tree.now)) }
{
    let mut lists = Vec::new(alloc);
    lists.push(outer)?;
    let mut found = Vec::new(alloc);
    put(alloc, &mut lists, tree, &mut found)?;
    Ok(found)
}
