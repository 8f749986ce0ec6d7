//! What a translation says of its events: that none holds, that one does, that none repeats, that their marks go.

ghost use Rattle.std.specs.Prelude.{◌≡◌, ◌++◌, map, IfOk, OnOk};
ghost use Rattle.plus_tree.specs.Cond.{c_not, c_atom};
ghost use Rattle.plus_translation.specs.Renamed.{nowhere};
ghost use Rattle.plus_translation.specs.Leaves.{over, some, over_effect};
ghost use Rattle.plus_translation.specs.Translated.{mark_heads, none_hold, none_repeats, clears};
ghost use Rattle.plus_translate.specs.Single.{none_of, repeats_of, some_of, clear_of, head_of};

use crate::pieces::{atom, both, leaf, mark, mark_name, not, over, over_effect, some, writes};
use plus_renaming::copies;
use plus_tree::{CondTree, EffectTree, Head, LeafNode, Members, NOWHERE, Schema};
use std::alloc::{AllocError, Global};

// An event does not hold.
fn none_of(alloc: Global, event: &Schema) -> Result<CondTree, AllocError>
    ensures { IfOk result (λ piece. piece ≡ none_of event.now) }
{
    let cond = not(alloc, copies::condition(alloc, &event.condition)?)?;
    over(alloc, event.params.as_slice(), cond)
}

/// Appends that no event holds.
pub fn put_none(
    alloc: Global,
    events: &[Schema],
    into: &mut Vec<CondTree>,
) -> Result<(), AllocError>
    ensures { OnOk result (into.new.items ≡ into.old.items ++ none_hold events.now) }
{
    'events: for event in events {
        into.push(none_of(alloc, event)?)?;
    }
    Ok(())
}

// An event holds.
fn some_of(alloc: Global, event: &Schema) -> Result<CondTree, AllocError>
    ensures { IfOk result (λ piece. piece ≡ some_of event.now) }
{
    let cond = copies::condition(alloc, &event.condition)?;
    some(alloc, event.params.as_slice(), cond)
}

/// Appends that an event holds, for each.
pub fn put_some(
    alloc: Global,
    events: &[Schema],
    into: &mut Vec<CondTree>,
) -> Result<(), AllocError>
    ensures { OnOk result (into.new.items ≡ into.old.items ++ map some_of events.now) }
{
    'events: for event in events {
        into.push(some_of(alloc, event)?)?;
    }
    Ok(())
}

// An event does not hold with its mark.
fn repeats_of(alloc: Global, number: u64, event: &Schema) -> Result<CondTree, AllocError>
    ensures { IfOk result (λ piece. piece ≡ repeats_of number event.now) }
{
    let mut conds = Vec::with_capacity(alloc, 2)?;
    conds.push(copies::condition(alloc, &event.condition)?)?;
    conds.push(atom(alloc, mark(alloc, number, event)?)?)?;
    let cond = not(alloc, both(conds))?;
    over(alloc, event.params.as_slice(), cond)
}

/// Appends that no event repeats.
pub fn put_repeats(
    alloc: Global,
    events: &[Schema],
    into: &mut Vec<CondTree>,
) -> Result<(), AllocError>
    ensures { OnOk result (into.new.items ≡ into.old.items ++ none_repeats 1 events.now) }
{
    'events: for (before, event) in events.iter().enumerate() {
        into.push(repeats_of(alloc, before as u64 + 1, event)?)?;
    }
    Ok(())
}

// The marks of an event go.
fn clear_of(alloc: Global, number: u64, event: &Schema) -> Result<EffectTree, AllocError>
    ensures { IfOk result (λ piece. piece ≡ clear_of number event.now) }
{
    let effect = writes(alloc, leaf(LeafNode::Delete(mark(alloc, number, event)?)))?;
    over_effect(alloc, event.params.as_slice(), effect)
}

/// Appends that the marks of all events go.
pub fn put_clears(
    alloc: Global,
    events: &[Schema],
    into: &mut Vec<EffectTree>,
) -> Result<(), AllocError>
    ensures { OnOk result (into.new.items ≡ into.old.items ++ clears 1 events.now) }
{
    'events: for (before, event) in events.iter().enumerate() {
        into.push(clear_of(alloc, before as u64 + 1, event)?)?;
    }
    Ok(())
}

// The predicate of the marks of an event.
fn head_of(alloc: Global, number: u64, event: &Schema) -> Result<Head, AllocError>
    ensures { IfOk result (λ head. head ≡ head_of number event.now) }
{
    Ok(Head {
        name: mark_name(alloc, number)?,
        params: copies::typed_names(alloc, event.params.as_slice())?,
        span: NOWHERE,
    })
}

/// Appends the predicates of the marks.
pub fn put_heads(
    alloc: Global,
    events: &[Schema],
    into: &mut Members<Head>,
) -> Result<(), AllocError>
    ensures { OnOk result (into.new ≡ into.old ++ mark_heads 1 events.now) }
{
    'events: for (before, event) in events.iter().enumerate() {
        into.push(head_of(alloc, before as u64 + 1, event)?)?;
    }
    Ok(())
}
