//! What a round of events does, as the effects of an action.

ghost use Rattle.std.specs.Prelude.{◌≡◌, ◌++◌, [], ◌∷◌, IfOk, OnOk, map};
ghost use Rattle.plus_tree.specs.Effect.{e_when};
ghost use Rattle.plus_translation.specs.Renamed.{nowhere};
ghost use Rattle.plus_translation.specs.Leaves.{over_effect, nested, leaves_of, inside};
ghost use Rattle.plus_translation.specs.Translated.{leaf, mark_of, event_guard, event_fires, fires};
ghost use Rattle.plus_translate.specs.Placed.{shown, guards_of};
ghost use Rattle.plus_translate.specs.Fires.{fires_of, marks_of};

use crate::pieces::{both, leaf, mark, nested, over_effect, when};
use crate::placed::{Placed, writes_of};
use plus_renaming::copies;
use plus_tree::{CondTree, EffectTree, LeafNode, Schema};
use std::alloc::{AllocError, Global};

// Appends a copy of a condition.
fn put_copy(alloc: Global, cond: &CondTree, into: &mut Vec<CondTree>) -> Result<(), AllocError>
    ensures { OnOk result (into.new.items ≡ into.old.items ++ cond.now ∷ []) }
{
    into.push(copies::condition(alloc, cond)?)?;
    Ok(())
}

// The condition of an event and the guard of a `when`.
fn with_guard(alloc: Global, cond: &CondTree, guard: &CondTree) -> Result<CondTree, AllocError>
    ensures { IfOk result (λ piece. piece ≡ event_guard cond.now (guard.now ∷ [])) }
{
    let mut conds = Vec::with_capacity(alloc, 2)?;
    put_copy(alloc, cond, &mut conds)?;
    put_copy(alloc, guard, &mut conds)?;
    Ok(both(conds))
}

// The condition of an event, before the guard of a `when`.
fn guarded(alloc: Global, cond: &CondTree, guard: Option<&CondTree>) -> Result<CondTree, AllocError>
    ensures { IfOk result (λ piece. piece ≡ event_guard cond.now (guards_of guard.entry)) }
{
    match guard {
        None => copies::condition(alloc, cond),
        Some(guard) => with_guard(alloc, cond, guard),
    }
}

// One write of an event, where it holds.
fn fires_of(alloc: Global, cond: &CondTree, write: &Placed<'_>) -> Result<EffectTree, AllocError>
    ensures { IfOk result (λ piece. piece ≡ fires_of cond.now (shown write.now)) }
{
    let cond = guarded(alloc, cond, write.guard)?;
    let effect = when(alloc, cond, copies::leaf(alloc, write.leaf)?)?;
    nested(alloc, &write.lists, effect)
}

// Appends the writes of an event.
fn put_writes(
    alloc: Global,
    cond: &CondTree,
    writes: &[Placed<'_>],
    into: &mut Vec<EffectTree>,
) -> Result<(), AllocError>
    ensures { OnOk result (into.new.items
        ≡ into.old.items ++ map (fires_of cond.now) (map shown writes.now)) }
{
    'writes: for write in writes {
        into.push(fires_of(alloc, cond, write)?)?;
    }
    Ok(())
}

// The mark of an event, where it holds.
fn marks_of(alloc: Global, number: u64, event: &Schema) -> Result<EffectTree, AllocError>
    ensures { IfOk result (λ piece. piece ≡ marks_of number event.now) }
{
    let cond = copies::condition(alloc, &event.condition)?;
    let write = leaf(LeafNode::Add(mark(alloc, number, event)?));
    let effect = when(alloc, cond, write)?;
    over_effect(alloc, event.params.as_slice(), effect)
}

// Appends what an event does where it holds, and its mark.
fn put_event(
    alloc: Global,
    number: u64,
    event: &Schema,
    into: &mut Vec<EffectTree>,
) -> Result<(), AllocError>
    ensures { OnOk result (into.new.items ≡ into.old.items ++ event_fires number event.now) }
{
    let writes = writes_of(alloc, event.params.as_slice(), &event.effect)?;
    put_writes(alloc, &event.condition, &writes, into)?;
    into.push(marks_of(alloc, number, event)?)?;
    Ok(())
}

/// Appends what all events do where they hold, and their marks.
pub fn put_fires(
    alloc: Global,
    events: &[Schema],
    into: &mut Vec<EffectTree>,
) -> Result<(), AllocError>
    ensures { OnOk result (into.new.items ≡ into.old.items ++ fires 1 events.now) }
{
    'events: for (before, event) in events.iter().enumerate() {
        put_event(alloc, before as u64 + 1, event, into)?;
    }
    Ok(())
}
