//! The ground forms of effects.

ghost use Rattle.std.specs.Prelude.{◌≡◌, ◌++◌, ◌∷◌, [], true, All, IfOk, OnOk, map};
ghost use Rattle.std.specs.List.{flat_map};
ghost use Rattle.plus_numbering.specs.Numbered.{context};
ghost use Rattle.plus_literal.specs.Value.{LiteralFits};
ghost use Rattle.plus_model.specs.Terms.{Always};
ghost use Rattle.plus_state.specs.View.{write_of, effect_of};
ghost use Rattle.plus_expansion.specs.Literals.{write_literals, condition_literals, effect_literals};
ghost use Rattle.plus_expansion.specs.Expansion.{condition_meant, write_meant, leaf_meant, effects_meant};
ghost use Rattle.plus_ground.specs.Nothing.{writes_nothing};

use crate::conditions::{always, condition};
use crate::environments::{Environment, atom, environments, fluent};
use crate::expressions::expression;
use plus_literal::FromParts;
use plus_numbering::Numbering;
use plus_state::{Effect, Write};
use plus_tree::{CondTree, EffectNode, EffectTree, Leaf, LeafNode};
use std::alloc::{AllocError, Global};

// The ground form of a write.
#[inline(always)]
fn write<Q: FromParts>(
    alloc: Global,
    numbering: &Numbering,
    env: &Environment,
    leaf: &LeafNode,
) -> Result<Write<Q>, AllocError>
    requires { All (LiteralFits Q.fits) (write_literals leaf.now) }
    ensures { IfOk result (λ w. write_of Q.value w
        ≡ write_meant (context numbering.now) env.now leaf.now) }
{
    match leaf {
        LeafNode::Add(used) => Ok(Write::Add(atom(alloc, numbering, env, used)?)),
        LeafNode::Delete(used) => Ok(Write::Delete(atom(alloc, numbering, env, used)?)),
        LeafNode::Assign(used, value) => {
            let fluent = fluent(alloc, numbering, env, used)?;
            Ok(Write::Assign(fluent, expression(alloc, numbering, env, value)?))
        }
        LeafNode::Increase(used, by) => {
            let fluent = fluent(alloc, numbering, env, used)?;
            Ok(Write::Increase(fluent, expression(alloc, numbering, env, by)?))
        }
        LeafNode::Decrease(used, by) => {
            let fluent = fluent(alloc, numbering, env, used)?;
            Ok(Write::Decrease(fluent, expression(alloc, numbering, env, by)?))
        }
        LeafNode::ScaleUp(used, by) => {
            let fluent = fluent(alloc, numbering, env, used)?;
            Ok(Write::ScaleUp(fluent, expression(alloc, numbering, env, by)?))
        }
        LeafNode::ScaleDown(used, by) => {
            let fluent = fluent(alloc, numbering, env, used)?;
            Ok(Write::ScaleDown(fluent, expression(alloc, numbering, env, by)?))
        }
    }
}

// Adds the writes of a `when`, each with its condition as guard.
fn guarded<Q: FromParts>(
    alloc: Global,
    numbering: &Numbering,
    env: &Environment,
    guard: &CondTree,
    leaves: &[Leaf],
    into: &mut Vec<Effect<Q>>,
) -> Result<(), AllocError>
    requires guard { All (LiteralFits Q.fits) (condition_literals guard.now) }
    requires leaves { All (LiteralFits Q.fits) (flat_map (λ l. write_literals l.node) leaves.now) }
    ensures { OnOk result (map (effect_of Q.value) into.new.items ≡ map (effect_of Q.value) into.old.items
        ++ map (leaf_meant (context numbering.now) env.now
        (condition_meant (context numbering.now) env.now true guard.now)) leaves.now) }
{
    'leaves: for leaf in leaves {
        let guard = condition(alloc, numbering, env, true, guard)?;
        let write = write(alloc, numbering, env, &leaf.node)?;
        into.push(Effect { guard, write })?;
    }
    Ok(())
}

/// Whether no write stands in an effect: it adds nothing, whatever its variables stand for.
pub fn writes_nothing(effect: &EffectTree) -> bool
    ensures { result ≡ writes_nothing effect.now }
{
    match &effect.node {
        EffectNode::All(members) => {
            'members: for member in members {
                if !writes_nothing(member) {
                    return false;
                }
            }
            true
        }
        EffectNode::ForAll(_, body) => writes_nothing(body),
        EffectNode::When(_, leaves) => leaves.as_slice().is_empty(),
        EffectNode::Leaf(_) => false,
    }
}

/// Adds the ground writes of an effect, in text order: each write of a `when` with its condition as
/// guard, and those of a `forall` for the objects of the types of its variables.
pub fn effects<Q: FromParts>(
    alloc: Global,
    numbering: &Numbering,
    env: &Environment,
    effect: &EffectTree,
    into: &mut Vec<Effect<Q>>,
) -> Result<(), AllocError>
    requires { All (LiteralFits Q.fits) (effect_literals effect.now) }
    ensures { OnOk result (map (effect_of Q.value) into.new.items ≡ map (effect_of Q.value) into.old.items
        ++ effects_meant (context numbering.now) env.now effect.now) }
{
    match &effect.node {
        EffectNode::All(members) => {
            'members: for member in members {
                effects(alloc, numbering, env, member, into)?;
            }
            Ok(())
        }
        EffectNode::ForAll(vars, body) => {
            if writes_nothing(body) {
                return Ok(());
            }
            'choices: for inner in &environments(alloc, numbering, vars.as_slice(), env)? {
                effects(alloc, numbering, inner, body, into)?;
            }
            Ok(())
        }
        EffectNode::When(guard, leaves) => {
            guarded(alloc, numbering, env, guard, leaves.as_slice(), into)
        }
        EffectNode::Leaf(leaf) => {
            let guard = always(alloc);
            let write = write(alloc, numbering, env, &leaf.node)?;
            into.push(Effect { guard, write })?;
            Ok(())
        }
    }
}
