//! Effects.
ghost use Rattle.std.specs.Prelude.{◌++◌, codes};
ghost use Rattle.plus_printer.specs.Appended.{Prints};
ghost use Rattle.plus_printer.specs.Words.{word, spaced};
ghost use Rattle.plus_printer.specs.Canon.{write_text, leaf_text, leaves_text, effect_text};

use crate::conditions::condition;
use crate::expressions::expression;
use crate::words::{put_word, used, variables};
use plus_tree::{EffectNode, EffectTree, ExprTree, Leaf, LeafNode, Use};
use std::alloc::AllocError;

// A write of a fluent, by its word.
#[tactic(auto, using(crate::proofs::AppendedLemmas::appending), unfolding(crate::specs::Canon::write_text))]
fn write(
    text: &mut Vec<u8>,
    opens: &[u8],
    fluent: &Use,
    amount: &ExprTree,
) -> Result<(), AllocError>
    ensures { Prints text.old.items text.new.items (write_text opens.now fluent.now amount.now) result }
{
    put_word(text, opens)?;
    used(text, fluent)?;
    put_word(text, b" ")?;
    expression(text, amount)?;
    put_word(text, b")")?;
    Ok(())
}

#[tactic(auto, using(crate::proofs::AppendedLemmas::appending), unfolding(crate::specs::Canon::leaf_text))]
fn leaf(text: &mut Vec<u8>, leaf: &Leaf) -> Result<(), AllocError>
    ensures { Prints text.old.items text.new.items (leaf_text leaf.now) result }
{
    match &leaf.node {
        LeafNode::Add(atom) => used(text, atom),
        LeafNode::Delete(atom) => {
            put_word(text, b"(not ")?;
            used(text, atom)?;
            put_word(text, b")")?;
            Ok(())
        }
        LeafNode::Assign(fluent, amount) => write(text, b"(assign ", fluent, amount),
        LeafNode::Increase(fluent, amount) => write(text, b"(increase ", fluent, amount),
        LeafNode::Decrease(fluent, amount) => write(text, b"(decrease ", fluent, amount),
        LeafNode::ScaleUp(fluent, amount) => write(text, b"(scale-up ", fluent, amount),
        LeafNode::ScaleDown(fluent, amount) => write(text, b"(scale-down ", fluent, amount),
    }
}

#[tactic(auto, using(crate::proofs::AppendedLemmas::appending))]
fn spaced_leaf(text: &mut Vec<u8>, write: &Leaf) -> Result<(), AllocError>
    ensures { Prints text.old.items text.new.items (word (codes " ") ++ leaf_text write.now) result }
{
    put_word(text, b" ")?;
    leaf(text, write)?;
    Ok(())
}

#[tactic(auto, using(crate::proofs::AppendedLemmas::looping))]
fn spaced_leaves(text: &mut Vec<u8>, leaves: &[Leaf]) -> Result<(), AllocError>
    ensures { Prints text.old.items text.new.items (spaced leaf_text leaves.now) result }
{
    'members: for write in leaves {
        spaced_leaf(text, write)?;
    }
    Ok(())
}

// Several writes, or none, in an `and`.
#[tactic(auto, using(crate::proofs::AppendedLemmas::appending))]
fn joined_leaves(text: &mut Vec<u8>, leaves: &[Leaf]) -> Result<(), AllocError>
    ensures { Prints text.old.items text.new.items
        (word (codes "(and") ++ (spaced leaf_text leaves.now ++ word (codes ")"))) result }
{
    put_word(text, b"(and")?;
    spaced_leaves(text, leaves)?;
    put_word(text, b")")?;
    Ok(())
}

// The writes of a `when`.
#[tactic(auto, unfolding(crate::specs::Canon::leaves_text))]
fn leaves(text: &mut Vec<u8>, leaves: &[Leaf]) -> Result<(), AllocError>
    ensures { Prints text.old.items text.new.items (leaves_text leaves.now) result }
{
    match leaves {
        [only] => leaf(text, only),
        _ => joined_leaves(text, leaves),
    }
}

/// Appends the canonical text of an effect.
#[tactic(auto, using(crate::proofs::AppendedLemmas::appending))]
pub fn effect(text: &mut Vec<u8>, effect_tree: &EffectTree) -> Result<(), AllocError>
    ensures { Prints text.old.items text.new.items (effect_text effect_tree.now) result }
{
    match &effect_tree.node {
        EffectNode::All(members) => {
            put_word(text, b"(and")?;
            'all: for member in members {
                put_word(text, b" ")?;
                effect(text, member)?;
            }
            put_word(text, b")")?;
            Ok(())
        }
        EffectNode::ForAll(names, inner) => {
            put_word(text, b"(forall ")?;
            variables(text, names.as_slice())?;
            put_word(text, b" ")?;
            effect(text, inner)?;
            put_word(text, b")")?;
            Ok(())
        }
        EffectNode::When(guard, writes) => {
            put_word(text, b"(when ")?;
            condition(text, guard)?;
            put_word(text, b" ")?;
            leaves(text, writes.as_slice())?;
            put_word(text, b")")?;
            Ok(())
        }
        EffectNode::Leaf(write) => leaf(text, write),
    }
}
