//! What all old actions of a translation have beside their own parts.

ghost use Rattle.std.specs.Prelude.{◌≡◌, ◌++◌, [], List, length, codes, IfOk};
ghost use Rattle.plus_tokens.specs.declared.span.Span.{Span};
ghost use Rattle.plus_tree.specs.Cond.{Cond, c_all, conds_of};
ghost use Rattle.plus_tree.specs.Effect.{Effect, e_all, effects_of};
ghost use Rattle.plus_printer.specs.Appended.{Prints};
ghost use Rattle.plus_printer.specs.Words.{word, spaced};
ghost use Rattle.plus_printer.specs.Canon.{cond_text, conds_text, effect_text, effects_text};
ghost use Rattle.plus_translation.specs.Translated.{none_hold, clears};
ghost use Rattle.plus_translate_command.specs.Printer.Frame.{BeginsWithStep};

use plus_printer::conditions::condition;
use plus_printer::effects::effect;
use plus_printer::words::put_word;
use plus_tree::{CondNode, CondTree, Domain, EffectNode, EffectTree, Schema};
use std::alloc::{AllocError, Global};

/// A condition behind a space.
#[tactic(auto, using(plus_printer::proofs::AppendedLemmas::appending))]
pub fn spaced_condition(text: &mut Vec<u8>, cond: &CondTree) -> Result<(), AllocError>
    ensures { Prints text.old.items text.new.items (word (codes " ") ++ cond_text cond.now) result }
{
    put_word(text, b" ")?;
    condition(text, cond)?;
    Ok(())
}

/// An effect behind a space.
#[tactic(auto, using(plus_printer::proofs::AppendedLemmas::appending))]
pub fn spaced_effect(text: &mut Vec<u8>, effect_tree: &EffectTree) -> Result<(), AllocError>
    ensures { Prints text.old.items text.new.items (word (codes " ") ++ effect_text effect_tree.now) result }
{
    put_word(text, b" ")?;
    effect(text, effect_tree)?;
    Ok(())
}

#[tactic(auto, using(plus_printer::proofs::AppendedLemmas::looping))]
fn conditions(text: &mut Vec<u8>, conds: &[CondTree]) -> Result<(), AllocError>
    ensures { Prints text.old.items text.new.items (spaced cond_text conds.now) result }
{
    'members: for cond in conds {
        spaced_condition(text, cond)?;
    }
    Ok(())
}

#[tactic(auto, using(plus_printer::proofs::AppendedLemmas::looping))]
fn effects(text: &mut Vec<u8>, effects: &[EffectTree]) -> Result<(), AllocError>
    ensures { Prints text.old.items text.new.items (spaced effect_text effects.now) result }
{
    'members: for effect_tree in effects {
        spaced_effect(text, effect_tree)?;
    }
    Ok(())
}

// The texts of what a condition joins, each behind a space.
fn joined_text(alloc: Global, condition: &CondTree) -> Result<Vec<u8>, AllocError>
    ensures { IfOk result (λ text. (conds : List Cond) (span : Span)
        → condition.now ≡ c_all (conds_of conds) span → text.items ≡ conds_text (conds_of conds)) }
{
    let mut text = Vec::new(alloc);
    let CondNode::All(conds) = &condition.node else {
        return Ok(text);
    };
    conditions(&mut text, conds)?;
    Ok(text)
}

// The texts of the last of what an effect joins, each behind a space.
fn last_text(alloc: Global, count: usize, effect: &EffectTree) -> Result<Vec<u8>, AllocError>
    ensures { IfOk result (λ text. (front back : List Effect) (span : Span)
        → effect.now ≡ e_all (effects_of (front ++ back)) span → length back ≡ count
        → text.items ≡ effects_text (effects_of back)) }
{
    let mut text = Vec::new(alloc);
    let EffectNode::All(members) = &effect.node else {
        return Ok(text);
    };
    let before = members.len().saturating_sub(count);
    effects(&mut text, &members[before..])?;
    Ok(text)
}

/// The texts that all old actions share.
#[derive(Drop)]
pub struct Shared {
    /// That no event holds.
    pub none: Vec<u8>,
    /// That the marks go.
    pub clears: Vec<u8>,
}

impl Shared {
    /// What old actions share beside these events: the step has it all.
    pub fn of_frame(alloc: Global, events: &[Schema], frame: &Domain) -> Result<Shared, AllocError>
        requires { BeginsWithStep frame.now events.now }
        ensures none { IfOk result (λ shared. shared.none.items ≡ conds_text (conds_of (none_hold events.now))) }
        ensures clears { IfOk result (λ shared. shared.clears.items ≡ effects_text (effects_of (clears 1 events.now))) }
    {
        let [step, ..] = frame.actions.as_slice() else {
            unreachable!()
        };
        Ok(Shared {
            none: joined_text(alloc, &step.condition)?,
            clears: last_text(alloc, events.len(), &step.effect)?,
        })
    }

    /// Nothing that is shared.
    pub fn none(alloc: Global) -> Shared
        ensures none { result.none.items ≡ [] }
        ensures clears { result.clears.items ≡ [] }
    {
        Shared {
            none: Vec::new(alloc),
            clears: Vec::new(alloc),
        }
    }
}
