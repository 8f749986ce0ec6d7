//! What an old action has of its own.

ghost use Rattle.std.specs.Prelude.{◌≡◌, ◌++◌, map, codes, IfOk};
ghost use Rattle.plus_printer.specs.Appended.{Prints};
ghost use Rattle.plus_printer.specs.Words.{word};
ghost use Rattle.plus_translate_command.specs.Printer.Woven.{heading_text, condition_part, effect_part, own_parts, parts_of};

use crate::printer::shared::{spaced_condition, spaced_effect};
use plus_printer::words::{precondition_key, put, put_word, variables};
use plus_tree::Schema;
use std::alloc::{AllocError, Global};

// How the text of an old action opens.
#[tactic(auto, using(plus_printer::proofs::AppendedLemmas::appending), unfolding(crate::specs::Printer::Woven::heading_text))]
fn heading(text: &mut Vec<u8>, action: &Schema) -> Result<(), AllocError>
    ensures { Prints text.old.items text.new.items (heading_text action.now) result }
{
    put_word(text, b" (:action ")?;
    put(text, action.name.name.bytes())?;
    put_word(text, b" :parameters ")?;
    variables(text, action.params.as_slice())?;
    Ok(())
}

#[tactic(auto, using(plus_printer::proofs::AppendedLemmas::appending), unfolding(crate::specs::Printer::Woven::condition_part))]
fn to_condition(text: &mut Vec<u8>, action: &Schema) -> Result<(), AllocError>
    ensures { Prints text.old.items text.new.items (condition_part action.now) result }
{
    heading(text, action)?;
    precondition_key(text)?;
    put_word(text, b"(and")?;
    spaced_condition(text, &action.condition)?;
    Ok(())
}

#[tactic(auto, using(plus_printer::proofs::AppendedLemmas::appending), unfolding(crate::specs::Printer::Woven::effect_part))]
fn to_effect(text: &mut Vec<u8>, action: &Schema) -> Result<(), AllocError>
    ensures { Prints text.old.items text.new.items (effect_part action.now) result }
{
    put_word(text, b")")?;
    put_word(text, b" :effect ")?;
    put_word(text, b"(and")?;
    spaced_effect(text, &action.effect)?;
    Ok(())
}

/// The text of an old action, without what all old actions share.
#[derive(Drop)]
pub struct OldText {
    /// To where it is said that no event holds.
    pub condition: Vec<u8>,
    /// From there to where the marks go.
    pub effect: Vec<u8>,
}

fn old_text(alloc: Global, action: &Schema) -> Result<OldText, AllocError>
    ensures { IfOk result (λ old. parts_of old ≡ own_parts action.now) }
{
    let mut condition = Vec::new(alloc);
    to_condition(&mut condition, action)?;
    let mut effect = Vec::new(alloc);
    to_effect(&mut effect, action)?;
    Ok(OldText { condition, effect })
}

/// The texts of the old actions, without what they share.
pub fn old_texts(alloc: Global, actions: &[Schema]) -> Result<Vec<OldText>, AllocError>
    ensures { IfOk result (λ olds. map parts_of olds.items ≡ map own_parts actions.now) }
{
    let mut olds = Vec::with_capacity(alloc, actions.len())?;
    'members: for action in actions {
        olds.push(old_text(alloc, action)?)?;
    }
    Ok(olds)
}
