//! Conditions.
ghost use Rattle.plus_printer.specs.Appended.{Prints};
ghost use Rattle.plus_printer.specs.Canon.{cond_text};

use crate::expressions::operands;
use crate::words::{comparison, put_word, term, used, variables};
use plus_tree::{CondNode, CondTree};
use std::alloc::AllocError;

/// Appends the canonical text of a condition.
#[tactic(auto, using(crate::proofs::AppendedLemmas::appending))]
pub fn condition(text: &mut Vec<u8>, cond: &CondTree) -> Result<(), AllocError>
    ensures { Prints text.old.items text.new.items (cond_text cond.now) result }
{
    match &cond.node {
        CondNode::All(members) => {
            put_word(text, b"(and")?;
            'all: for member in members {
                put_word(text, b" ")?;
                condition(text, member)?;
            }
            put_word(text, b")")?;
            Ok(())
        }
        CondNode::Any(members) => {
            put_word(text, b"(or")?;
            'any: for member in members {
                put_word(text, b" ")?;
                condition(text, member)?;
            }
            put_word(text, b")")?;
            Ok(())
        }
        CondNode::Not(negated) => {
            put_word(text, b"(not ")?;
            condition(text, negated)?;
            put_word(text, b")")?;
            Ok(())
        }
        CondNode::Imply(first, second) => {
            put_word(text, b"(imply ")?;
            condition(text, first)?;
            put_word(text, b" ")?;
            condition(text, second)?;
            put_word(text, b")")?;
            Ok(())
        }
        CondNode::ForAll(names, inner) => {
            put_word(text, b"(forall ")?;
            variables(text, names.as_slice())?;
            put_word(text, b" ")?;
            condition(text, inner)?;
            put_word(text, b")")?;
            Ok(())
        }
        CondNode::Exists(names, inner) => {
            put_word(text, b"(exists ")?;
            variables(text, names.as_slice())?;
            put_word(text, b" ")?;
            condition(text, inner)?;
            put_word(text, b")")?;
            Ok(())
        }
        CondNode::Atom(atom) => used(text, atom),
        CondNode::Same(left, right) => {
            put_word(text, b"(= ")?;
            term(text, left)?;
            put_word(text, b" ")?;
            term(text, right)?;
            put_word(text, b")")?;
            Ok(())
        }
        CondNode::Compare(sign, left, right) => {
            put_word(text, b"(")?;
            comparison(text, *sign)?;
            operands(text, left, right)?;
            Ok(())
        }
    }
}
