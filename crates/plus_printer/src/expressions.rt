//! Expressions.
ghost use Rattle.std.specs.Prelude.{◌++◌, codes};
ghost use Rattle.plus_printer.specs.Appended.{Prints};
ghost use Rattle.plus_printer.specs.Words.{word};
ghost use Rattle.plus_printer.specs.Canon.{expr_text};

use crate::words::{literal, put_word, used};
use plus_tree::{ExprNode, ExprTree};
use std::alloc::AllocError;

#[tactic(auto, using(crate::proofs::AppendedLemmas::appending))]
pub fn expression(text: &mut Vec<u8>, expr: &ExprTree) -> Result<(), AllocError>
    ensures { Prints text.old.items text.new.items (expr_text expr.now) result }
{
    match &expr.node {
        ExprNode::Number(number) => literal(text, number),
        ExprNode::Clock => put_word(text, b"#t"),
        ExprNode::Fluent(fluent) => used(text, fluent),
        ExprNode::Sum(members) => {
            put_word(text, b"(+")?;
            'sum: for member in members {
                put_word(text, b" ")?;
                expression(text, member)?;
            }
            put_word(text, b")")?;
            Ok(())
        }
        ExprNode::Product(members) => {
            put_word(text, b"(*")?;
            'product: for member in members {
                put_word(text, b" ")?;
                expression(text, member)?;
            }
            put_word(text, b")")?;
            Ok(())
        }
        ExprNode::Minus(only) => {
            put_word(text, b"(- ")?;
            expression(text, only)?;
            put_word(text, b")")?;
            Ok(())
        }
        ExprNode::Difference(left, right) => {
            put_word(text, b"(- ")?;
            expression(text, left)?;
            put_word(text, b" ")?;
            expression(text, right)?;
            put_word(text, b")")?;
            Ok(())
        }
        ExprNode::Quotient(left, right) => {
            put_word(text, b"(/ ")?;
            expression(text, left)?;
            put_word(text, b" ")?;
            expression(text, right)?;
            put_word(text, b")")?;
            Ok(())
        }
    }
}

// Two expressions, each behind a space, and the end of their form.
#[tactic(auto, using(crate::proofs::AppendedLemmas::appending))]
pub fn operands(text: &mut Vec<u8>, left: &ExprTree, right: &ExprTree) -> Result<(), AllocError>
    ensures { Prints text.old.items text.new.items (word (codes " ") ++ (expr_text left.now
        ++ (word (codes " ") ++ (expr_text right.now ++ word (codes ")"))))) result }
{
    put_word(text, b" ")?;
    expression(text, left)?;
    put_word(text, b" ")?;
    expression(text, right)?;
    put_word(text, b")")?;
    Ok(())
}
