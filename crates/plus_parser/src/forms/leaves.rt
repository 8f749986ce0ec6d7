//! Reads a leaf of an effect, and leaves where a condition holds.

ghost use Rattle.std.specs.Prelude.{◌≡◌, true, ◌<◌, ◌≤◌, ◌-◌, [], length, OnOk};
ghost use Rattle.plus_parser.specs.Phrases.Reading.{Gives, is_open};
ghost use Rattle.plus_parser.specs.Phrases.Words.{head_of};
ghost use Rattle.plus_parser.specs.Phrases.Grammar.{around, until_close, form_step, use_form, expr_next, expr_at};
ghost use Rattle.plus_parser.specs.declared.phrases.words.Allowed.TheVariants.{Terms};
ghost use Rattle.plus_tokens.specs.Seen.{seen};
ghost use Rattle.plus_parser.specs.Forms.ReadingForms.{both_of, form_next, change_node, leaf_with, leaf_behind, leaf_at, simple_at};

use crate::phrases::expressions;
use crate::phrases::reader::Reader;
use crate::phrases::uses::{around, use_end, use_form};
use crate::phrases::words::{Allowed, Change, HeadWord, head_of, is_close, is_open};
use plus_tokens::Seen;
use plus_tree::{ExprTree, Leaf, LeafNode, Members, Span, TextFault, Use};
use std::alloc::Global;

fn change_node(change: Change, fluent: Use, amount: ExprTree) -> LeafNode
    ensures { result ≡ change_node change fluent amount }
{
    match change {
        Change::Assign => LeafNode::Assign(fluent, amount),
        Change::Increase => LeafNode::Increase(fluent, amount),
        Change::Decrease => LeafNode::Decrease(fluent, amount),
        Change::ScaleUp => LeafNode::ScaleUp(fluent, amount),
        Change::ScaleDown => LeafNode::ScaleDown(fluent, amount),
    }
}

// The fluent and the amount of a change, and the closing parenthesis.
#[tactic(auto, unfolding(crate::specs::Forms::ReadingForms::both_of))]
fn changed(
    alloc: Global,
    reader: &mut Reader<'_>,
    room: u8,
) -> Result<((Use, ExprTree), Span), TextFault>
    ensures gives { Gives (λ x. x) reader.new result
        (both_of room (use_form Terms room) (expr_next room (expr_at room)) reader.old) }
    ensures shorter { OnOk result (length reader.new < length reader.old) }
{
    let fluent = use_form(alloc, reader, Allowed::Terms, room)?;
    let amount = expressions::next(alloc, reader, room)?;
    let last = reader.close(room)?;
    Ok(((fluent, amount), last.span))
}

/// A leaf, behind its first token.
#[tactic(auto, unfolding(crate::specs::Forms::ReadingForms::leaf_behind))]
pub fn behind(
    alloc: Global,
    reader: &mut Reader<'_>,
    room: u8,
    front: Span,
    head: &Seen<'_>,
) -> Result<Leaf, TextFault>
    ensures gives { Gives (λ l. l) reader.new result
        (leaf_behind room front (seen head.now) reader.old) }
    ensures shorter { OnOk result (length reader.new < length reader.old) }
{
    match head_of(head) {
        HeadWord::Not => {
            let atom = use_form(alloc, reader, Allowed::Terms, room)?;
            let last = reader.close(room)?;
            Ok(Leaf {
                node: LeafNode::Delete(atom),
                span: around(front, last.span),
            })
        }
        HeadWord::Change(change) => {
            let ((fluent, amount), last) = changed(alloc, reader, room)?;
            Ok(Leaf {
                node: change_node(change, fluent, amount),
                span: around(front, last),
            })
        }
        HeadWord::Plain => {
            let atom = use_end(alloc, reader, Allowed::Terms, room, front, head)?;
            let span = atom.span;
            Ok(Leaf {
                node: LeafNode::Add(atom),
                span,
            })
        }
        _ => Err(TextFault::Form { span: head.span }),
    }
}

// The leaf whose opening parenthesis took one of so many places.
#[tactic(auto, unfolding(crate::specs::Forms::ReadingForms::leaf_at))]
fn leaf(alloc: Global, reader: &mut Reader<'_>, room: u8, front: Span) -> Result<Leaf, TextFault>
    requires { 0 < room }
    ensures gives { Gives (λ l. l) reader.new result (leaf_at room front reader.old) }
    ensures shorter { OnOk result (length reader.new < length reader.old) }
{
    let head = reader.next(room - 1)?;
    behind(alloc, reader, room - 1, front, &head)
}

// One more leaf, which begins with a token.
#[tactic(auto, unfolding(crate::specs::Phrases::Grammar::form_step))]
fn next_leaf(
    alloc: Global,
    reader: &mut Reader<'_>,
    room: u8,
    found: &mut Members<Leaf>,
    token: &Seen<'_>,
) -> Result<(), TextFault>
    requires { is_open token.now.kind ≡ true → 0 < room }
    ensures gives { Gives (λ _. found.new) reader.new result
        (form_step (leaf_at room) found.old (seen token.now) reader.old) }
    ensures shorter { OnOk result (length reader.new < length reader.old) }
{
    if !is_open(token.kind) {
        return Err(TextFault::Form { span: token.span });
    }
    let one = leaf(alloc, reader, room, token.span)?;
    found.push(one)?;
    Ok(())
}

// The leaves up to the closing parenthesis.
fn leaves(
    alloc: Global,
    reader: &mut Reader<'_>,
    room: u8,
) -> Result<(Members<Leaf>, Span), TextFault>
    ensures gives { Gives (λ x. x) reader.new result
        (until_close (form_step (leaf_at room)) room (length reader.old) [] reader.old) }
    ensures shorter { OnOk result (length reader.new < length reader.old) }
{
    let mut found = Members::new(alloc);
    'found: loop {
        let token = reader.next(room)?;
        if is_close(token.kind) {
            return Ok((found, token.span));
        }
        next_leaf(alloc, reader, room, &mut found, &token)?;
    }
}

// What is done where a condition holds, whose opening parenthesis took one of so many places.
#[tactic(auto, unfolding(crate::specs::Forms::ReadingForms::simple_at))]
fn simple(
    alloc: Global,
    reader: &mut Reader<'_>,
    room: u8,
    front: Span,
) -> Result<Members<Leaf>, TextFault>
    requires { 0 < room }
    ensures gives { Gives (λ x. x) reader.new result (simple_at room front reader.old) }
    ensures shorter { OnOk result (length reader.new < length reader.old) }
{
    let head = reader.next(room - 1)?;
    match head_of(&head) {
        HeadWord::Nothing => Ok(Members::new(alloc)),
        HeadWord::And => {
            let (found, _) = leaves(alloc, reader, room - 1)?;
            Ok(found)
        }
        _ => {
            let mut found = Members::new(alloc);
            found.push(behind(alloc, reader, room - 1, front, &head)?)?;
            Ok(found)
        }
    }
}

/// What is done where a condition holds: `()`, `(and ..)` of leaves, or a leaf.
#[tactic(auto, unfolding(crate::specs::Forms::ReadingForms::form_next))]
pub fn next_simple(
    alloc: Global,
    reader: &mut Reader<'_>,
    room: u8,
) -> Result<Members<Leaf>, TextFault>
    ensures gives { Gives (λ x. x) reader.new result
        (form_next room (simple_at room) reader.old) }
    ensures shorter { OnOk result (length reader.new < length reader.old) }
{
    let start = reader.open(room)?;
    simple(alloc, reader, room, start.span)
}
