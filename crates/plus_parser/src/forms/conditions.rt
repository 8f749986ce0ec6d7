//! Reads a condition.

ghost use Rattle.std.specs.Prelude.{◌≡◌, ◌&&◌, true, ◌<◌, ◌≤◌, [], length, OnOk};
ghost use Rattle.plus_tree.specs.CondView.{cond_view};
ghost use Rattle.plus_parser.specs.Phrases.Reading.{Gives, is_open};
ghost use Rattle.plus_parser.specs.Phrases.Words.{head_of, is_term};
ghost use Rattle.plus_parser.specs.Phrases.Grammar.{around, until_close, form_step, variables_of};
ghost use Rattle.plus_tokens.specs.Seen.{seen};
ghost use Rattle.plus_parser.specs.Forms.ReadingForms.{may_be_same, term_next, same_of, compared_of, plain_cond_with, form_next, both_of, cond_at, cond_body};

use crate::phrases::expressions;
use crate::phrases::lists::variables;
use crate::phrases::reader::Reader;
use crate::phrases::spelled::term_of;
use crate::phrases::uses::{around, use_end};
use crate::phrases::words::{Allowed, HeadWord, head_of, is_close, is_open, is_term};
use plus_tokens::{Kind, Seen};
use plus_tree::{Comparison, CondNode, CondTree, Members, Span, Term, TextFault, TypedName};
use std::alloc::Global;

// The room that a list of conditions begins with: most have two members.
const FEW: usize = 2;

// The term that comes next.
#[tactic(auto, unfolding(crate::specs::Forms::ReadingForms::term_next))]
fn term(alloc: Global, reader: &mut Reader<'_>, room: u8) -> Result<Term, TextFault>
    ensures gives { Gives (λ t. t) reader.new result (term_next room reader.old) }
    ensures shorter { OnOk result (length reader.new < length reader.old) }
{
    let token = reader.next(room)?;
    if is_term(token.kind) {
        Ok(term_of(alloc, &token)?)
    } else {
        Err(TextFault::Form { span: token.span })
    }
}

// Whether two terms may follow the sign of a comparison.
fn may_be_same(sign: Comparison) -> bool
    ensures { result ≡ may_be_same sign }
{
    matches!(sign, Comparison::Equal)
}

// Whether the first of two terms stands behind the sign.
fn is_same(sign: Comparison, kind: Kind) -> bool
    ensures { result ≡ (may_be_same sign && is_term kind) }
{
    may_be_same(sign) && is_term(kind)
}

// Two terms, behind the first of them.
fn same(
    alloc: Global,
    reader: &mut Reader<'_>,
    room: u8,
    front: Span,
    first: &Seen<'_>,
) -> Result<CondTree, TextFault>
    requires { 0 < length first.now.word.now }
    ensures gives { Gives (λ c. c) reader.new result
        (same_of room front (seen first.now) reader.old) }
    ensures shorter { OnOk result (length reader.new < length reader.old) }
{
    let second = term(alloc, reader, room)?;
    let last = reader.close(room)?;
    let first = Box::new(alloc, term_of(alloc, first)?)?;
    let second = Box::new(alloc, second)?;
    Ok(CondTree {
        node: CondNode::Same(first, second),
        span: around(front, last.span),
    })
}

// A comparison, behind its sign.
#[tactic(auto, unfolding(crate::specs::Forms::ReadingForms::compared_of))]
fn compared(
    alloc: Global,
    reader: &mut Reader<'_>,
    sign: Comparison,
    room: u8,
    front: Span,
) -> Result<CondTree, TextFault>
    ensures gives { Gives (λ c. c) reader.new result (compared_of sign room front reader.old) }
    ensures shorter { OnOk result (length reader.new < length reader.old) }
{
    let token = reader.next(room)?;
    if is_same(sign, token.kind) {
        return same(alloc, reader, room, front, &token);
    }
    let left = expressions::from_token(alloc, reader, room, &token)?;
    let right = expressions::next(alloc, reader, room)?;
    let last = reader.close(room)?;
    let left = Box::new(alloc, left)?;
    let right = Box::new(alloc, right)?;
    Ok(CondTree {
        node: CondNode::Compare(sign, left, right),
        span: around(front, last.span),
    })
}

// A condition in which no other stands, behind its first token.
fn plain(
    alloc: Global,
    reader: &mut Reader<'_>,
    room: u8,
    front: Span,
    head: &Seen<'_>,
) -> Result<CondTree, TextFault>
    ensures gives { Gives (λ c. c) reader.new result
        (plain_cond_with room front (seen head.now) reader.old (head_of (seen head.now))) }
    ensures no_longer { OnOk result (length reader.new ≤ length reader.old) }
{
    match head_of(head) {
        HeadWord::Nothing => Ok(CondTree {
            node: CondNode::All(Vec::new(alloc)),
            span: around(front, head.span),
        }),
        HeadWord::Compare(sign) => compared(alloc, reader, sign, room, front),
        HeadWord::Plain => {
            let atom = use_end(alloc, reader, Allowed::Terms, room, front, head)?;
            let span = atom.span;
            Ok(CondTree {
                node: CondNode::Atom(Box::new(alloc, atom)?),
                span,
            })
        }
        _ => Err(TextFault::Form { span: head.span }),
    }
}

// The condition of this node, which ends with a closing parenthesis.
fn made(node: CondNode, front: Span, last: Span) -> CondTree
    ensures { result ≡ cond_view node (around front last) }
{
    CondTree {
        node,
        span: around(front, last),
    }
}

// The condition behind an opening parenthesis, where room is left for so many more.
#[cycle(cond)]
#[tactic(auto, unfolding(crate::specs::Forms::ReadingForms::cond_body))]
fn cond(
    alloc: Global,
    reader: &mut Reader<'_>,
    room: u8,
    front: Span,
) -> Result<CondTree, TextFault>
    ensures gives { Gives (λ c. c) reader.new result
        (cond_body room (cond_at room) front reader.old) }
    ensures shorter { OnOk result (length reader.new < length reader.old) }
{
    let token = reader.next(room)?;
    match head_of(&token) {
        HeadWord::And => {
            let (members, last) = conds(alloc, reader, room)?;
            Ok(made(CondNode::All(members), front, last))
        }
        HeadWord::Or => {
            let (members, last) = conds(alloc, reader, room)?;
            Ok(made(CondNode::Any(members), front, last))
        }
        HeadWord::Not => {
            let start = reader.open(room)?;
            let negated = Box::new(alloc, inside(alloc, reader, room, start.span)?)?;
            let last = reader.close(room)?;
            Ok(made(CondNode::Not(negated), front, last.span))
        }
        HeadWord::Imply => {
            let ((before, after), last) = two(alloc, reader, room)?;
            Ok(made(CondNode::Imply(before, after), front, last))
        }
        HeadWord::ForAll => {
            let ((variables, body), last) = bound(alloc, reader, room)?;
            Ok(made(CondNode::ForAll(variables, body), front, last))
        }
        HeadWord::Exists => {
            let ((variables, body), last) = bound(alloc, reader, room)?;
            Ok(made(CondNode::Exists(variables, body), front, last))
        }
        _ => plain(alloc, reader, room, front, &token),
    }
}

/// The condition that comes next.
#[cycle(cond)]
#[tactic(auto, unfolding(crate::specs::Forms::ReadingForms::form_next))]
pub fn next(alloc: Global, reader: &mut Reader<'_>, room: u8) -> Result<CondTree, TextFault>
    ensures gives { Gives (λ c. c) reader.new result (form_next room (cond_at room) reader.old) }
    ensures shorter { OnOk result (length reader.new < length reader.old) }
{
    let start = reader.open(room)?;
    inside(alloc, reader, room, start.span)
}

/// The condition that comes next, in a box.
#[cycle(cond)]
pub fn boxed(alloc: Global, reader: &mut Reader<'_>, room: u8) -> Result<Box<CondTree>, TextFault>
    ensures gives { Gives (λ c. c.value) reader.new result
        (form_next room (cond_at room) reader.old) }
    ensures shorter { OnOk result (length reader.new < length reader.old) }
{
    let found = next(alloc, reader, room)?;
    Ok(Box::new(alloc, found)?)
}

// Two conditions and the closing parenthesis.
#[cycle(cond)]
#[tactic(auto, unfolding(crate::specs::Forms::ReadingForms::both_of))]
fn two(
    alloc: Global,
    reader: &mut Reader<'_>,
    room: u8,
) -> Result<((Box<CondTree>, Box<CondTree>), Span), TextFault>
    ensures gives { Gives (λ x. ((x.0.0.value, x.0.1.value), x.1)) reader.new result
        (both_of room (form_next room (cond_at room)) (form_next room (cond_at room)) reader.old) }
    ensures shorter { OnOk result (length reader.new < length reader.old) }
{
    let before = boxed(alloc, reader, room)?;
    let after = boxed(alloc, reader, room)?;
    let last = reader.close(room)?;
    Ok(((before, after), last.span))
}

// Variables, a condition on them and the closing parenthesis.
#[cycle(cond)]
#[tactic(auto, unfolding(crate::specs::Forms::ReadingForms::both_of))]
fn bound(
    alloc: Global,
    reader: &mut Reader<'_>,
    room: u8,
) -> Result<((Members<TypedName>, Box<CondTree>), Span), TextFault>
    ensures gives { Gives (λ x. ((x.0.0, x.0.1.value), x.1)) reader.new result
        (both_of room (variables_of room) (form_next room (cond_at room)) reader.old) }
    ensures shorter { OnOk result (length reader.new < length reader.old) }
{
    let found = variables(alloc, reader, room)?;
    let body = boxed(alloc, reader, room)?;
    let last = reader.close(room)?;
    Ok(((found, body), last.span))
}

// One more condition, which begins with a token.
#[cycle(cond)]
#[tactic(auto, unfolding(crate::specs::Phrases::Grammar::form_step))]
fn member(
    alloc: Global,
    reader: &mut Reader<'_>,
    room: u8,
    found: &mut Vec<CondTree>,
    token: &Seen<'_>,
) -> Result<(), TextFault>
    requires { is_open token.now.kind ≡ true → 0 < room }
    ensures gives { Gives (λ _. found.new.items) reader.new result
        (form_step (cond_at room) found.old.items (seen token.now) reader.old) }
    ensures shorter { OnOk result (length reader.new < length reader.old) }
{
    if !is_open(token.kind) {
        return Err(TextFault::Form { span: token.span });
    }
    let one = inside(alloc, reader, room, token.span)?;
    found.push(one)?;
    Ok(())
}

// The conditions up to the closing parenthesis, and where it stands.
#[cycle(cond)]
fn conds(
    alloc: Global,
    reader: &mut Reader<'_>,
    room: u8,
) -> Result<(Vec<CondTree>, Span), TextFault>
    ensures gives { Gives (λ x. (x.0.items, x.1)) reader.new result
        (until_close (form_step (cond_at room)) room (length reader.old) [] reader.old) }
    ensures shorter { OnOk result (length reader.new < length reader.old) }
{
    let mut found = Vec::with_capacity(alloc, FEW)?;
    'found: loop {
        let token = reader.next(room)?;
        if is_close(token.kind) {
            return Ok((found, token.span));
        }
        member(alloc, reader, room, &mut found, &token)?;
    }
}

/// The condition whose opening parenthesis took one of so many places.
#[cycle(cond)]
pub fn inside(
    alloc: Global,
    reader: &mut Reader<'_>,
    room: u8,
    front: Span,
) -> Result<CondTree, TextFault>
    requires { 0 < room }
    ensures gives { Gives (λ c. c) reader.new result (cond_at room front reader.old) }
    ensures shorter { OnOk result (length reader.new < length reader.old) }
{
    cond(alloc, reader, room - 1, front)
}
