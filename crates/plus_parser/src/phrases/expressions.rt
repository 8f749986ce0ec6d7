//! Reads an expression.

ghost use Rattle.std.specs.Prelude.{◌≡◌, ◌+◌, ◌-◌, ◌<◌, ◌≤◌, ◌==◌, ◌&&◌, ◌%◌, not, true, List, [], ◌∷◌, length, IfOk, OnOk};
ghost use Rattle.plus_parser.specs.Phrases.Reading.{Gives, is_open};
ghost use Rattle.plus_tokens.specs.Items.{Item};
ghost use Rattle.plus_parser.specs.Phrases.Literals.{trimmed, literal_of};
ghost use Rattle.plus_parser.specs.Phrases.Grammar.{around, until_close, start_step, number_or, expr_from, expr_next, two_of, pair_of, many_of, minus_of, expr_at, expr_body};
ghost use Rattle.plus_tree.specs.Expr.{x_minus, x_difference, x_quotient};
ghost use Rattle.plus_tokens.specs.Seen.{seen};

use crate::phrases::reader::Reader;
use crate::phrases::uses::{around, use_end};
use crate::phrases::words::{Allowed, ExprWord, expr_head, is_close};
use plus_tokens::{Kind, Seen};
use plus_tree::{ExprNode, ExprTree, Literal, Span, TextFault};
use std::alloc::{AllocError, Global};

// 0 has no sign.
fn has_sign(negative: bool, digits: u128) -> bool
    ensures { result ≡ (negative && not (digits == 0)) }
{
    negative && digits != 0
}

// The number `digits / 10^places` without zeros at the end of its places, and 0 without a sign.
#[inline(always)]
#[tactic(auto, using(crate::proofs::PhraseLemmas::Trimmed::trimming))]
fn trimmed(negative: bool, digits: u128, places: u8, span: Span) -> Literal
    ensures { result ≡ trimmed negative span places digits }
{
    if places == 0 {
        Literal {
            negative: has_sign(negative, digits),
            digits,
            places: 0,
            span,
        }
    } else if digits % 10 == 0 {
        trimmed(negative, digits / 10, places - 1, span)
    } else {
        Literal {
            negative,
            digits,
            places,
            span,
        }
    }
}

/// The number that a token spells, where it spells one.
#[tactic(auto, unfolding(crate::specs::Phrases::Literals::kind_literal))]
pub fn literal_of(token: &Seen<'_>) -> Option<Literal>
    ensures { result ≡ literal_of (seen token.now) }
{
    let n = token.numeral()?;
    Some(trimmed(n.negative, n.digits, n.places, token.span))
}

/// The expression from its first token on.
#[cycle(expr)]
#[tactic(auto, unfolding(crate::specs::Phrases::Grammar::expr_from))]
pub fn from_token(
    alloc: Global,
    reader: &mut Reader<'_>,
    room: u8,
    token: &Seen<'_>,
) -> Result<ExprTree, TextFault>
    requires { is_open token.now.kind ≡ true → 0 < room }
    ensures gives { Gives (λ x. x) reader.new result
        (expr_from (expr_at room) (seen token.now) reader.old) }
    ensures no_longer { OnOk result (length reader.new ≤ length reader.old) }
{
    match token.kind {
        Kind::Open => inside(alloc, reader, room, token.span),
        Kind::Clock => Ok(ExprTree {
            node: ExprNode::Clock,
            span: token.span,
        }),
        _ => number(token),
    }
}

// The number that a token spells.
fn number(token: &Seen<'_>) -> Result<ExprTree, TextFault>
    ensures gives { (rest : List Item) → Gives (λ x. x) rest result
        (number_or (literal_of (seen token.now)) (seen token.now) rest) }
{
    match literal_of(token) {
        Some(literal) => Ok(ExprTree {
            node: ExprNode::Number(literal),
            span: token.span,
        }),
        None => Err(TextFault::Form { span: token.span }),
    }
}

/// The expression that comes next.
#[cycle(expr)]
#[tactic(auto, unfolding(crate::specs::Phrases::Grammar::expr_next))]
pub fn next(alloc: Global, reader: &mut Reader<'_>, room: u8) -> Result<ExprTree, TextFault>
    ensures gives { Gives (λ x. x) reader.new result (expr_next room (expr_at room) reader.old) }
    ensures shorter { OnOk result (length reader.new < length reader.old) }
{
    let token = reader.next(room)?;
    from_token(alloc, reader, room, &token)
}

// Two expressions.
#[cycle(expr)]
#[tactic(auto, unfolding(crate::specs::Phrases::Grammar::two_of))]
fn two(alloc: Global, reader: &mut Reader<'_>, room: u8) -> Result<(ExprTree, ExprTree), TextFault>
    ensures gives { Gives (λ x. x) reader.new result (two_of room (expr_at room) reader.old) }
    ensures shorter { OnOk result (length reader.new < length reader.old) }
{
    let left = next(alloc, reader, room)?;
    let right = next(alloc, reader, room)?;
    Ok((left, right))
}

fn quotient(
    alloc: Global,
    left: ExprTree,
    right: ExprTree,
    span: Span,
) -> Result<ExprTree, AllocError>
    ensures { IfOk result (λ x. x ≡ x_quotient left right span) }
{
    let left = Box::new(alloc, left)?;
    let right = Box::new(alloc, right)?;
    Ok(ExprTree {
        node: ExprNode::Quotient(left, right),
        span,
    })
}

fn difference(
    alloc: Global,
    left: ExprTree,
    right: ExprTree,
    span: Span,
) -> Result<ExprTree, AllocError>
    ensures { IfOk result (λ x. x ≡ x_difference left right span) }
{
    let left = Box::new(alloc, left)?;
    let right = Box::new(alloc, right)?;
    Ok(ExprTree {
        node: ExprNode::Difference(left, right),
        span,
    })
}

fn negated(alloc: Global, expr: ExprTree, span: Span) -> Result<ExprTree, AllocError>
    ensures { IfOk result (λ x. x ≡ x_minus expr span) }
{
    Ok(ExprTree {
        node: ExprNode::Minus(Box::new(alloc, expr)?),
        span,
    })
}

// Two expressions and the closing parenthesis.
#[cycle(expr)]
#[tactic(auto, unfolding(crate::specs::Phrases::Grammar::pair_of))]
fn pair(
    alloc: Global,
    reader: &mut Reader<'_>,
    room: u8,
) -> Result<((ExprTree, ExprTree), Span), TextFault>
    ensures gives { Gives (λ x. x) reader.new result (pair_of room (expr_at room) reader.old) }
    ensures shorter { OnOk result (length reader.new < length reader.old) }
{
    let both = two(alloc, reader, room)?;
    let last = reader.close(room)?;
    Ok((both, last.span))
}

// One more expression, which begins with a token.
#[cycle(expr)]
fn member(
    alloc: Global,
    reader: &mut Reader<'_>,
    room: u8,
    found: &mut Vec<ExprTree>,
    token: &Seen<'_>,
) -> Result<(), TextFault>
    requires { is_open token.now.kind ≡ true → 0 < room }
    ensures gives { Gives (λ _. found.new.items) reader.new result
        (start_step (expr_from (expr_at room)) found.old.items (seen token.now) reader.old) }
    ensures no_longer { OnOk result (length reader.new ≤ length reader.old) }
{
    let one = from_token(alloc, reader, room, token)?;
    found.push(one)?;
    Ok(())
}

// The expressions up to the closing parenthesis, which are added to those before them.
#[cycle(expr)]
fn members(
    alloc: Global,
    reader: &mut Reader<'_>,
    room: u8,
    found: &mut Vec<ExprTree>,
) -> Result<Span, TextFault>
    ensures gives { Gives (λ last. (found.new.items, last)) reader.new result
        (until_close (start_step (expr_from (expr_at room))) room (length reader.old) found.old.items reader.old) }
    ensures shorter { OnOk result (length reader.new < length reader.old) }
{
    'found: loop {
        let token = reader.next(room)?;
        if is_close(token.kind) {
            return Ok(token.span);
        }
        member(alloc, reader, room, found, &token)?;
    }
}

// Two expressions or more, up to the closing parenthesis.
#[cycle(expr)]
#[tactic(auto, unfolding(crate::specs::Phrases::Grammar::many_of))]
fn many(
    alloc: Global,
    reader: &mut Reader<'_>,
    room: u8,
) -> Result<(Vec<ExprTree>, Span), TextFault>
    ensures gives { Gives (λ x. (x.0.items, x.1)) reader.new result
        (many_of room (expr_at room) reader.old) }
    ensures shorter { OnOk result (length reader.new < length reader.old) }
{
    let both = two(alloc, reader, room)?;
    let mut found = of_two(alloc, both)?;
    let last = members(alloc, reader, room, &mut found)?;
    Ok((found, last))
}

fn of_two(alloc: Global, both: (ExprTree, ExprTree)) -> Result<Vec<ExprTree>, AllocError>
    ensures { IfOk result (λ v. v.items ≡ both.0 ∷ both.1 ∷ []) }
{
    let mut found = Vec::new(alloc);
    let (left, right) = both;
    found.push(left)?;
    found.push(right)?;
    Ok(found)
}

// `(- x)` or `(- x y)`, behind the sign.
#[cycle(expr)]
#[tactic(auto, unfolding(crate::specs::Phrases::Grammar::minus_of))]
fn minus(
    alloc: Global,
    reader: &mut Reader<'_>,
    room: u8,
    front: Span,
) -> Result<ExprTree, TextFault>
    ensures gives { Gives (λ x. x) reader.new result
        (minus_of room (expr_at room) front reader.old) }
    ensures shorter { OnOk result (length reader.new < length reader.old) }
{
    let left = next(alloc, reader, room)?;
    let token = reader.next(room)?;
    if is_close(token.kind) {
        return Ok(negated(alloc, left, around(front, token.span))?);
    }
    let right = from_token(alloc, reader, room, &token)?;
    let last = reader.close(room)?;
    Ok(difference(alloc, left, right, around(front, last.span))?)
}

// The expression behind an opening parenthesis, where room is left for so many more.
#[cycle(expr)]
#[tactic(auto, unfolding(crate::specs::Phrases::Grammar::expr_body))]
fn expr(
    alloc: Global,
    reader: &mut Reader<'_>,
    room: u8,
    front: Span,
) -> Result<ExprTree, TextFault>
    ensures gives { Gives (λ x. x) reader.new result
        (expr_body room (expr_at room) front reader.old) }
    ensures shorter { OnOk result (length reader.new < length reader.old) }
{
    let token = reader.next(room)?;
    match expr_head(&token) {
        ExprWord::Sum => {
            let (members, last) = many(alloc, reader, room)?;
            Ok(ExprTree {
                node: ExprNode::Sum(members),
                span: around(front, last),
            })
        }
        ExprWord::Product => {
            let (members, last) = many(alloc, reader, room)?;
            Ok(ExprTree {
                node: ExprNode::Product(members),
                span: around(front, last),
            })
        }
        ExprWord::Minus => minus(alloc, reader, room, front),
        ExprWord::Quotient => {
            let ((left, right), last) = pair(alloc, reader, room)?;
            Ok(quotient(alloc, left, right, around(front, last))?)
        }
        ExprWord::Plain => {
            let fluent = use_end(alloc, reader, Allowed::Terms, room, front, &token)?;
            let span = fluent.span;
            Ok(ExprTree {
                node: ExprNode::Fluent(Box::new(alloc, fluent)?),
                span,
            })
        }
        ExprWord::Other => Err(TextFault::Form { span: token.span }),
    }
}

/// The expression whose opening parenthesis took one of so many places.
#[cycle(expr)]
pub fn inside(
    alloc: Global,
    reader: &mut Reader<'_>,
    room: u8,
    front: Span,
) -> Result<ExprTree, TextFault>
    requires { 0 < room }
    ensures gives { Gives (λ x. x) reader.new result (expr_at room front reader.old) }
    ensures shorter { OnOk result (length reader.new < length reader.old) }
{
    expr(alloc, reader, room - 1, front)
}
