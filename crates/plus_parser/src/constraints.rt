//! Reads constraints on the way that a plan takes.

ghost use Rattle.std.specs.Prelude.{◌≡◌, true, ◌<◌, ◌≤◌, ◌-◌, [], ◌∷◌, length, IfOk, OnOk, Ok, MatchResult};
ghost use Rattle.plus_tokens.specs.Lowered.{lowered};
ghost use Rattle.plus_tokens.specs.Seen.{seen};
ghost use Rattle.plus_parser.specs.Phrases.Reading.{Gives, Fails, is_open};
ghost use Rattle.plus_parser.specs.Phrases.Words.{look};
ghost use Rattle.plus_parser.specs.Phrases.Grammar.{around, until_close, form_step};
ghost use Rattle.plus_parser.specs.Forms.ReadingForms.{form_next, both_of, cond_at};
ghost use Rattle.plus_parser.specs.ReadingConstraints.{rule_words, rule_word_of, time_next, rule_with, rule_behind, constraint_behind, constraint_at, constraints_at, constraints_of};

use crate::domains::end;
use crate::forms::conditions;
use crate::phrases::reader::Reader;
use crate::phrases::uses::around;
use crate::phrases::words::{is_close, is_open, is_the};
use crate::problems::literal;
use plus_tokens::{Kind, Seen};
use plus_tree::{CondTree, Constraint, Literal, Rule, Span, TextFault};
use std::alloc::{AllocError, Global};

/// What a token begins behind the opening parenthesis of constraints.
#[derive(Clone, Copy, PartialEq, Eq)]
pub enum RuleWord {
    /// A list of constraints.
    And,
    Always,
    Sometime,
    Within,
    HoldAfter,
    Other,
}

// What a word begins.
fn rule_word(word: &[u8]) -> RuleWord
    ensures { result ≡ look (lowered word.now) rule_words RuleWord.Other }
{
    if is_the(word, b"and") {
        RuleWord::And
    } else if is_the(word, b"always") {
        RuleWord::Always
    } else if is_the(word, b"sometime") {
        RuleWord::Sometime
    } else if is_the(word, b"within") {
        RuleWord::Within
    } else if is_the(word, b"hold-after") {
        RuleWord::HoldAfter
    } else {
        RuleWord::Other
    }
}

/// What a token begins behind the opening parenthesis of constraints.
pub fn rule_word_of(token: &Seen<'_>) -> RuleWord
    ensures { result ≡ rule_word_of (seen token.now) }
{
    match token.kind {
        Kind::Name => rule_word(token.word),
        _ => RuleWord::Other,
    }
}

// The number without a sign that comes next.
#[tactic(auto, unfolding(crate::specs::ReadingConstraints::time_next))]
fn time(reader: &mut Reader<'_>, room: u8) -> Result<Literal, TextFault>
    ensures gives { Gives (λ t. t) reader.new result (time_next room reader.old) }
    ensures shorter { OnOk result (length reader.new < length reader.old) }
{
    let token = reader.time(room)?;
    literal(&token)
}

// The rule that a token begins.
fn rule(reader: &mut Reader<'_>, room: u8, token: &Seen<'_>) -> Result<Rule, TextFault>
    ensures gives { Gives (λ r. r) reader.new result
        (rule_with room (seen token.now) reader.old (rule_word_of (seen token.now))) }
    ensures no_longer { OnOk result (length reader.new ≤ length reader.old) }
{
    match rule_word_of(token) {
        RuleWord::Always => Ok(Rule::Always),
        RuleWord::Sometime => Ok(Rule::Sometime),
        RuleWord::Within => Ok(Rule::Within(time(reader, room)?)),
        RuleWord::HoldAfter => Ok(Rule::HoldAfter(time(reader, room)?)),
        RuleWord::And | RuleWord::Other => Err(TextFault::Form { span: token.span }),
    }
}

// The rule that a token begins, its condition and the closing parenthesis.
#[tactic(auto, unfolding(crate::specs::Forms::ReadingForms::both_of))]
fn ruled(
    alloc: Global,
    reader: &mut Reader<'_>,
    room: u8,
    token: &Seen<'_>,
) -> Result<((Rule, Box<CondTree>), Span), TextFault>
    ensures gives { Gives (λ x. ((x.0.0, x.0.1.value), x.1)) reader.new result
        (both_of room (rule_behind room (seen token.now)) (form_next room (cond_at room)) reader.old) }
    ensures shorter { OnOk result (length reader.new < length reader.old) }
{
    let rule = rule(reader, room, token)?;
    let cond = conditions::boxed(alloc, reader, room)?;
    let last = reader.close(room)?;
    Ok(((rule, cond), last.span))
}

// The constraint that a token begins.
#[tactic(auto, unfolding(crate::specs::ReadingConstraints::constraint_behind))]
fn behind(
    alloc: Global,
    reader: &mut Reader<'_>,
    room: u8,
    front: Span,
    token: &Seen<'_>,
) -> Result<Constraint, TextFault>
    ensures gives { Gives (λ c. c) reader.new result
        (constraint_behind room front (seen token.now) reader.old) }
    ensures shorter { OnOk result (length reader.new < length reader.old) }
{
    let ((rule, cond), last) = ruled(alloc, reader, room, token)?;
    Ok(Constraint {
        rule,
        cond: Box::into_inner(cond),
        span: around(front, last),
    })
}

// The constraint whose opening parenthesis took one of so many places.
#[tactic(auto, unfolding(crate::specs::ReadingConstraints::constraint_at))]
fn constraint(
    alloc: Global,
    reader: &mut Reader<'_>,
    room: u8,
    front: Span,
) -> Result<Constraint, TextFault>
    requires { 0 < room }
    ensures gives { Gives (λ c. c) reader.new result (constraint_at room front reader.old) }
    ensures shorter { OnOk result (length reader.new < length reader.old) }
{
    let token = reader.next(room - 1)?;
    behind(alloc, reader, room - 1, front, &token)
}

// One more constraint, which begins with a token.
#[tactic(auto, unfolding(crate::specs::Phrases::Grammar::form_step))]
fn next_constraint(
    alloc: Global,
    reader: &mut Reader<'_>,
    room: u8,
    found: &mut Vec<Constraint>,
    token: &Seen<'_>,
) -> Result<(), TextFault>
    requires { is_open token.now.kind ≡ true → 0 < room }
    ensures gives { Gives (λ _. found.new.items) reader.new result
        (form_step (constraint_at room) found.old.items (seen token.now) reader.old) }
    ensures shorter { OnOk result (length reader.new < length reader.old) }
{
    if !is_open(token.kind) {
        return Err(TextFault::Form { span: token.span });
    }
    let one = constraint(alloc, reader, room, token.span)?;
    found.push(one)?;
    Ok(())
}

// The constraints up to the closing parenthesis.
fn members(
    alloc: Global,
    reader: &mut Reader<'_>,
    room: u8,
) -> Result<(Vec<Constraint>, Span), TextFault>
    ensures gives { Gives (λ x. (x.0.items, x.1)) reader.new result
        (until_close (form_step (constraint_at room)) room (length reader.old) [] reader.old) }
    ensures shorter { OnOk result (length reader.new < length reader.old) }
{
    let mut found = Vec::new(alloc);
    'found: loop {
        let token = reader.next(room)?;
        if is_close(token.kind) {
            return Ok((found, token.span));
        }
        next_constraint(alloc, reader, room, &mut found, &token)?;
    }
}

// A list of one constraint.
fn alone(alloc: Global, one: Constraint) -> Result<Vec<Constraint>, AllocError>
    ensures { IfOk result (λ found. found.items ≡ one ∷ []) }
{
    let mut found = Vec::new(alloc);
    found.push(one)?;
    Ok(found)
}

// The constraints whose opening parenthesis took one of so many places: a list, or a single one.
#[tactic(auto, unfolding(crate::specs::ReadingConstraints::constraints_at))]
fn inside(
    alloc: Global,
    reader: &mut Reader<'_>,
    room: u8,
    front: Span,
) -> Result<Vec<Constraint>, TextFault>
    requires { 0 < room }
    ensures gives { Gives (λ x. x.items) reader.new result (constraints_at room front reader.old) }
    ensures shorter { OnOk result (length reader.new < length reader.old) }
{
    let token = reader.next(room - 1)?;
    match rule_word_of(&token) {
        RuleWord::And => {
            let (found, _) = members(alloc, reader, room - 1)?;
            Ok(found)
        }
        _ => {
            let one = behind(alloc, reader, room - 1, front, &token)?;
            Ok(alone(alloc, one)?)
        }
    }
}

// The constraints that come next.
#[tactic(auto, unfolding(crate::specs::Forms::ReadingForms::form_next))]
fn next(alloc: Global, reader: &mut Reader<'_>, room: u8) -> Result<Vec<Constraint>, TextFault>
    ensures gives { Gives (λ x. x.items) reader.new result
        (form_next room (constraints_at room) reader.old) }
    ensures shorter { OnOk result (length reader.new < length reader.old) }
{
    let start = reader.open(room)?;
    inside(alloc, reader, room, start.span)
}

/// The constraints that a reader gives.
#[tactic(auto, unfolding(crate::specs::ReadingConstraints::constraints_of))]
pub fn constraints(alloc: Global, reader: &mut Reader<'_>) -> Result<Vec<Constraint>, TextFault>
    ensures gives { MatchResult result
        (λ x. constraints_of 64 reader.old ≡ Ok x.items)
        (λ e. Fails e (constraints_of 64 reader.old)) }
    ensures rest { OnOk result (reader.new ≡ []) }
{
    let found = next(alloc, reader, 64)?;
    end(reader)?;
    Ok(found)
}
