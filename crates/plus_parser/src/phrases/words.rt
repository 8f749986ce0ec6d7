//! What a token begins, by its word.

ghost use Rattle.std.specs.Prelude.{◌≡◌, ◌&&◌, ◌||◌, List, ℕ, length, map, if◌then◌else◌};
ghost use Rattle.std.specs.Str.{bytes_eq};
ghost use Rattle.plus_tokens.specs.Lowered.{lowered};
ghost use Rattle.plus_parser.specs.Phrases.Words.{look, changes, word_head, op_head, head_of, sign_expr, expr_head, is_plain_head, is_close, is_minus, is_variable, is_term, is_time, is_allowed, is_word};
ghost use Rattle.plus_parser.specs.Phrases.Reading.{is_open};
ghost use Rattle.plus_tokens.specs.Seen.{seen};

use plus_tokens::{Kind, Op, Seen};
use plus_tree::Comparison;

/// What stands behind an opening parenthesis of a condition or an effect.
#[derive(Clone, Copy, PartialEq, Eq)]
pub enum HeadWord {
    /// The closing parenthesis.
    Nothing,
    And,
    Or,
    Not,
    Imply,
    ForAll,
    Exists,
    When,
    /// The word of a change of a number.
    Change(Change),
    /// The sign of a comparison.
    Compare(Comparison),
    /// Any other name: that of a predicate.
    Plain,
    /// A token that begins none.
    Other,
}

/// What a change does to a number.
#[derive(Clone, Copy, PartialEq, Eq)]
pub enum Change {
    Assign,
    Increase,
    Decrease,
    ScaleUp,
    ScaleDown,
}

/// What stands behind an opening parenthesis of an expression.
#[derive(Clone, Copy, PartialEq, Eq)]
pub enum ExprWord {
    Sum,
    Product,
    Minus,
    Quotient,
    /// A name: that of a function.
    Plain,
    /// A token that begins none.
    Other,
}

/// Which terms may stand at a place.
#[derive(Clone, Copy, PartialEq, Eq)]
pub enum Allowed {
    /// Names and variables.
    Terms,
    Variables,
    Names,
}

/// Whether a word is this one, in small or large letters.
#[inline(always)]
pub fn is_the(word: &[u8], small: &[u8]) -> bool
    requires { lowered small.now ≡ small.now }
    ensures { result ≡ bytes_eq (lowered word.now) small.now }
{
    word.eq_ignore_ascii_case(small)
}

// What a word of changes begins; any other name is plain.
#[inline(always)]
fn change_head(word: &[u8]) -> HeadWord
    ensures { result ≡ look (lowered word.now) changes HeadWord.Plain }
{
    if is_the(word, b"assign") {
        HeadWord::Change(Change::Assign)
    } else if is_the(word, b"increase") {
        HeadWord::Change(Change::Increase)
    } else if is_the(word, b"decrease") {
        HeadWord::Change(Change::Decrease)
    } else if is_the(word, b"scale-up") {
        HeadWord::Change(Change::ScaleUp)
    } else if is_the(word, b"scale-down") {
        HeadWord::Change(Change::ScaleDown)
    } else {
        HeadWord::Plain
    }
}

fn word_head(word: &[u8]) -> HeadWord
    ensures { result ≡ word_head (lowered word.now) }
{
    if is_the(word, b"and") {
        HeadWord::And
    } else if is_the(word, b"or") {
        HeadWord::Or
    } else if is_the(word, b"not") {
        HeadWord::Not
    } else if is_the(word, b"imply") {
        HeadWord::Imply
    } else if is_the(word, b"forall") {
        HeadWord::ForAll
    } else if is_the(word, b"exists") {
        HeadWord::Exists
    } else if is_the(word, b"when") {
        HeadWord::When
    } else {
        change_head(word)
    }
}

fn op_head(op: Op) -> HeadWord
    ensures { result ≡ op_head op }
{
    match op {
        Op::Less => HeadWord::Compare(Comparison::Less),
        Op::AtMost => HeadWord::Compare(Comparison::AtMost),
        Op::Equal => HeadWord::Compare(Comparison::Equal),
        Op::AtLeast => HeadWord::Compare(Comparison::AtLeast),
        Op::Greater => HeadWord::Compare(Comparison::Greater),
        Op::Plus | Op::Minus | Op::Times | Op::Divide => HeadWord::Other,
    }
}

/// What a token begins behind an opening parenthesis.
pub fn head_of(token: &Seen<'_>) -> HeadWord
    ensures { result ≡ head_of (seen token.now) }
{
    match token.kind {
        Kind::Close => HeadWord::Nothing,
        Kind::Name => word_head(token.word),
        Kind::Op(op) => op_head(op),
        _ => HeadWord::Other,
    }
}

// What a name begins in an expression.
fn name_expr(word: &[u8]) -> ExprWord
    ensures { result ≡ (if is_plain_head (word_head (lowered word.now)) then ExprWord.Plain else ExprWord.Other) }
{
    match word_head(word) {
        HeadWord::Plain => ExprWord::Plain,
        _ => ExprWord::Other,
    }
}

fn op_expr(op: Op) -> ExprWord
    ensures { result ≡ sign_expr op }
{
    match op {
        Op::Plus => ExprWord::Sum,
        Op::Times => ExprWord::Product,
        Op::Minus => ExprWord::Minus,
        Op::Divide => ExprWord::Quotient,
        Op::Less | Op::AtMost | Op::Equal | Op::AtLeast | Op::Greater => ExprWord::Other,
    }
}

/// What a token begins behind the opening parenthesis of an expression.
pub fn expr_head(token: &Seen<'_>) -> ExprWord
    ensures { result ≡ expr_head (seen token.now) }
{
    match token.kind {
        Kind::Op(op) => op_expr(op),
        Kind::Name => name_expr(token.word),
        _ => ExprWord::Other,
    }
}

pub fn is_open(kind: Kind) -> bool
    ensures { result ≡ is_open kind }
{
    matches!(kind, Kind::Open)
}

pub fn is_close(kind: Kind) -> bool
    ensures { result ≡ is_close kind }
{
    matches!(kind, Kind::Close)
}

/// Whether a token is this word, in small or large letters.
pub fn is_word(token: &Seen<'_>, small: &[u8]) -> bool
    requires { lowered small.now ≡ small.now }
    ensures { result ≡ is_word small.now (seen token.now) }
{
    matches!(token.kind, Kind::Name) && is_the(token.word, small)
}

/// Whether the token is a minus sign.
pub fn is_minus(kind: Kind) -> bool
    ensures { result ≡ is_minus kind }
{
    matches!(kind, Kind::Op(Op::Minus))
}

/// Whether the token is a variable.
pub fn is_variable(kind: Kind) -> bool
    ensures { result ≡ is_variable kind }
{
    matches!(kind, Kind::Variable)
}

/// Whether the token is a name or a variable.
pub fn is_term(kind: Kind) -> bool
    ensures { result ≡ is_term kind }
{
    matches!(kind, Kind::Variable | Kind::Name)
}

/// Whether the token is a number that is not negative: a time.
pub fn is_time(token: &Seen<'_>) -> bool
    ensures { result ≡ is_time (seen token.now) }
{
    match token.numeral() {
        Some(n) => !n.negative,
        None => false,
    }
}

/// Whether the token is one of the terms that may stand here.
pub fn is_allowed(allowed: Allowed, kind: Kind) -> bool
    ensures { result ≡ is_allowed allowed kind }
{
    match allowed {
        Allowed::Terms => is_term(kind),
        Allowed::Variables => is_variable(kind),
        Allowed::Names => matches!(kind, Kind::Name),
    }
}
