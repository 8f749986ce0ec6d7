//! What a keyword begins.

ghost use Rattle.std.specs.Prelude.{◌≡◌, List, ℕ, map};
ghost use Rattle.plus_tokens.specs.Lowered.{lowered};
ghost use Rattle.plus_tokens.specs.Seen.{seen};
ghost use Rattle.plus_parser.specs.Phrases.Words.{look};
ghost use Rattle.plus_parser.specs.Keywords.{key_of, domain_words, domain_part_of, problem_words, problem_part_of};

use crate::phrases::words::is_the;
use plus_tokens::{Kind, Seen};

/// What a keyword begins in an action, a process or an event.
#[derive(Clone, Copy, PartialEq, Eq)]
pub enum KeyWord {
    Parameters,
    Precondition,
    Effect,
    Other,
}

/// What a keyword begins in a domain.
#[derive(Clone, Copy, PartialEq, Eq)]
pub enum DomainWord {
    Requirements,
    Types,
    Constants,
    Predicates,
    Functions,
    Action,
    Process,
    Event,
    Other,
}

/// What a keyword begins in a problem.
#[derive(Clone, Copy, PartialEq, Eq)]
pub enum ProblemWord {
    Domain,
    Requirements,
    Objects,
    Init,
    Goal,
    Metric,
    Other,
}

/// What a token begins in an action, a process or an event.
pub fn key_of(token: &Seen<'_>) -> KeyWord
    ensures { result ≡ key_of (seen token.now) }
{
    if !matches!(token.kind, Kind::Keyword) {
        KeyWord::Other
    } else if is_the(token.word, b":parameters") {
        KeyWord::Parameters
    } else if is_the(token.word, b":precondition") {
        KeyWord::Precondition
    } else if is_the(token.word, b":effect") {
        KeyWord::Effect
    } else {
        KeyWord::Other
    }
}

// What a word begins in a domain.
fn domain_word(word: &[u8]) -> DomainWord
    ensures { result ≡ look (lowered word.now) domain_words DomainWord.Other }
{
    if is_the(word, b":requirements") {
        DomainWord::Requirements
    } else if is_the(word, b":types") {
        DomainWord::Types
    } else if is_the(word, b":constants") {
        DomainWord::Constants
    } else if is_the(word, b":predicates") {
        DomainWord::Predicates
    } else if is_the(word, b":functions") {
        DomainWord::Functions
    } else if is_the(word, b":action") {
        DomainWord::Action
    } else if is_the(word, b":process") {
        DomainWord::Process
    } else if is_the(word, b":event") {
        DomainWord::Event
    } else {
        DomainWord::Other
    }
}

/// What a token begins in a domain, behind an opening parenthesis.
pub fn domain_part_of(token: &Seen<'_>) -> DomainWord
    ensures { result ≡ domain_part_of (seen token.now) }
{
    match token.kind {
        Kind::Keyword => domain_word(token.word),
        _ => DomainWord::Other,
    }
}

// What a word begins in a problem.
fn problem_word(word: &[u8]) -> ProblemWord
    ensures { result ≡ look (lowered word.now) problem_words ProblemWord.Other }
{
    if is_the(word, b":domain") {
        ProblemWord::Domain
    } else if is_the(word, b":requirements") {
        ProblemWord::Requirements
    } else if is_the(word, b":objects") {
        ProblemWord::Objects
    } else if is_the(word, b":init") {
        ProblemWord::Init
    } else if is_the(word, b":goal") {
        ProblemWord::Goal
    } else if is_the(word, b":metric") {
        ProblemWord::Metric
    } else {
        ProblemWord::Other
    }
}

/// What a token begins in a problem, behind an opening parenthesis.
pub fn problem_part_of(token: &Seen<'_>) -> ProblemWord
    ensures { result ≡ problem_part_of (seen token.now) }
{
    match token.kind {
        Kind::Keyword => problem_word(token.word),
        _ => ProblemWord::Other,
    }
}
