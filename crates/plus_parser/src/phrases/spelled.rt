//! The name, the object or the variable that a token spells.

ghost use Rattle.std.specs.Prelude.{◌≡◌, ◌<◌, length, IfOk};
ghost use Rattle.plus_parser.specs.Phrases.Grammar.{spelled_of, bare_of, named_of, term_of};
ghost use Rattle.plus_tokens.specs.Seen.{seen};

use crate::phrases::words::is_variable;
use plus_tokens::Seen;
use plus_tree::{Name, Spelled, Term};
use std::alloc::{AllocError, Global};

/// The name that the token spells, and its place.
pub fn spelled_of(alloc: Global, token: &Seen<'_>) -> Result<Spelled, AllocError>
    ensures { IfOk result (λ s. s ≡ spelled_of (seen token.now)) }
{
    Ok(Spelled {
        name: Name::of_word(alloc, token.word)?,
        span: token.span,
    })
}

/// The same without the first byte, a question mark or a colon.
pub fn bare_of(alloc: Global, token: &Seen<'_>) -> Result<Spelled, AllocError>
    requires { 0 < length token.now.word.now }
    ensures { IfOk result (λ s. s ≡ bare_of (seen token.now)) }
{
    Ok(Spelled {
        name: Name::of_word(alloc, &token.word[1..])?,
        span: token.span,
    })
}

/// The name of the object or the variable that the token spells.
pub fn named_of(alloc: Global, token: &Seen<'_>) -> Result<Spelled, AllocError>
    requires { 0 < length token.now.word.now }
    ensures { IfOk result (λ s. s ≡ named_of (seen token.now)) }
{
    if is_variable(token.kind) {
        bare_of(alloc, token)
    } else {
        spelled_of(alloc, token)
    }
}

/// The object or the variable that the token spells.
pub fn term_of(alloc: Global, token: &Seen<'_>) -> Result<Term, AllocError>
    requires { 0 < length token.now.word.now }
    ensures { IfOk result (λ t. t ≡ term_of (seen token.now)) }
{
    if is_variable(token.kind) {
        Ok(Term::Variable(bare_of(alloc, token)?))
    } else {
        Ok(Term::Object(spelled_of(alloc, token)?))
    }
}
