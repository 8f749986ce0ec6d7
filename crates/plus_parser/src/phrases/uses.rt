//! Reads the arguments of a predicate or a function that is used, and the whole use.

ghost use Rattle.std.specs.Prelude.{◌≡◌, ◌<◌, true, List, [], length, OnOk};
ghost use Rattle.plus_tree.specs.declared.terms.Term.{Term as TermTree};
ghost use Rattle.plus_tokens.specs.Items.{Item};
ghost use Rattle.plus_parser.specs.Phrases.Reading.{Gives};
ghost use Rattle.plus_parser.specs.Phrases.Grammar.{around, argument_step, until_close, use_end, use_form};
ghost use Rattle.plus_tokens.specs.Seen.{seen};

use crate::phrases::reader::Reader;
use crate::phrases::spelled::{spelled_of, term_of};
use crate::phrases::words::{Allowed, is_allowed, is_close};
use plus_tokens::Seen;
use plus_tree::{Args, Span, TextFault, Use};
use std::alloc::Global;

/// From an opening parenthesis to the end of a closing one.
pub fn around(first: Span, last: Span) -> Span
    ensures { result ≡ around first last }
{
    Span {
        start: first.start,
        end: last.end,
    }
}

// One more argument.
#[tactic(auto, unfolding(crate::specs::Phrases::Grammar::argument_step))]
fn argument(
    alloc: Global,
    allowed: Allowed,
    found: &mut Args,
    token: &Seen<'_>,
) -> Result<(), TextFault>
    requires { 0 < length token.now.word.now }
    ensures gives { (rest : List Item) → Gives (λ _. found.new) rest result
        (argument_step allowed found.old (seen token.now) rest) }
{
    if is_allowed(allowed, token.kind) {
        found.push(term_of(alloc, token)?)?;
        return Ok(());
    }
    Err(TextFault::Form { span: token.span })
}

// The arguments up to the closing parenthesis.
fn arguments(
    alloc: Global,
    reader: &mut Reader<'_>,
    allowed: Allowed,
    room: u8,
) -> Result<(Args, Span), TextFault>
    ensures gives { Gives (λ x. x) reader.new result
        (until_close (argument_step allowed) room (length reader.old) [] reader.old) }
    ensures shorter { OnOk result (length reader.new < length reader.old) }
{
    let mut found = Args::new(alloc);
    'found: loop {
        let token = reader.next(room)?;
        if is_close(token.kind) {
            return Ok((found, token.span));
        }
        argument(alloc, allowed, &mut found, &token)?;
    }
}

/// A predicate or a function that is used, behind its name.
#[tactic(auto, unfolding(crate::specs::Phrases::Grammar::use_end))]
pub fn use_end(
    alloc: Global,
    reader: &mut Reader<'_>,
    allowed: Allowed,
    room: u8,
    front: Span,
    head: &Seen<'_>,
) -> Result<Use, TextFault>
    ensures gives { Gives (λ u. u) reader.new result
        (use_end allowed room front (seen head.now) reader.old) }
    ensures shorter { OnOk result (length reader.new < length reader.old) }
{
    let (args, last) = arguments(alloc, reader, allowed, room)?;
    Ok(Use {
        head: spelled_of(alloc, head)?,
        args,
        span: around(front, last),
    })
}

/// A predicate or a function that is used, with its parentheses.
#[tactic(auto, unfolding(crate::specs::Phrases::Grammar::use_form))]
pub fn use_form(
    alloc: Global,
    reader: &mut Reader<'_>,
    allowed: Allowed,
    room: u8,
) -> Result<Use, TextFault>
    ensures gives { Gives (λ u. u) reader.new result (use_form allowed room reader.old) }
    ensures shorter { OnOk result (length reader.new < length reader.old) }
{
    let start = reader.open(room)?;
    let head = reader.plain(room - 1)?;
    use_end(alloc, reader, allowed, room - 1, start.span, &head)
}
