//! Reads a domain.

ghost use Rattle.std.specs.Prelude.{◌≡◌, true, ◌<◌, ◌≤◌, ◌-◌, ◌+◌, [], length, OnOk, Ok, MatchResult, codes};
ghost use Rattle.plus_tokens.specs.Lowered.{lowered};
ghost use Rattle.plus_parser.specs.Phrases.Reading.{Gives, Fails, is_open};
ghost use Rattle.plus_parser.specs.Phrases.Grammar.{around, until_close, spelled_of};
ghost use Rattle.plus_tokens.specs.Seen.{seen};
ghost use Rattle.plus_parser.specs.ReadingDomain.{section_step, schema_part_with, declared_part_with, domain_part, never_full, domain_step, no_parts, front_of, end_of, domain_of, domain_in};

use crate::declarations::{functions, predicates, requirements, types_of};
use crate::keywords::{DomainWord, domain_part_of};
use crate::parts::DomainParts;
use crate::phrases::lists::{list, names};
use crate::phrases::reader::Reader;
use crate::phrases::spelled::spelled_of;
use crate::phrases::uses::around;
use crate::phrases::words::{Allowed, is_close, is_open};
use crate::schemas::{or_none, schema};
use plus_tokens::Seen;
use plus_tree::{Domain, Members, Span, Spelled, TextFault};
use std::alloc::Global;

// An action, a process or an event.
fn schema_part(
    alloc: Global,
    reader: &mut Reader<'_>,
    room: u8,
    found: &mut DomainParts,
    front: Span,
    keyword: &Seen<'_>,
    word: DomainWord,
) -> Result<(), TextFault>
    ensures gives { Gives (λ _. found.new) reader.new result
        (schema_part_with word room found.old front (seen keyword.now) reader.old) }
    ensures shorter { OnOk result (length reader.new < length reader.old) }
{
    match word {
        DomainWord::Action => {
            let action = schema(alloc, reader, room, front)?;
            found.actions.push(action)?;
            Ok(())
        }
        DomainWord::Process => {
            let process = schema(alloc, reader, room, front)?;
            found.processes.push(process)?;
            Ok(())
        }
        DomainWord::Event => {
            let event = schema(alloc, reader, room, front)?;
            found.events.push(event)?;
            Ok(())
        }
        _ => Err(TextFault::Form { span: keyword.span }),
    }
}

// The predicates or the functions, or another section.
fn declared_part(
    alloc: Global,
    reader: &mut Reader<'_>,
    room: u8,
    found: &mut DomainParts,
    front: Span,
    keyword: &Seen<'_>,
    word: DomainWord,
) -> Result<(), TextFault>
    ensures gives { Gives (λ _. found.new) reader.new result
        (declared_part_with word room found.old front (seen keyword.now) reader.old) }
    ensures shorter { OnOk result (length reader.new < length reader.old) }
{
    match word {
        DomainWord::Predicates if found.predicates.is_none() => {
            let (members, _) = predicates(alloc, reader, room)?;
            found.predicates = Some(members);
            Ok(())
        }
        DomainWord::Functions if found.functions.is_none() => {
            let (read, _) = functions(alloc, reader, room)?;
            found.functions = Some(read.heads);
            Ok(())
        }
        _ => schema_part(alloc, reader, room, found, front, keyword, word),
    }
}

// The section behind its keyword.
#[tactic(auto, unfolding(crate::specs::ReadingDomain::domain_part))]
fn part(
    alloc: Global,
    reader: &mut Reader<'_>,
    room: u8,
    found: &mut DomainParts,
    front: Span,
    keyword: &Seen<'_>,
) -> Result<(), TextFault>
    ensures gives { Gives (λ _. found.new) reader.new result
        (domain_part room found.old front (seen keyword.now) reader.old) }
    ensures shorter { OnOk result (length reader.new < length reader.old) }
{
    match domain_part_of(keyword) {
        DomainWord::Requirements if found.requirements.is_none() => {
            let (members, _) = requirements(alloc, reader, room)?;
            found.requirements = Some(members);
            Ok(())
        }
        DomainWord::Types if found.types.is_none() => {
            let (listed, _) = names(alloc, reader, Allowed::Names, room)?;
            found.types = Some(types_of(alloc, listed)?);
            Ok(())
        }
        DomainWord::Constants if found.constants.is_none() => {
            let (members, _) = list(alloc, reader, Allowed::Names, room)?;
            found.constants = Some(members);
            Ok(())
        }
        word => declared_part(alloc, reader, room, found, front, keyword, word),
    }
}

// The section that begins with a token.
#[tactic(auto, unfolding(crate::specs::ReadingDomain::section_step))]
fn section(
    alloc: Global,
    reader: &mut Reader<'_>,
    room: u8,
    found: &mut DomainParts,
    token: &Seen<'_>,
) -> Result<(), TextFault>
    requires { is_open token.now.kind ≡ true → 0 < room }
    ensures gives { Gives (λ _. found.new) reader.new result
        (domain_step room found.old (seen token.now) reader.old) }
    ensures shorter { OnOk result (length reader.new < length reader.old) }
{
    if !is_open(token.kind) {
        return Err(TextFault::Form { span: token.span });
    }
    let keyword = reader.next(room - 1)?;
    part(alloc, reader, room - 1, found, token.span, &keyword)
}

// The sections of a domain, up to its closing parenthesis.
fn sections(
    alloc: Global,
    reader: &mut Reader<'_>,
    room: u8,
) -> Result<(DomainParts, Span), TextFault>
    ensures gives { Gives (λ x. x) reader.new result
        (until_close (domain_step room) room (length reader.old) no_parts reader.old) }
    ensures shorter { OnOk result (length reader.new < length reader.old) }
{
    let mut found = DomainParts {
        requirements: None,
        types: None,
        constants: None,
        predicates: None,
        functions: None,
        actions: Members::new(alloc),
        processes: Members::new(alloc),
        events: Members::new(alloc),
    };
    'found: loop {
        let token = reader.next(room)?;
        if is_close(token.kind) {
            return Ok((found, token.span));
        }
        section(alloc, reader, room, &mut found, &token)?;
    }
}

/// The front of a domain or a problem, as `(define (domain NAME)`: its name, and where its first
/// parenthesis stands.
#[tactic(auto, unfolding(crate::specs::ReadingDomain::front_of))]
pub fn front(
    alloc: Global,
    reader: &mut Reader<'_>,
    word: &[u8],
) -> Result<(Spelled, Span), TextFault>
    requires { lowered word.now ≡ word.now }
    ensures gives { Gives (λ x. x) reader.new result (front_of word.now 62 reader.old) }
{
    let start = reader.open(64)?;
    reader.word(b"define", 63)?;
    reader.open(63)?;
    reader.word(word, 62)?;
    let name = reader.name(62)?;
    reader.close(62)?;
    Ok((spelled_of(alloc, &name)?, start.span))
}

/// Nothing is left.
#[tactic(auto, unfolding(crate::specs::ReadingDomain::end_of))]
pub fn end(reader: &mut Reader<'_>) -> Result<(), TextFault>
    ensures gives { MatchResult result
        (λ _. end_of reader.old ≡ Ok []) (λ e. Fails e (end_of reader.old)) }
    ensures rest { OnOk result (reader.new ≡ []) }
{
    match reader.next(1) {
        Ok(token) => Err(TextFault::Form { span: token.span }),
        Err(TextFault::Unclosed) => Ok(()),
        Err(fault) => Err(fault),
    }
}

/// The domain that a reader gives.
#[tactic(auto, unfolding(crate::specs::ReadingDomain::domain_in))]
pub fn domain(alloc: Global, reader: &mut Reader<'_>) -> Result<Domain, TextFault>
    ensures gives { MatchResult result
        (λ d. domain_of 64 reader.old ≡ Ok d) (λ e. Fails e (domain_of 64 reader.old)) }
    ensures rest { OnOk result (reader.new ≡ []) }
{
    let (name, start) = front(alloc, reader, b"domain")?;
    let (parts, last) = sections(alloc, reader, 63)?;
    end(reader)?;
    Ok(Domain {
        name,
        requirements: or_none(alloc, parts.requirements),
        types: or_none(alloc, parts.types),
        constants: or_none(alloc, parts.constants),
        predicates: or_none(alloc, parts.predicates),
        functions: or_none(alloc, parts.functions),
        actions: parts.actions,
        processes: parts.processes,
        events: parts.events,
        span: around(start, last),
    })
}
