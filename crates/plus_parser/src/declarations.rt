//! Reads what is declared: requirements, types, predicates and functions.

ghost use Rattle.std.specs.Prelude.{◌≡◌, ◌&&◌, not, true, ◌<◌, ◌≤◌, [], filter, length, OnOk, IfOk, List, codes};
ghost use Rattle.std.specs.Str.{bytes_eq};
ghost use Rattle.plus_tokens.specs.Items.{Item};
ghost use Rattle.plus_parser.specs.Phrases.Reading.{Gives, is_open};
ghost use Rattle.plus_parser.specs.Phrases.Words.{is_minus};
ghost use Rattle.plus_parser.specs.Phrases.Grammar.{until_close, form_step};
ghost use Rattle.plus_parser.specs.Phrases.Listings.{listing};
ghost use Rattle.plus_tokens.specs.Seen.{seen};
ghost use Rattle.plus_parser.specs.ReadingDomain.{requirement_step, is_own_type, types_of, predicate_at, no_functions, number_type, function_step};

use crate::parts::Functions;
use crate::phrases::lists::{Listed, list};
use crate::phrases::reader::Reader;
use crate::phrases::spelled::{bare_of, spelled_of};
use crate::phrases::uses::around;
use crate::phrases::words::{Allowed, is_close, is_minus, is_open};
use plus_tokens::{Kind, Seen};
use plus_tree::{Head, Members, Span, Spelled, TextFault, TypedName};
use std::alloc::{AllocError, Global};

// One more requirement.
#[tactic(auto, unfolding(crate::specs::ReadingDomain::requirement_step))]
fn requirement(
    alloc: Global,
    found: &mut Members<Spelled>,
    token: &Seen<'_>,
) -> Result<(), TextFault>
    requires { 0 < length token.now.word.now }
    ensures gives { (rest : List Item) → Gives (λ _. found.new) rest result
        (requirement_step found.old (seen token.now) rest) }
{
    match token.kind {
        Kind::Keyword => {
            found.push(bare_of(alloc, token)?)?;
            Ok(())
        }
        _ => Err(TextFault::Form { span: token.span }),
    }
}

/// The keywords up to the closing parenthesis.
pub fn requirements(
    alloc: Global,
    reader: &mut Reader<'_>,
    room: u8,
) -> Result<(Members<Spelled>, Span), TextFault>
    ensures gives { Gives (λ x. x) reader.new result
        (until_close requirement_step room (length reader.old) [] reader.old) }
    ensures shorter { OnOk result (length reader.new < length reader.old) }
{
    let mut found = Members::new(alloc);
    'found: loop {
        let token = reader.next(room)?;
        if is_close(token.kind) {
            return Ok((found, token.span));
        }
        requirement(alloc, &mut found, &token)?;
    }
}

// Whether a type is any but `object`.
fn is_own_type(name: &Spelled) -> bool
    ensures { result ≡ is_own_type name.now }
{
    name.name.bytes() != b"object".as_slice()
}

/// The types of a list. `object` without a type above it is none of them.
pub fn types_of(alloc: Global, found: Listed) -> Result<Members<TypedName>, AllocError>
    ensures { IfOk result (λ xs. xs ≡ types_of (listing found)) }
{
    let Listed { typed, waiting } = found;
    let waiting = own_types(alloc, waiting)?;
    Listed { typed, waiting }.all(alloc)
}

// These types without `object`.
fn own_types(alloc: Global, names: Vec<Spelled>) -> Result<Vec<Spelled>, AllocError>
    ensures { IfOk result (λ own. own.items ≡ filter is_own_type names.items) }
{
    names.into_iter().filter(is_own_type).collect(alloc)
}

// The predicate whose opening parenthesis took one of so many places.
#[tactic(auto, unfolding(crate::specs::ReadingDomain::predicate_at))]
fn predicate(
    alloc: Global,
    reader: &mut Reader<'_>,
    room: u8,
    front: Span,
) -> Result<Head, TextFault>
    requires { 0 < room }
    ensures gives { Gives (λ h. h) reader.new result (predicate_at room front reader.old) }
    ensures shorter { OnOk result (length reader.new < length reader.old) }
{
    let head = reader.plain(room - 1)?;
    let (params, last) = list(alloc, reader, Allowed::Variables, room - 1)?;
    Ok(Head {
        name: spelled_of(alloc, &head)?,
        params,
        span: around(front, last),
    })
}

// One more predicate, which begins with a token.
#[tactic(auto, unfolding(crate::specs::Phrases::Grammar::form_step))]
fn next_predicate(
    alloc: Global,
    reader: &mut Reader<'_>,
    room: u8,
    found: &mut Members<Head>,
    token: &Seen<'_>,
) -> Result<(), TextFault>
    requires { is_open token.now.kind ≡ true → 0 < room }
    ensures gives { Gives (λ _. found.new) reader.new result
        (form_step (predicate_at room) found.old (seen token.now) reader.old) }
    ensures shorter { OnOk result (length reader.new < length reader.old) }
{
    if !is_open(token.kind) {
        return Err(TextFault::Form { span: token.span });
    }
    let one = predicate(alloc, reader, room, token.span)?;
    found.push(one)?;
    Ok(())
}

/// The predicates up to the closing parenthesis.
pub fn predicates(
    alloc: Global,
    reader: &mut Reader<'_>,
    room: u8,
) -> Result<(Members<Head>, Span), TextFault>
    ensures gives { Gives (λ x. x) reader.new result
        (until_close (form_step (predicate_at room)) room (length reader.old) [] reader.old) }
    ensures shorter { OnOk result (length reader.new < length reader.old) }
{
    let mut found = Members::new(alloc);
    'found: loop {
        let token = reader.next(room)?;
        if is_close(token.kind) {
            return Ok((found, token.span));
        }
        next_predicate(alloc, reader, room, &mut found, &token)?;
    }
}

// The type `number` of the functions before it.
fn number_type(reader: &mut Reader<'_>, room: u8, found: &mut Functions) -> Result<(), TextFault>
    ensures gives { Gives (λ _. found.new) reader.new result
        (number_type room found.old reader.old) }
    ensures shorter { OnOk result (length reader.new < length reader.old) }
{
    reader.word(b"number", room)?;
    found.untyped = false;
    Ok(())
}

// Whether a token begins the type of the functions before it.
fn begins_type(found: &Functions, kind: Kind) -> bool
    ensures { result ≡ (is_minus kind && found.now.untyped) }
{
    is_minus(kind) && found.untyped
}

// One more function, or the type of those before it.
#[tactic(auto, unfolding(crate::specs::ReadingDomain::function_step))]
fn function(
    alloc: Global,
    reader: &mut Reader<'_>,
    room: u8,
    found: &mut Functions,
    token: &Seen<'_>,
) -> Result<(), TextFault>
    requires { is_open token.now.kind ≡ true → 0 < room }
    ensures gives { Gives (λ _. found.new) reader.new result
        (function_step room found.old (seen token.now) reader.old) }
    ensures shorter { OnOk result (length reader.new < length reader.old) }
{
    if is_open(token.kind) {
        let head = predicate(alloc, reader, room, token.span)?;
        found.heads.push(head)?;
        found.untyped = true;
        return Ok(());
    }
    if begins_type(found, token.kind) {
        return number_type(reader, room, found);
    }
    Err(TextFault::Form { span: token.span })
}

/// The functions up to the closing parenthesis.
pub fn functions(
    alloc: Global,
    reader: &mut Reader<'_>,
    room: u8,
) -> Result<(Functions, Span), TextFault>
    ensures gives { Gives (λ x. x) reader.new result
        (until_close (function_step room) room (length reader.old) no_functions reader.old) }
    ensures shorter { OnOk result (length reader.new < length reader.old) }
{
    let mut found = Functions {
        heads: Members::new(alloc),
        untyped: false,
    };
    'found: loop {
        let token = reader.next(room)?;
        if is_close(token.kind) {
            return Ok((found, token.span));
        }
        function(alloc, reader, room, &mut found, &token)?;
    }
}
