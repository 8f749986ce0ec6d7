//! Reads lists of names with their types.

ghost use Rattle.std.specs.Prelude.{◌≡◌, ◌&&◌, ◌==◌, ◌++◌, not, true, ◌<◌, ◌≤◌, map, length, OnOk, IfOk};
ghost use Rattle.plus_parser.specs.Phrases.Reading.{Gives};
ghost use Rattle.plus_parser.specs.Phrases.Words.{is_minus};
ghost use Rattle.plus_parser.specs.Phrases.Grammar.{no_names, of_type, spelled_of, typed_by, type_of_waiting, list_step, all_typed, list_of, variables_of, until_close};
ghost use Rattle.plus_parser.specs.Phrases.Listings.{listing};
ghost use Rattle.plus_tokens.specs.Seen.{seen};

use crate::phrases::reader::Reader;
use crate::phrases::spelled::{named_of, spelled_of};
use crate::phrases::words::{Allowed, is_allowed, is_close, is_minus};
use plus_tokens::{Kind, Seen};
use plus_tree::{Members, Span, Spelled, TextFault, TypedName};
use std::alloc::{AllocError, Global};
use std::mem;

/// What was read of a list: the names that have a type, and behind them those that still wait for
/// one.
#[derive(Drop)]
pub struct Listed {
    pub typed: Vec<TypedName>,
    pub waiting: Vec<Spelled>,
}

// The type of names whose type is not written.
const OBJECT: Seen<'static> = Seen {
    kind: Kind::Name,
    word: b"object",
    span: Span { start: 0, end: 0 },
};

// These names behind the others, with this type.
fn give(
    alloc: Global,
    typed: &mut Vec<TypedName>,
    names: Vec<Spelled>,
    kind: &Seen<'_>,
) -> Result<(), AllocError>
    ensures { OnOk result
        (typed.new.items ≡ typed.old.items ++ map (of_type (spelled_of (seen kind.now))) names.items) }
{
    'names: for name in names {
        let kind = spelled_of(alloc, kind)?;
        typed.push(TypedName { name, kind })?;
    }
    Ok(())
}

impl Listed {
    // Gives a type to the names that wait for one.
    fn give_waiting(&mut self, alloc: Global, kind: &Seen<'_>) -> Result<(), AllocError>
        ensures { OnOk result (listing self.new ≡ typed_by (spelled_of (seen kind.now)) (listing self.old)) }
    {
        let names = mem::replace(&mut self.waiting, Vec::new(alloc));
        give(alloc, &mut self.typed, names, kind)
    }

    /// All names. Those that still wait for a type are objects.
    pub fn all(self, alloc: Global) -> Result<Members<TypedName>, AllocError>
        ensures { IfOk result (λ xs. xs ≡ all_typed (listing self)) }
    {
        let Listed { mut typed, waiting } = self;
        give(alloc, &mut typed, waiting, &OBJECT)?;
        Ok(Members::from_vec(typed))
    }

    // Whether a token begins the type of the names before it.
    fn begins_type(&self, kind: Kind) -> bool
        ensures { result ≡ (is_minus kind && not (length (listing self.now).waiting == 0)) }
    {
        is_minus(kind) && !self.waiting.is_empty()
    }
}

// The type of those before it.
fn type_of_waiting(
    alloc: Global,
    reader: &mut Reader<'_>,
    room: u8,
    found: &mut Listed,
) -> Result<(), TextFault>
    ensures gives { Gives (λ _. listing found.new) reader.new result
        (type_of_waiting room (listing found.old) reader.old) }
    ensures no_longer { OnOk result (length reader.new ≤ length reader.old) }
{
    let kind = reader.name(room)?;
    found.give_waiting(alloc, &kind)?;
    Ok(())
}

// One more name, or the type of those before it.
#[tactic(auto, unfolding(crate::specs::Phrases::Grammar::list_step))]
fn member(
    alloc: Global,
    reader: &mut Reader<'_>,
    allowed: Allowed,
    room: u8,
    found: &mut Listed,
    token: &Seen<'_>,
) -> Result<(), TextFault>
    requires { 0 < length token.now.word.now }
    ensures gives { Gives (λ _. listing found.new) reader.new result
        (list_step allowed room (listing found.old) (seen token.now) reader.old) }
    ensures no_longer { OnOk result (length reader.new ≤ length reader.old) }
{
    if is_allowed(allowed, token.kind) {
        found.waiting.push(named_of(alloc, token)?)?;
        return Ok(());
    }
    if found.begins_type(token.kind) {
        return type_of_waiting(alloc, reader, room, found);
    }
    Err(TextFault::Form { span: token.span })
}

/// The names up to the closing parenthesis, as far as they have a type.
pub fn names(
    alloc: Global,
    reader: &mut Reader<'_>,
    allowed: Allowed,
    room: u8,
) -> Result<(Listed, Span), TextFault>
    ensures gives { Gives (λ x. (listing x.0, x.1)) reader.new result
        (until_close (list_step allowed room) room (length reader.old) no_names reader.old) }
    ensures shorter { OnOk result (length reader.new < length reader.old) }
{
    let mut found = Listed {
        typed: Vec::new(alloc),
        waiting: Vec::new(alloc),
    };
    'found: loop {
        let token = reader.next(room)?;
        if is_close(token.kind) {
            return Ok((found, token.span));
        }
        member(alloc, reader, allowed, room, &mut found, &token)?;
    }
}

/// A list of names with their types, up to the closing parenthesis.
#[tactic(auto, unfolding(crate::specs::Phrases::Grammar::list_of))]
pub fn list(
    alloc: Global,
    reader: &mut Reader<'_>,
    allowed: Allowed,
    room: u8,
) -> Result<(Members<TypedName>, Span), TextFault>
    ensures gives { Gives (λ x. x) reader.new result (list_of allowed room reader.old) }
    ensures shorter { OnOk result (length reader.new < length reader.old) }
{
    let (found, last) = names(alloc, reader, allowed, room)?;
    Ok((found.all(alloc)?, last))
}

/// Variables in parentheses, with their types.
#[tactic(auto, unfolding(crate::specs::Phrases::Grammar::variables_of))]
pub fn variables(
    alloc: Global,
    reader: &mut Reader<'_>,
    room: u8,
) -> Result<Members<TypedName>, TextFault>
    ensures gives { Gives (λ x. x) reader.new result (variables_of room reader.old) }
    ensures shorter { OnOk result (length reader.new < length reader.old) }
{
    reader.open(room)?;
    let (found, _) = list(alloc, reader, Allowed::Variables, room - 1)?;
    Ok(found)
}
