//! Reads an action, a process or an event.

ghost use Rattle.std.specs.Prelude.{◌≡◌, ◌<◌, length, OnOk, unwrap_or, []};
ghost use Rattle.plus_parser.specs.Phrases.Reading.{Gives};
ghost use Rattle.plus_parser.specs.Phrases.Grammar.{until_close};
ghost use Rattle.plus_tokens.specs.Seen.{seen};
ghost use Rattle.plus_parser.specs.ReadingDomain.{key_step, no_keys, or_all, or_nothing, schema_of};

use crate::forms::{conditions, effects};
use crate::keywords::{KeyWord, key_of};
use crate::parts::{Kept, Keys};
use crate::phrases::lists::variables;
use crate::phrases::reader::Reader;
use crate::phrases::spelled::spelled_of;
use crate::phrases::uses::around;
use crate::phrases::words::is_close;
use plus_tokens::Seen;
use plus_tree::{
    CondNode, CondTree, EffectNode, EffectTree, Members, NOWHERE, Schema, Span, TextFault,
};
use std::alloc::Global;

/// These members, or none.
pub fn or_none<T: Drop>(alloc: Global, found: Option<Members<T>>) -> Members<T>
    ensures { result ≡ unwrap_or found [] }
{
    match found {
        Some(found) => found,
        None => Members::new(alloc),
    }
}

// One more part of an action.
#[tactic(auto, unfolding(crate::specs::ReadingDomain::key_step))]
fn key(
    alloc: Global,
    reader: &mut Reader<'_>,
    room: u8,
    found: &mut Keys,
    token: &Seen<'_>,
) -> Result<(), TextFault>
    ensures gives { Gives (λ _. found.new) reader.new result
        (key_step room found.old (seen token.now) reader.old) }
    ensures shorter { OnOk result (length reader.new < length reader.old) }
{
    match key_of(token) {
        KeyWord::Parameters if found.parameters.is_none() => {
            let parameters = variables(alloc, reader, room)?;
            found.parameters = Some(parameters);
            Ok(())
        }
        KeyWord::Precondition if found.condition.is_none() => {
            let start = reader.open(room)?;
            let condition = conditions::inside(alloc, reader, room, start.span)?;
            found.condition = Some(Kept::new(alloc, condition)?);
            Ok(())
        }
        KeyWord::Effect if found.effect.is_none() => {
            let start = reader.open(room)?;
            let effect = effects::inside(alloc, reader, room, start.span)?;
            found.effect = Some(Kept::new(alloc, effect)?);
            Ok(())
        }
        _ => Err(TextFault::Form { span: token.span }),
    }
}

// The parts of an action up to its closing parenthesis, which are added to what was found.
fn keys_into(
    alloc: Global,
    reader: &mut Reader<'_>,
    room: u8,
    found: &mut Keys,
) -> Result<Span, TextFault>
    ensures gives { Gives (λ last. (found.new, last)) reader.new result
        (until_close (key_step room) room (length reader.old) found.old reader.old) }
    ensures shorter { OnOk result (length reader.new < length reader.old) }
{
    'found: loop {
        let token = reader.next(room)?;
        if is_close(token.kind) {
            return Ok(token.span);
        }
        key(alloc, reader, room, found, &token)?;
    }
}

// The parts of an action up to its closing parenthesis.
fn keys(alloc: Global, reader: &mut Reader<'_>, room: u8) -> Result<(Keys, Span), TextFault>
    ensures gives { Gives (λ x. x) reader.new result
        (until_close (key_step room) room (length reader.old) no_keys reader.old) }
    ensures shorter { OnOk result (length reader.new < length reader.old) }
{
    let mut found = Keys {
        parameters: None,
        condition: None,
        effect: None,
    };
    let last = keys_into(alloc, reader, room, &mut found)?;
    Ok((found, last))
}

fn or_all(alloc: Global, condition: Option<Kept<CondTree>>) -> CondTree
    ensures { result ≡ or_all condition }
{
    match condition {
        Some(condition) => condition.into_tree(),
        None => CondTree {
            node: CondNode::All(Vec::new(alloc)),
            span: NOWHERE,
        },
    }
}

fn or_nothing(alloc: Global, effect: Option<Kept<EffectTree>>) -> EffectTree
    ensures { result ≡ or_nothing effect }
{
    match effect {
        Some(effect) => effect.into_tree(),
        None => EffectTree {
            node: EffectNode::All(Vec::new(alloc)),
            span: NOWHERE,
        },
    }
}

/// An action, a process or an event, behind its keyword.
#[tactic(auto, unfolding(crate::specs::ReadingDomain::schema_of))]
pub fn schema(
    alloc: Global,
    reader: &mut Reader<'_>,
    room: u8,
    front: Span,
) -> Result<Schema, TextFault>
    ensures gives { Gives (λ s. s) reader.new result (schema_of room front reader.old) }
    ensures shorter { OnOk result (length reader.new < length reader.old) }
{
    let name = reader.name(room)?;
    let (keys, last) = keys(alloc, reader, room)?;
    Ok(Schema {
        name: spelled_of(alloc, &name)?,
        params: or_none(alloc, keys.parameters),
        condition: or_all(alloc, keys.condition),
        effect: or_nothing(alloc, keys.effect),
        span: around(front, last),
    })
}
