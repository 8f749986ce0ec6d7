//! Reads an effect.

ghost use Rattle.std.specs.Prelude.{◌≡◌, true, ◌<◌, ◌≤◌, [], length, OnOk};
ghost use Rattle.plus_parser.specs.Phrases.Reading.{Gives, is_open};
ghost use Rattle.plus_parser.specs.Phrases.Grammar.{around, until_close, form_step, variables_of};
ghost use Rattle.plus_tokens.specs.Seen.{seen};
ghost use Rattle.plus_parser.specs.Forms.ReadingForms.{both_of, form_next, cond_at, simple_at, effect_at, effect_body};

use crate::forms::{conditions, leaves};
use crate::phrases::lists::variables;
use crate::phrases::reader::Reader;
use crate::phrases::uses::around;
use crate::phrases::words::{HeadWord, head_of, is_close, is_open};
use plus_tokens::Seen;
use plus_tree::{CondTree, EffectNode, EffectTree, Leaf, Members, Span, TextFault, TypedName};
use std::alloc::Global;

// The room that a list of effects begins with: most have two members.
const FEW: usize = 2;

// The effect behind an opening parenthesis, where room is left for so many more.
#[cycle(effect)]
#[tactic(auto, unfolding(crate::specs::Forms::ReadingForms::effect_body))]
fn effect(
    alloc: Global,
    reader: &mut Reader<'_>,
    room: u8,
    front: Span,
) -> Result<EffectTree, TextFault>
    ensures gives { Gives (λ e. e) reader.new result
        (effect_body room (effect_at room) front reader.old) }
    ensures shorter { OnOk result (length reader.new < length reader.old) }
{
    let token = reader.next(room)?;
    match head_of(&token) {
        HeadWord::Nothing => Ok(EffectTree {
            node: EffectNode::All(Vec::new(alloc)),
            span: around(front, token.span),
        }),
        HeadWord::And => {
            let (members, last) = effects(alloc, reader, room)?;
            Ok(EffectTree {
                node: EffectNode::All(members),
                span: around(front, last),
            })
        }
        HeadWord::ForAll => {
            let ((variables, body), last) = bound(alloc, reader, room)?;
            Ok(EffectTree {
                node: EffectNode::ForAll(variables, body),
                span: around(front, last),
            })
        }
        HeadWord::When => {
            let ((condition, writes), last) = guarded(alloc, reader, room)?;
            Ok(EffectTree {
                node: EffectNode::When(Box::new(alloc, condition)?, writes),
                span: around(front, last),
            })
        }
        _ => {
            let leaf = leaves::behind(alloc, reader, room, front, &token)?;
            let span = leaf.span;
            Ok(EffectTree {
                node: EffectNode::Leaf(Box::new(alloc, leaf)?),
                span,
            })
        }
    }
}

// A condition, what is done where it holds, and the closing parenthesis.
#[tactic(auto, unfolding(crate::specs::Forms::ReadingForms::both_of))]
fn guarded(
    alloc: Global,
    reader: &mut Reader<'_>,
    room: u8,
) -> Result<((CondTree, Members<Leaf>), Span), TextFault>
    ensures gives { Gives (λ x. x) reader.new result
        (both_of room (form_next room (cond_at room)) (form_next room (simple_at room)) reader.old) }
    ensures shorter { OnOk result (length reader.new < length reader.old) }
{
    let condition = conditions::next(alloc, reader, room)?;
    let writes = leaves::next_simple(alloc, reader, room)?;
    let last = reader.close(room)?;
    Ok(((condition, writes), last.span))
}

// The effect that comes next.
#[cycle(effect)]
#[tactic(auto, unfolding(crate::specs::Forms::ReadingForms::form_next))]
fn next(alloc: Global, reader: &mut Reader<'_>, room: u8) -> Result<EffectTree, TextFault>
    ensures gives { Gives (λ e. e) reader.new result (form_next room (effect_at room) reader.old) }
    ensures shorter { OnOk result (length reader.new < length reader.old) }
{
    let start = reader.open(room)?;
    inside(alloc, reader, room, start.span)
}

// The effect that comes next, in a box.
#[cycle(effect)]
fn boxed(alloc: Global, reader: &mut Reader<'_>, room: u8) -> Result<Box<EffectTree>, TextFault>
    ensures gives { Gives (λ e. e.value) reader.new result
        (form_next room (effect_at room) reader.old) }
    ensures shorter { OnOk result (length reader.new < length reader.old) }
{
    let found = next(alloc, reader, room)?;
    Ok(Box::new(alloc, found)?)
}

// Variables, an effect for them and the closing parenthesis.
#[cycle(effect)]
#[tactic(auto, unfolding(crate::specs::Forms::ReadingForms::both_of))]
fn bound(
    alloc: Global,
    reader: &mut Reader<'_>,
    room: u8,
) -> Result<((Members<TypedName>, Box<EffectTree>), Span), TextFault>
    ensures gives { Gives (λ x. ((x.0.0, x.0.1.value), x.1)) reader.new result
        (both_of room (variables_of room) (form_next room (effect_at room)) reader.old) }
    ensures shorter { OnOk result (length reader.new < length reader.old) }
{
    let found = variables(alloc, reader, room)?;
    let body = boxed(alloc, reader, room)?;
    let last = reader.close(room)?;
    Ok(((found, body), last.span))
}

// One more effect, which begins with a token.
#[cycle(effect)]
#[tactic(auto, unfolding(crate::specs::Phrases::Grammar::form_step))]
fn member(
    alloc: Global,
    reader: &mut Reader<'_>,
    room: u8,
    found: &mut Vec<EffectTree>,
    token: &Seen<'_>,
) -> Result<(), TextFault>
    requires { is_open token.now.kind ≡ true → 0 < room }
    ensures gives { Gives (λ _. found.new.items) reader.new result
        (form_step (effect_at room) found.old.items (seen token.now) reader.old) }
    ensures shorter { OnOk result (length reader.new < length reader.old) }
{
    if !is_open(token.kind) {
        return Err(TextFault::Form { span: token.span });
    }
    let one = inside(alloc, reader, room, token.span)?;
    found.push(one)?;
    Ok(())
}

// The effects up to the closing parenthesis, and where it stands.
#[cycle(effect)]
fn effects(
    alloc: Global,
    reader: &mut Reader<'_>,
    room: u8,
) -> Result<(Vec<EffectTree>, Span), TextFault>
    ensures gives { Gives (λ x. (x.0.items, x.1)) reader.new result
        (until_close (form_step (effect_at room)) room (length reader.old) [] reader.old) }
    ensures shorter { OnOk result (length reader.new < length reader.old) }
{
    let mut found = Vec::with_capacity(alloc, FEW)?;
    'found: loop {
        let token = reader.next(room)?;
        if is_close(token.kind) {
            return Ok((found, token.span));
        }
        member(alloc, reader, room, &mut found, &token)?;
    }
}

/// The effect whose opening parenthesis took one of so many places.
#[cycle(effect)]
pub fn inside(
    alloc: Global,
    reader: &mut Reader<'_>,
    room: u8,
    front: Span,
) -> Result<EffectTree, TextFault>
    requires { 0 < room }
    ensures gives { Gives (λ e. e) reader.new result (effect_at room front reader.old) }
    ensures shorter { OnOk result (length reader.new < length reader.old) }
{
    effect(alloc, reader, room - 1, front)
}
