//! Reads a line from its tokens.

ghost use Rattle.std.specs.Prelude.{◌≡◌, false, ◌≤◌, ◌^◌, MatchResult};
ghost use Rattle.plus_plan.specs.Reading.{Gives, Fails};
ghost use Rattle.plus_plan.specs.Grammar.{around, colon_of, divisor_of, quotient_of, time_of, time_rest};
ghost use Rattle.plus_tokens.specs.Ahead.{is_colon};
ghost use Rattle.plus_tokens.specs.Coming.{comes};
ghost use Rattle.plus_plan.specs.Grammar.{args_of, call_of, name_of};
ghost use Rattle.plus_plan.specs.Grammar.{brackets_of, close_square_of, duration_of, end_of, number_of};
ghost use Rattle.plus_plan.specs.Grammar.{act_of, entry_of, last_of, step_of, timed_line, untimed_line};
ghost use Rattle.plus_tokens.specs.Seen.{seen};

use crate::forms::{Line, Time};
use crate::reader::{Reader, Refusal};
use plus_tokens::{Kind, Numeral, Op, Seen};
use plus_tree::{Call, Name, NameArgs, Span};
use std::alloc::Global;

fn around(front: Span, back: Span) -> Span
    ensures { result ≡ around front back }
{
    Span {
        start: front.start,
        end: back.end,
    }
}

// The colon behind a time.
fn colon(reader: &mut Reader<'_>) -> Result<(), Refusal>
    ensures gives { Gives (λ _. tt) reader.new result (colon_of reader.old) }
{
    if reader.colon() {
        return Ok(());
    }
    Err(reader.refusal())
}

// A number by which a time is divided: whole, without a sign, and not 0.
#[tactic(auto, unfolding(crate::specs::Grammar::divisor_of))]
fn divisor(reader: &mut Reader<'_>) -> Result<(u128, Span), Refusal>
    ensures gives { Gives (λ x. x) reader.new result (divisor_of reader.old) }
{
    let token = reader.next()?;
    match token.numeral() {
        Some(n) if !n.negative && n.places == 0 && n.digits > 0 => Ok((n.digits, token.span)),
        _ => Err(Refusal::At(token.span)),
    }
}

// The rest of a time behind its `/`, and its colon.
#[inline(always)]
#[tactic(auto, unfolding(crate::specs::Grammar::quotient_of))]
fn quotient(reader: &mut Reader<'_>, top: u128, front: Span) -> Result<Time, Refusal>
    ensures gives { Gives (λ x. x) reader.new result (quotient_of top front reader.old) }
{
    let (bottom, back) = divisor(reader)?;
    colon(reader)?;
    Ok(Time {
        top,
        bottom,
        span: around(front, back),
    })
}

fn power_of_ten(places: u8) -> u128
    requires { places ≤ 9 }
    ensures { result ≡ 10 ^ places }
{
    10u128.pow(u32::from(places))
}

// A time and its colon, of which this is the first token.
#[tactic(auto, unfolding(crate::specs::Grammar::time_of))]
fn time(reader: &mut Reader<'_>, first: &Seen<'_>) -> Result<Time, Refusal>
    ensures gives { Gives (λ x. x) reader.new result (time_of (seen first.now) reader.old) }
{
    let Some(
        Numeral {
            negative: false,
            digits,
            places,
        },
    ) = first.numeral()
    else {
        return Err(Refusal::At(first.span));
    };
    if reader.colon() {
        return Ok(Time {
            top: digits,
            bottom: power_of_ten(places),
            span: first.span,
        });
    }
    divided(reader, digits, places, first.span)
}

// The rest of a time whose first number has no colon behind it.
fn divided(reader: &mut Reader<'_>, top: u128, places: u8, front: Span) -> Result<Time, Refusal>
    requires { comes is_colon reader.old ≡ false }
    ensures gives { Gives (λ x. x) reader.new result (time_rest top places front reader.old) }
{
    let token = reader.next()?;
    match token.kind {
        Kind::Op(Op::Divide) if places == 0 => Ok(quotient(reader, top, front)?),
        _ => Err(Refusal::At(token.span)),
    }
}

#[inline(always)]
fn name(alloc: Global, reader: &mut Reader<'_>) -> Result<Name, Refusal>
    ensures gives { Gives (λ x. x) reader.new result (name_of reader.old) }
{
    if let Some(word) = reader.name() {
        return Ok(Name::of_word(alloc, word)?);
    }
    Err(reader.refusal())
}

// Names up to the closing parenthesis.
#[inline(always)]
fn args(alloc: Global, reader: &mut Reader<'_>) -> Result<NameArgs, Refusal>
    ensures gives { Gives (λ x. x) reader.new result (args_of reader.old) }
{
    let mut args = NameArgs::new(alloc);
    'names: loop {
        if let Some(word) = reader.name() {
            args.push(Name::of_word(alloc, word)?)?;
        } else if reader.close() {
            return Ok(args);
        } else {
            return Err(reader.refusal());
        }
    }
}

// A call behind its opening parenthesis.
#[inline(always)]
#[tactic(auto, unfolding(crate::specs::Grammar::call_of))]
fn call(alloc: Global, reader: &mut Reader<'_>) -> Result<Call, Refusal>
    ensures gives { Gives (λ x. x) reader.new result (call_of reader.old) }
{
    let name = name(alloc, reader)?;
    let args = args(alloc, reader)?;
    Ok(Call { name, args })
}

// Nothing is left.
#[inline(always)]
fn end(reader: &mut Reader<'_>) -> Result<(), Refusal>
    ensures gives { Gives (λ _. tt) reader.new result (end_of reader.old) }
{
    if reader.is_done() {
        return Ok(());
    }
    Err(reader.refusal())
}

#[tactic(auto, unfolding(crate::specs::Grammar::number_of))]
fn number(reader: &mut Reader<'_>) -> Result<(), Refusal>
    ensures gives { Gives (λ _. tt) reader.new result (number_of reader.old) }
{
    let token = reader.next()?;
    match token.kind {
        Kind::Number => Ok(()),
        _ => Err(Refusal::At(token.span)),
    }
}

#[tactic(auto, unfolding(crate::specs::Grammar::close_square_of))]
fn close_square(reader: &mut Reader<'_>) -> Result<(), Refusal>
    ensures gives { Gives (λ _. tt) reader.new result (close_square_of reader.old) }
{
    let token = reader.next()?;
    match token.kind {
        Kind::CloseSquare => Ok(()),
        _ => Err(Refusal::At(token.span)),
    }
}

// A Number in square brackets, and then nothing.
fn brackets(reader: &mut Reader<'_>) -> Result<(), Refusal>
    ensures gives { Gives (λ _. tt) reader.new result (brackets_of reader.old) }
{
    let token = reader.next()?;
    match token.kind {
        Kind::OpenSquare => {
            number(reader)?;
            close_square(reader)?;
            Ok(end(reader)?)
        }
        _ => Err(Refusal::At(token.span)),
    }
}

// A Number in square brackets, or none, and then nothing.
fn duration(reader: &mut Reader<'_>) -> Result<(), Refusal>
    ensures gives { Gives (λ _. tt) reader.new result (duration_of reader.old) }
{
    if reader.is_done() {
        return Ok(());
    }
    brackets(reader)
}

// An action behind its time and its opening parenthesis.
fn act(
    alloc: Global,
    reader: &mut Reader<'_>,
    line: u32,
    time: Time,
    into: &mut Line,
) -> Result<(), Refusal>
    ensures gives { MatchResult result
        (λ _. act_of line time reader.old ≡ Ok into.new) (λ e. Fails e (act_of line time reader.old)) }
{
    let call = call(alloc, reader)?;
    *into = Line::Act { line, time, call };
    duration(reader)
}

// The end of the plan behind its time.
fn last(reader: &mut Reader<'_>, line: u32, time: Time, into: &mut Line) -> Result<(), Refusal>
    ensures gives { MatchResult result
        (λ _. last_of line time reader.old ≡ Ok into.new) (λ e. Fails e (last_of line time reader.old)) }
{
    let token = reader.next()?;
    match token.kind {
        Kind::End => {
            *into = Line::End { line, time };
            end(reader)
        }
        _ => Err(Refusal::At(token.span)),
    }
}

// What stands behind a time: an action, or the end of the plan.
fn entry(
    alloc: Global,
    reader: &mut Reader<'_>,
    line: u32,
    time: Time,
    into: &mut Line,
) -> Result<(), Refusal>
    ensures gives { MatchResult result
        (λ _. entry_of line time reader.old ≡ Ok into.new) (λ e. Fails e (entry_of line time reader.old)) }
{
    if reader.open() {
        return act(alloc, reader, line, time, into);
    }
    last(reader, line, time, into)
}

/// Puts the line with a time that these tokens spell in place of a line.
#[tactic(auto, unfolding(crate::specs::Grammar::timed_line))]
pub fn timed_line(
    alloc: Global,
    reader: &mut Reader<'_>,
    line: u32,
    into: &mut Line,
) -> Result<(), Refusal>
    ensures gives { MatchResult result
        (λ _. timed_line line reader.old ≡ Ok into.new) (λ e. Fails e (timed_line line reader.old)) }
{
    let Some(first) = reader.next_or_none()? else {
        *into = Line::Blank;
        return Ok(());
    };
    let time = time(reader, &first)?;
    entry(alloc, reader, line, time, into)
}

// An action without a time behind its opening parenthesis.
fn step(alloc: Global, reader: &mut Reader<'_>, line: u32, into: &mut Line) -> Result<(), Refusal>
    ensures gives { MatchResult result
        (λ _. step_of line reader.old ≡ Ok into.new) (λ e. Fails e (step_of line reader.old)) }
{
    let call = call(alloc, reader)?;
    *into = Line::Step { line, call };
    end(reader)
}

/// Puts the line without a time that these tokens spell in place of a line.
pub fn untimed_line(
    alloc: Global,
    reader: &mut Reader<'_>,
    line: u32,
    into: &mut Line,
) -> Result<(), Refusal>
    ensures gives { MatchResult result
        (λ _. untimed_line line reader.old ≡ Ok into.new) (λ e. Fails e (untimed_line line reader.old)) }
{
    if reader.open() {
        return step(alloc, reader, line, into);
    }
    if reader.is_done() {
        *into = Line::Blank;
        return Ok(());
    }
    Err(reader.refusal())
}
