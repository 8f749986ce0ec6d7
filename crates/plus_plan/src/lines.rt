//! Reads a text line by line.

ghost use Rattle.std.specs.Prelude.{◌≡◌, ◌<◌, ◌≤◌, ◌↔◌, length, IfErr, IfOk, IfSome, MatchResult};
ghost use Rattle.plus_plan.specs.Cut.{line_end};
ghost use Rattle.plus_plan.specs.Grammar.{line_of};
ghost use Rattle.plus_tokens.specs.Items.{items_of};
ghost use Rattle.plus_plan.specs.Lines.{fault_of, read_line};
ghost use Rattle.plus_plan.specs.Reading.{Fails};
ghost use Rattle.plus_plan.specs.Spells.{line_limit};
ghost use Rattle.plus_plan.specs.Answers.{GivesSpelled, IsLineAt, IsRefusedAt, IsTooLong, RefusedAs};

use crate::faults::PlanFault;
use crate::forms::{Line, PlanForm};
use crate::grammar::{timed_line, untimed_line};
use crate::reader::{Reader, Refusal};
use std::alloc::Global;

// The most bytes of a line.
pub const LINE_LIMIT: usize = 4096;

// Where the line that begins at an offset ends.
pub fn line_end(text: &[u8], from: usize) -> usize
    requires { from ≤ length text.now }
    ensures end { result ≡ line_end text.now from }
    ensures inside { result ≤ length text.now }
{
    let mut at = from;
    while at < text.len() && text[at] != b'\n' {
        at += 1;
    }
    at
}

fn fault_of(line: u32, size: usize, refusal: Refusal) -> PlanFault
    ensures { result ≡ fault_of line size refusal }
{
    match refusal {
        Refusal::At(span) => PlanFault::NotLine {
            line,
            start: span.start,
            end: span.end,
        },
        Refusal::AtEnd => PlanFault::NotLine {
            line,
            start: size,
            end: size,
        },
        Refusal::Memory => PlanFault::Memory,
    }
}

#[inline(always)]
fn line_of(
    alloc: Global,
    bytes: &[u8],
    line: u32,
    form: PlanForm,
    into: &mut Line,
) -> Result<(), Refusal>
    ensures { MatchResult result
        (λ _. line_of form line (items_of bytes.now) ≡ Ok into.new)
        (λ e. Fails e (line_of form line (items_of bytes.now))) }
{
    let mut reader = Reader::new(bytes);
    match form {
        PlanForm::Timed => timed_line(alloc, &mut reader, line, into),
        PlanForm::Untimed => untimed_line(alloc, &mut reader, line, into),
    }
}

// Puts what these bytes say in place of a line.
#[inline(always)]
#[tactic(auto, unfolding(crate::specs::Lines::read_line))]
pub fn read_line(
    alloc: Global,
    bytes: &[u8],
    line: u32,
    form: PlanForm,
    into: &mut Line,
) -> Result<(), PlanFault>
    ensures exact { MatchResult result
        (λ _. read_line form line bytes.now ≡ Ok into.new)
        (λ e. RefusedAs e (read_line form line bytes.now)) }
    ensures too_long { (result ≡ Err (PlanFault.LineTooLong line)) ↔ (line_limit < length bytes.now) }
{
    if bytes.len() > LINE_LIMIT {
        return Err(PlanFault::LineTooLong { line });
    }
    match line_of(alloc, bytes, line, form, into) {
        Ok(()) => Ok(()),
        Err(refusal) => Err(fault_of(line, bytes.len(), refusal)),
    }
}

/// The line of a text that begins at `from`, with this number, and the offset at which the next one
/// begins: behind its LF, or at the end of the text.
pub fn line_at(
    alloc: Global,
    text: &[u8],
    from: usize,
    line: u32,
    form: PlanForm,
) -> Result<Option<(Line, usize)>, PlanFault>
    requires { from ≤ length text.now }
    // There is none exactly at the end of the text.
    ensures none { (result ≡ Ok None) ↔ (from ≡ length text.now) }
    // What is given is the line that begins there: what it says, and where the next begins.
    ensures line { IfOk result (λ o. IfSome o (IsLineAt form line text.now from)) }
    // A line is refused at the one place of its fault, or since it is too long.
    ensures refused { IfErr result (IsRefusedAt form line text.now from) }
    // What is spelled is read, unless memory runs out.
    ensures only { from < length text.now → GivesSpelled form line text.now from result }
    ensures too_long { (result ≡ Err (PlanFault.LineTooLong line)) ↔ IsTooLong text.now from }
{
    if from == text.len() {
        return Ok(None);
    }
    let end = line_end(text, from);
    let mut read = Line::Blank;
    read_line(alloc, &text[from..end], line, form, &mut read)?;
    Ok(Some((read, (end + 1).min(text.len()))))
}
