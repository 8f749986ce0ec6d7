//! Reads the lines of a plan text that stands in memory.

ghost use Rattle.std.specs.Prelude.{◌≡◌, ◌<◌, ◌≤◌, ◌++◌, ◌∷◌, [], List, length, map, All, Ok, IfOk, OnOk};
ghost use Rattle.plus_io.specs.Limits.{text_limit};
ghost use Rattle.plus_plan.specs.Answers.{HasBottom};
ghost use Rattle.plus_plan.specs.Lines.{plan_lines};
ghost use Rattle.plus_plan.specs.declared.forms.PlanForm.TheVariants.{Timed};
ghost use Rattle.plus_plan.specs.declared.forms.Line as forms;
ghost use Rattle.plus_trim_command.specs.Lines.{spoken, AreLinesFrom, ReadsOne};

use plus_plan::{Line, PlanFault, PlanForm, line_at};
use std::alloc::{AllocError, Global};

// Keeps a line that is not blank.
fn keep(lines: &mut Vec<Line>, line: Line) -> Result<(), AllocError>
    ensures { OnOk result (lines.new.items ≡ lines.old.items ++ spoken (line ∷ [])) }
{
    match line {
        Line::Blank => Ok(()),
        line => {
            lines.push(line)?;
            Ok(())
        }
    }
}

// Want of memory; no other fault comes here.
fn wanting(fault: PlanFault) -> AllocError
    requires { fault ≡ PlanFault.Memory }
{
    match fault {
        PlanFault::NotLine { .. } => unreachable!(),
        PlanFault::LineTooLong { .. } => unreachable!(),
        PlanFault::Memory => AllocError,
    }
}

// Reads the line at an offset, and answers where the next begins.
fn read_one(
    alloc: Global,
    text: &[u8],
    from: usize,
    number: u32,
    lines: &mut Vec<Line>,
) -> Result<usize, AllocError>
    requires inside { from < length text.now }
    requires lines { AreLinesFrom text.now from number }
    ensures { IfOk result (ReadsOne text.now from number lines.old.items lines.new.items) }
{
    match line_at(alloc, text, from, number, PlanForm::Timed) {
        Ok(Some((line, next))) => {
            keep(lines, line)?;
            Ok(next)
        }
        Ok(None) => unreachable!(),
        Err(fault) => Err(wanting(fault)),
    }
}

/// The lines of a plan text that are not blank.
pub fn lines_of(alloc: Global, text: &[u8]) -> Result<Vec<Line>, AllocError>
    requires within { length text.now ≤ text_limit }
    requires lines { AreLinesFrom text.now 0 1 }
    ensures spoken { IfOk result (λ lines. (ls : List forms.Line) → plan_lines Timed text.now ≡ map Ok ls → lines.items ≡ spoken ls) }
    ensures bottoms { IfOk result (λ lines. All HasBottom lines.items) }
{
    let mut lines = Vec::new(alloc);
    let mut from = 0;
    let mut number = 1;
    'reading: while from < text.len() {
        from = read_one(alloc, text, from, number, &mut lines)?;
        number += 1;
    }
    Ok(lines)
}
