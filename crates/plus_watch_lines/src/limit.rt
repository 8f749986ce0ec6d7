//! The line of a limit that the condition of a constraint meets.
ghost use Rattle.std.specs.Prelude.{◌≡◌, ◌++◌};
ghost use Rattle.plus_number.specs.Frac.{fraction_of};
ghost use Rattle.plus_report.specs.Puts.{Puts};
ghost use Rattle.plus_report.specs.Text.{fraction_text};
ghost use Rattle.plus_report.specs.Verdicts.{sign_text};
ghost use Rattle.plus_report.specs.Wrote.{Wrote};
ghost use Rattle.plus_watch_lines.specs.Lines.{operation_at, number_text, nonlinear_text, limit_line};

use plus_crossing::node::CondStop;
use plus_io::{Failed, Sink};
use plus_number::frac::Frac64;
use plus_report::put::{Waiting, flush, put, put_fraction, put_numbered};
use plus_state::{Overflow, Sign};

fn sign_of(sign: Sign) -> &'static [u8]
    ensures { result.now ≡ sign_text sign }
{
    match sign {
        Sign::Plus => b" + ",
        Sign::Minus => b" - ",
        Sign::Times => b" * ",
        Sign::Divide => b" / ",
    }
}

// Puts an operation whose result is no value of the type of numbers.
fn put_operation<O: Sink>(
    out: &mut O,
    waiting: &mut Waiting,
    operation: &Overflow<Frac64>,
) -> Result<(), Failed>
    ensures { Puts O.taken O.faults out.old out.new waiting.old.items waiting.new.items
        (operation_at operation.now) result }
{
    put_fraction(out, waiting, operation.left)?;
    put(out, waiting, sign_of(operation.sign))?;
    put_fraction(out, waiting, operation.right)
}

fn put_number<O: Sink>(
    out: &mut O,
    waiting: &mut Waiting,
    number: u64,
    operation: &Overflow<Frac64>,
) -> Result<(), Failed>
    ensures { Puts O.taken O.faults out.old out.new waiting.old.items waiting.new.items
        (number_text number operation.now) result }
{
    put(out, waiting, b"beyond: number ")?;
    put_operation(out, waiting, operation)?;
    put_numbered(out, waiting, b" in constraint ", number, b"\n")
}

fn put_nonlinear<O: Sink>(
    out: &mut O,
    waiting: &mut Waiting,
    number: u64,
    comparison: u32,
) -> Result<(), Failed>
    ensures { Puts O.taken O.faults out.old out.new waiting.old.items waiting.new.items
        (nonlinear_text number comparison) result }
{
    put_numbered(
        out,
        waiting,
        b"beyond: nonlinear in constraint ",
        number,
        b", comparison ",
    )?;
    put_numbered(out, waiting, b"", comparison as u64, b"\n")
}

fn put_limit<O: Sink>(
    out: &mut O,
    waiting: &mut Waiting,
    number: u64,
    stop: &CondStop<Frac64>,
) -> Result<(), Failed>
    ensures { Puts O.taken O.faults out.old out.new waiting.old.items waiting.new.items
        (limit_line number stop.now) result }
{
    match stop {
        CondStop::Number(operation) => put_number(out, waiting, number, operation),
        CondStop::Nonlinear { comparison } => put_nonlinear(out, waiting, number, *comparison),
    }
}

/// Writes that the condition of the constraint with this number meets this limit.
pub fn write_limit<O: Sink>(out: &mut O, number: u64, stop: &CondStop<Frac64>) -> Result<(), Failed>
    ensures { Wrote O.taken O.faults out.old out.new (limit_line number stop.now) result }
{
    let mut waiting = Waiting::new();
    put_limit(out, &mut waiting, number, stop)?;
    flush(out, &mut waiting)
}
