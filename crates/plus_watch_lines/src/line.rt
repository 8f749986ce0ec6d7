//! The line of one constraint.
ghost use Rattle.std.specs.Prelude.{◌≡◌, ◌++◌};
ghost use Rattle.plus_number.specs.Frac.{fraction_of};
ghost use Rattle.plus_report.specs.Puts.{Puts};
ghost use Rattle.plus_report.specs.Text.{newline, fraction_text};
ghost use Rattle.plus_watch.specs.View.{when_of, found_of};
ghost use Rattle.plus_watch_lines.specs.Lines.{rule_name, rule_text, found_text, rule_line};

use plus_io::{Failed, Sink};
use plus_number::frac::Frac64;
use plus_report::put::{Waiting, put, put_fraction_end, put_numbered};
use plus_watch::place::Found;
use plus_watch::rule::RuleAt;

fn name_of(rule: RuleAt<Frac64>) -> &'static [u8]
    ensures { result.now ≡ rule_name (when_of fraction_of rule) }
{
    match rule {
        RuleAt::Always => b"always",
        RuleAt::Sometime => b"sometime",
        RuleAt::Within(_) => b"within",
        RuleAt::HoldAfter(_) => b"hold-after",
    }
}

// Puts the number of a constraint and its name.
fn put_rule<O: Sink>(
    out: &mut O,
    waiting: &mut Waiting,
    number: u64,
    rule: RuleAt<Frac64>,
) -> Result<(), Failed>
    ensures { Puts O.taken O.faults out.old out.new waiting.old.items waiting.new.items
        (rule_text number (when_of fraction_of rule)) result }
{
    put_numbered(out, waiting, b"", number, b" ")?;
    put(out, waiting, name_of(rule))
}

// Puts how and when a constraint fails.
fn put_failing<O: Sink>(
    out: &mut O,
    waiting: &mut Waiting,
    how: &[u8],
    time: Frac64,
) -> Result<(), Failed>
    ensures { Puts O.taken O.faults out.old out.new waiting.old.items waiting.new.items
        (how.now ++ (fraction_text (fraction_of time) ++ newline)) result }
{
    put(out, waiting, how)?;
    put_fraction_end(out, waiting, time)
}

// Puts what is found, and the end of the line.
fn put_found<O: Sink>(
    out: &mut O,
    waiting: &mut Waiting,
    found: Found<Frac64>,
) -> Result<(), Failed>
    ensures { Puts O.taken O.faults out.old out.new waiting.old.items waiting.new.items
        (found_text (found_of fraction_of found)) result }
{
    match found {
        Found::Holds => put(out, waiting, b": holds\n"),
        Found::Never => put(out, waiting, b": never\n"),
        Found::FailsAt(time) => put_failing(out, waiting, b": fails at ", time),
        Found::FailsAfter(time) => put_failing(out, waiting, b": fails after ", time),
    }
}

/// Puts the line of a constraint with this number, of which this is found.
pub fn put_line<O: Sink>(
    out: &mut O,
    waiting: &mut Waiting,
    number: u64,
    rule: RuleAt<Frac64>,
    found: Found<Frac64>,
) -> Result<(), Failed>
    ensures { Puts O.taken O.faults out.old out.new waiting.old.items waiting.new.items
        (rule_line number (when_of fraction_of rule) (found_of fraction_of found)) result }
{
    put_rule(out, waiting, number, rule)?;
    put_found(out, waiting, found)
}
