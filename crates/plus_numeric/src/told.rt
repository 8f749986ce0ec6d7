//! A refusal as the line that tells it.
ghost use Rattle.std.specs.Prelude.{◌≡◌};
ghost use Rattle.plus_number.specs.Frac.{fraction_of};
ghost use Rattle.plus_state.specs.View.{problem_of, labels_of};
ghost use Rattle.plus_report.specs.Verdicts.{VerdictFits, verdict_text};
ghost use Rattle.plus_report.specs.Refusals.{early_text};
ghost use Rattle.plus_numeric.specs.Verdicts.{kind_of, early_kind};
ghost use Rattle.plus_io.specs.MemSink.{sink_state};
ghost use Rattle.plus_numeric.specs.Telling.{TellsLine};

use crate::answer::{Kind, Refused, Stop};
use plus_io::MemSink;
use plus_number::frac::Frac64;
use plus_report::{Early, Verdict, write_early, write_verdict};
use plus_state::problem::Ground;
use std::alloc::Global;

fn early_kind(early: &Early) -> Kind
    ensures { result ≡ early_kind early.now }
{
    match early {
        Early::BadText { .. } | Early::BadLine { .. } => Kind::BadText,
        _ => Kind::Beyond,
    }
}

fn kind_of(verdict: &Verdict<Frac64>) -> Kind
    ensures { result ≡ kind_of verdict.now }
{
    match verdict {
        Verdict::Invalid(_) => Kind::Invalid,
        Verdict::Valid | Verdict::Beyond(_) => Kind::Beyond,
        Verdict::Other(early) => early_kind(early),
    }
}

// The refusal of this kind, whose line is in a sink.
fn refused(alloc: Global, kind: Kind, line: &MemSink) -> Stop
    ensures { TellsLine kind (sink_state line.now).bytes result }
{
    match Vec::from_slice(alloc, line.bytes()) {
        Ok(line) => Stop::Refused(Refused { kind, line }),
        Err(_) => Stop::NoMemory,
    }
}

/// A refusal that is no matter of a plan's meaning.
pub fn told_early(alloc: Global, early: &Early) -> Stop
    ensures { TellsLine (early_kind early.now) (early_text early.now) result }
{
    let mut line = MemSink::new(alloc, usize::MAX);
    match write_early(&mut line, early) {
        Ok(()) => refused(alloc, early_kind(early), &line),
        Err(_) => Stop::NoMemory,
    }
}

/// The verdict on a plan of a ground problem.
pub fn told(alloc: Global, ground: &Ground<Frac64>, verdict: &Verdict<Frac64>) -> Stop
    requires { VerdictFits (problem_of fraction_of ground.now) verdict.now }
    ensures { TellsLine (kind_of verdict.now)
        (verdict_text fraction_of (labels_of ground.now) (problem_of fraction_of ground.now) verdict.now) result }
{
    let mut line = MemSink::new(alloc, usize::MAX);
    match write_verdict(&mut line, ground, verdict) {
        Ok(()) => refused(alloc, kind_of(verdict), &line),
        Err(_) => Stop::NoMemory,
    }
}
