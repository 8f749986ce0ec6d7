//! The report and the verdict of a plan that is played.
ghost use Rattle.std.specs.Prelude.{◌≡◌, ◌≢◌, IfOk, IfErr};
ghost use Rattle.plus_state.specs.View.{problem_of, labels_of};
ghost use Rattle.plus_number.specs.Frac.{fraction_of};
ghost use Rattle.plus_validator.specs.Halts.{HaltFits};
ghost use Rattle.plus_validator.specs.Judged.{GivesVerdict, Says, SumsUp};

use crate::halt::Halt;
use crate::judge::{Judged, Outcome};
use crate::memory::Report;
use crate::run::Run;
use plus_number::frac::Frac64;
use plus_report::{Verdict, write_verdict};
use plus_state::problem::Ground;
use std::alloc::Global;
use std::mem;

/// What is left of the report of a plan with its verdict line, and what is said of the plan.
#[derive(Drop)]
pub struct Judgement {
    pub bytes: Vec<u8>,
    pub outcome: Outcome,
    pub judged: Judged,
}

// The verdict on a text whose lines are played.
fn verdict_of(played: Result<(), Halt>) -> Result<Verdict<Frac64>, Halt>
    requires { IfErr played (λ halt. halt ≢ Halt.WriteFault) }
    ensures gives { IfOk result (GivesVerdict played) }
    ensures memory { IfErr result (λ halt. halt ≡ Halt.Memory) }
{
    match played {
        Ok(()) => Ok(Verdict::Valid),
        Err(Halt::Refused(verdict)) => Ok(verdict),
        Err(Halt::Memory) => Err(Halt::Memory),
        Err(Halt::WriteFault) => unreachable!(),
    }
}

/// What is said of a plan that is played so, and how much happens in it.
pub fn say<T>(
    alloc: Global,
    ground: &Ground<Frac64>,
    run: &Run<T>,
    played: Result<(), Halt>,
) -> Result<Judged, Halt>
    requires fits { IfErr played (HaltFits (problem_of fraction_of ground.now)) }
    ensures says { IfOk result (Says (labels_of ground.now) (problem_of fraction_of ground.now) run.now played) }
    ensures memory { IfErr result (λ halt. halt ≡ Halt.Memory) }
{
    let verdict = verdict_of(played)?;
    let mut line = Report::new(alloc);
    write_verdict(&mut line, ground, &verdict)?;
    Ok(Judged {
        verdict,
        line: line.bytes,
        entries: run.entries,
        firings: run.firings,
    })
}

/// The same, with what is left of the report, which is taken out of the run.
pub fn sum_up(
    alloc: Global,
    ground: &Ground<Frac64>,
    run: &mut Run<Report>,
    played: Result<(), Halt>,
) -> Result<Judgement, Halt>
    requires fits { IfErr played (HaltFits (problem_of fraction_of ground.now)) }
    ensures sums { IfOk result (SumsUp (labels_of ground.now) (problem_of fraction_of ground.now) run.old played) }
    ensures memory { IfErr result (λ halt. halt ≡ Halt.Memory) }
{
    let judged = say(alloc, ground, &*run, played)?;
    run.teller.bytes.extend_from_slice(&judged.line)?;
    Ok(Judgement {
        bytes: mem::replace(&mut run.teller.bytes, Vec::new(alloc)),
        outcome: judged.outcome(),
        judged,
    })
}
