//! The verdict on a plan text that stands in memory.
ghost use Rattle.std.specs.Prelude.{◌≡◌, ◌≤◌, IfOk};
ghost use Rattle.plus_expansion.specs.Counting.{IsGroundable};
ghost use Rattle.plus_ground.specs.Refusals.{RefusesGround};
ghost use Rattle.plus_number.specs.Frac.{IsFrac64};
ghost use Rattle.plus_tree.specs.declared.trees.Domain.{Domain};
ghost use Rattle.plus_tree.specs.declared.trees.Problem.{Problem};
ghost use Rattle.plus_io.specs.Limits.{most_happenings};
ghost use Rattle.plus_validator.specs.Outcomes.{outcome_of, status_of};
ghost use Rattle.plus_validator.specs.Playing.{IsGroundOf};
ghost use Rattle.plus_validator.specs.Verdicts.{RefusesPairWith, JudgesText};

use crate::halt::Halt;
use crate::judgement::say;
use crate::memory::Report;
use crate::playing::Playing;
use crate::run::Run;
use crate::silent::Silent;
use crate::stream::play_text;
use crate::ungrounded::early_of;
use plus_ground::ground;
use plus_instances::Instances;
use plus_io::Freeing;
use plus_number::frac::Frac64;
use plus_numbering::{GroundFault, Numbering};
use plus_plan::{PlanForm, PlanReader};
use plus_report::{Early, Status, Verdict, write_early};
use plus_state::problem::Ground;
use plus_types::Typed;
use std::alloc::{AllocError, Global};

/// How the check of a plan ends.
#[derive(Clone, Copy, Debug, PartialEq, Eq)]
pub enum Outcome {
    /// The plan is valid.
    Valid,
    /// The plan breaks a rule.
    Invalid,
    /// A limit of the program is reached before the plan can be judged.
    Beyond,
    /// A line of the plan text is none of a plan.
    BadText,
    /// The shelf failed.
    ReadFault,
    /// The sink failed.
    WriteFault,
    /// Memory is wanting.
    NoMemory,
}

impl Outcome {
    /// The status of a run that ends so.
    pub fn status(self) -> Status
        ensures { result ≡ status_of self }
    {
        match self {
            Outcome::Valid => Status::Valid,
            Outcome::Invalid => Status::Invalid,
            Outcome::Beyond => Status::Beyond,
            Outcome::BadText => Status::BadText,
            Outcome::ReadFault => Status::ReadFault,
            Outcome::WriteFault => Status::WriteFault,
            Outcome::NoMemory => Status::NoMemory,
        }
    }
}

/// The verdict on a plan text, and how much happens before it.
#[derive(Drop)]
pub struct Judged {
    pub verdict: Verdict<Frac64>,
    /// The line of the verdict, as it stands behind the report.
    pub line: Vec<u8>,
    /// How many moments are entered.
    pub entries: u64,
    /// How many events fire.
    pub firings: u64,
}

impl Judged {
    /// How the check of the plan text ends.
    pub fn outcome(&self) -> Outcome
        ensures { result ≡ outcome_of self.now.verdict }
    {
        outcome_of(&self.verdict)
    }
}

/// How the check of a plan with this verdict ends.
pub fn outcome_of(verdict: &Verdict<Frac64>) -> Outcome
    ensures { result ≡ outcome_of verdict.now }
{
    match verdict {
        Verdict::Valid => Outcome::Valid,
        Verdict::Invalid(_) => Outcome::Invalid,
        Verdict::Beyond(_) => Outcome::Beyond,
        Verdict::Other(early) => match early {
            Early::BadText { .. } | Early::BadLine { .. } => Outcome::BadText,
            _ => Outcome::Beyond,
        },
    }
}

// The judgement on a pair that is not grounded.
fn judge_pair(alloc: Global, fault: GroundFault) -> Result<Judged, AllocError>
    ensures { IfOk result (λ j. (d : Domain) (p : Problem) → RefusesGround IsFrac64 d p fault → RefusesPairWith d p j) }
{
    let Some(early) = early_of(fault) else {
        return Err(AllocError);
    };
    let mut line = Report::new(alloc);
    match write_early(&mut line, &early) {
        Ok(()) => Ok(Judged {
            verdict: Verdict::Other(early),
            line: line.bytes,
            entries: 0,
            firings: 0,
        }),
        Err(_) => Err(AllocError),
    }
}

// Judges the plan text of a ground pair.
fn judge_ground(
    alloc: Global,
    numbering: &Numbering,
    ground: &Ground<Frac64>,
    bytes: &[u8],
    happenings: u64,
    freeing: Freeing,
) -> Result<Judged, Halt>
    requires expands { IsGroundOf numbering.now.typed.now.domain numbering.now.typed.now.problem ground.now }
    requires groundable { IsGroundable IsFrac64 numbering.now.typed.now.domain numbering.now.typed.now.problem }
    requires some { 1 ≤ happenings }
    ensures judged { IfOk result (JudgesText numbering.now.typed.now.domain numbering.now.typed.now.problem happenings bytes.now) }
{
    let mut reader = PlanReader::new(alloc, PlanForm::Timed)?;
    let run = Run::begin(alloc, ground, Silent, happenings)?;
    let instances = Instances::new(alloc, &*numbering);
    let mut playing = Playing {
        run,
        instances,
        ground,
    };
    let played = play_text(&mut playing, &mut reader, alloc, bytes, happenings);
    let judged = say(alloc, ground, &playing.run, played);
    // By a call: what drops a plan that is played is long, and its proof stands once.
    freeing.let_go(playing);
    judged
}

// Judges the plan text of a pair whose ground atoms and fluents are numbered.
fn judge_numbered(
    alloc: Global,
    numbering: &Numbering,
    bytes: &[u8],
    happenings: u64,
    freeing: Freeing,
) -> Result<Judged, AllocError>
    requires some { 1 ≤ happenings }
    ensures judged { IfOk result (JudgesText numbering.now.typed.now.domain numbering.now.typed.now.problem happenings bytes.now) }
{
    let ground = match ground::<Frac64>(alloc, numbering) {
        Ok(ground) => ground,
        Err(fault) => return judge_pair(alloc, fault),
    };
    let judged = judge_ground(alloc, numbering, &ground, bytes, happenings, freeing);
    freeing.let_go(ground);
    match judged {
        Ok(judged) => Ok(judged),
        Err(_) => Err(AllocError),
    }
}

/// Judges the plan text of a well-typed pair, as the check of a plan of these bytes does.
/// `happenings` is how many moments the plan may enter. The only error is want of memory.
pub fn judge(
    alloc: Global,
    typed: &Typed,
    text: &[u8],
    happenings: u64,
    freeing: Freeing,
) -> Result<Judged, AllocError>
    requires some { 1 ≤ happenings }
    requires few { happenings ≤ most_happenings }
    ensures judged { IfOk result (JudgesText typed.now.domain typed.now.problem happenings text.now) }
{
    match Numbering::new(alloc, typed) {
        Ok(numbering) => judge_numbered(alloc, &numbering, text, happenings, freeing),
        Err(fault) => judge_pair(alloc, fault),
    }
}
