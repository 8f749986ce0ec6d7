//! A plan that is seen: how it is judged, and what is drawn of it.

ghost use Rattle.std.specs.Prelude.{[], IfOk, IfErr};
ghost use Rattle.plus_number.specs.Frac.{fraction_of, IsFrac64};
ghost use Rattle.plus_state.specs.View.{problem_of, labels_of};
ghost use Rattle.plus_expansion.specs.Counting.{IsGroundable};
ghost use Rattle.plus_validator.specs.Account.{progress};
ghost use Rattle.plus_validator.specs.Halts.{HaltFits};
ghost use Rattle.plus_validator.specs.Judged.{Says};
ghost use Rattle.plus_validator.specs.Playing.{IsGroundOf, Begins};
ghost use Rattle.plus_validator.specs.Told.{silence};
ghost use Rattle.plus_validator.specs.Verdicts.{JudgesText};
ghost use Rattle.plus_picture.specs.Noting.{noted_told};

use crate::asked::Asked;
use crate::chosen::{Chosen, choose};
use crate::collector::Collector;
use plus_ground::ground;
use plus_instances::Instances;
use plus_io::Freeing;
use plus_number::frac::Frac64;
use plus_numbering::{GroundFault, Numbering};
use plus_plan::{PlanForm, PlanReader};
use plus_state::Ground;
use plus_types::Typed;
use plus_validator::halt::Halt;
use plus_validator::judge::{Judged, judge};
use plus_validator::judgement::say;
use plus_validator::playing::Playing;
use plus_validator::run::Run;
use plus_validator::stream::play_text;
use std::alloc::{AllocError, Global};
use std::mem;

/// What is drawn of a plan: its rows, and when it ended, or was refused.
#[derive(Drop)]
pub struct Scene {
    pub chosen: Chosen,
    pub end: Frac64,
}

/// The judgement on a plan, and what is drawn of it: nothing where the pair is over a limit.
#[derive(Drop)]
pub struct Seen {
    pub judged: Judged,
    pub scene: Option<Scene>,
}

// What is drawn of a plan that was played. The rows are taken out.
fn scene_of(rows: &mut Collector<'_, '_, '_>) -> Result<Scene, AllocError> {
    rows.close()?;
    let ground = rows.ground;
    rows.goals(&ground.goal)?;
    let alloc = rows.alloc;
    let end = rows.moment;
    let all = mem::replace(&mut rows.rows, Vec::new(alloc));
    let chosen = choose(alloc, all)?;
    Ok(Scene { chosen, end })
}

// What is said of a plan that was played so, and what is drawn of it.
fn sum_up(
    alloc: Global,
    ground: &Ground<Frac64>,
    run: &mut Run<Collector<'_, '_, '_>>,
    played: Result<(), Halt>,
) -> Result<Seen, Halt>
    requires fits { IfErr played (HaltFits (problem_of fraction_of ground.now)) }
    ensures says { IfOk result (λ seen. Says (labels_of ground.now) (problem_of fraction_of ground.now) run.old played seen.judged) }
{
    let judged = say(alloc, ground, &*run, played)?;
    match scene_of(&mut run.teller) {
        Ok(scene) => Ok(Seen {
            judged,
            scene: Some(scene),
        }),
        Err(AllocError) => {
            drop(judged);
            Err(Halt::Memory)
        }
    }
}

// A plan of which nothing is played yet.
fn begun<'t, 'g, 'w>(
    alloc: Global,
    typed: &'t Typed,
    ground: &'g Ground<Frac64>,
    asked: &Asked<'w>,
) -> Result<Run<Collector<'t, 'g, 'w>>, Halt>
    ensures begins { IfOk result (λ run. Begins (problem_of fraction_of ground.now) (silence (problem_of fraction_of ground.now)) asked.now.happenings.number
        (progress noted_told [] run)) }
{
    let rows = Collector::new(alloc, typed, ground, asked.wanted())?;
    Run::begin(alloc, ground, rows, asked.happenings.number)
}

// Judges a plan over the ground form of its pair, and answers what is drawn of it.
fn see_ground(
    alloc: Global,
    numbering: &Numbering<'_>,
    ground: &Ground<Frac64>,
    plan: &[u8],
    asked: &Asked<'_>,
    freeing: Freeing,
) -> Result<Seen, Halt>
    requires expands { IsGroundOf numbering.now.typed.now.domain numbering.now.typed.now.problem ground.now }
    requires groundable { IsGroundable IsFrac64 numbering.now.typed.now.domain numbering.now.typed.now.problem }
    ensures judged { IfOk result (λ seen.
        JudgesText numbering.now.typed.now.domain numbering.now.typed.now.problem asked.now.happenings.number plan.now seen.judged) }
{
    let happenings = asked.happenings.number;
    let mut reader = PlanReader::new(alloc, PlanForm::Timed)?;
    let run = begun(alloc, numbering.typed, ground, asked)?;
    let instances = Instances::new(alloc, &*numbering);
    let mut playing = Playing {
        run,
        instances,
        ground,
    };
    let played = play_text(&mut playing, &mut reader, alloc, plan, happenings);
    let seen = sum_up(alloc, ground, &mut playing.run, played);
    // By a call: what drops a plan that is played is long, and its proof stands once.
    freeing.let_go(playing);
    seen
}

// The judgement on a plan of which nothing is drawn, since its pair is not grounded.
fn unseen(
    alloc: Global,
    typed: &Typed,
    fault: GroundFault,
    plan: &[u8],
    asked: &Asked<'_>,
    freeing: Freeing,
) -> Result<Seen, AllocError>
    ensures judged { IfOk result (λ seen. JudgesText typed.now.domain typed.now.problem asked.now.happenings.number plan.now seen.judged) }
{
    if let GroundFault::Memory = fault {
        return Err(AllocError);
    }
    let judged = judge(alloc, typed, plan, asked.happenings.number, freeing)?;
    Ok(Seen {
        judged,
        scene: None,
    })
}

// The same of a pair whose ground atoms and fluents are numbered.
fn see_numbered(
    alloc: Global,
    numbering: &Numbering<'_>,
    plan: &[u8],
    asked: &Asked<'_>,
    freeing: Freeing,
) -> Result<Seen, AllocError>
    ensures judged { IfOk result (λ seen.
        JudgesText numbering.now.typed.now.domain numbering.now.typed.now.problem asked.now.happenings.number plan.now seen.judged) }
{
    let ground = match ground::<Frac64>(alloc, numbering) {
        Ok(ground) => ground,
        Err(fault) => return unseen(alloc, numbering.typed, fault, plan, asked, freeing),
    };
    let seen = see_ground(alloc, numbering, &ground, plan, asked, freeing);
    freeing.let_go(ground);
    match seen {
        Ok(seen) => Ok(seen),
        Err(_) => Err(AllocError),
    }
}

/// Judges a plan of a well-typed pair, as the check of a plan of these bytes does, and answers what is drawn of it: up to where it is refused.
/// The plan is played once. The only error is want of memory.
pub fn see(
    alloc: Global,
    typed: &Typed,
    plan: &[u8],
    asked: &Asked<'_>,
    freeing: Freeing,
) -> Result<Seen, AllocError>
    ensures judged { IfOk result (λ seen. JudgesText typed.now.domain typed.now.problem asked.now.happenings.number plan.now seen.judged) }
{
    match Numbering::new(alloc, typed) {
        Ok(numbering) => see_numbered(alloc, &numbering, plan, asked, freeing),
        Err(fault) => unseen(alloc, typed, fault, plan, asked, freeing),
    }
}
