//! Plays a plan text while constraints are watched.
ghost use Rattle.std.specs.Prelude.{◌≡◌, ◌<◌, ◌≤◌, ◌^◌, [], IfOk, IfErr};
ghost use Rattle.std.specs.List.{All};
ghost use Rattle.plus_number.specs.Frac.{fraction_of, IsFrac64};
ghost use Rattle.plus_state.specs.Fits.{Fits, comparisons};
ghost use Rattle.plus_state.specs.View.{condition_of, labels_of, problem_of};
ghost use Rattle.plus_expansion.specs.Counting.{IsGroundable};
ghost use Rattle.plus_expansion.specs.Expansion.{expanded};
ghost use Rattle.plus_watch.specs.Watched.{constraints_of};
ghost use Rattle.plus_validator.specs.Account.{progress};
ghost use Rattle.plus_validator.specs.Halts.{HaltFits};
ghost use Rattle.plus_validator.specs.Playing.{Begins, IsGroundOf};
ghost use Rattle.plus_watcher.specs.Fitting.{AllFit, AreFew};
ghost use Rattle.plus_watching.specs.Watching.{watching, watched_told};
ghost use Rattle.plus_watching.specs.Watches.{Gathers, WatchesText};

use crate::telling::Observer;
use plus_instances::Instances;
use plus_io::Freeing;
use plus_number::frac::Frac64;
use plus_numbering::Numbering;
use plus_plan::{PlanForm, PlanReader};
use plus_state::problem::Ground;
use plus_validator::Judged;
use plus_validator::halt::Halt;
use plus_validator::judgement::say;
use plus_validator::playing::Playing;
use plus_validator::run::Run;
use plus_validator::stream::play_text;
use plus_watch::place::Place;
use plus_watch::watched::Watched;
use plus_watcher::rules::Rules;
use plus_watcher::watcher::{Standing, Watcher};
use std::alloc::Global;
use std::mem;

/// What is told of a plan that was watched: the judgement on it, and what was seen on the way.
#[derive(Drop)]
pub struct Findings {
    pub judged: Judged,
    /// The first place of each constraint, where one is found.
    pub firsts: Vec<Option<Place<Frac64>>>,
    pub standing: Standing,
}

// The constraints as those of a ground problem.
fn rules_of<'w>(ground: &Ground<Frac64>, watched: &'w [Watched<Frac64>]) -> Rules<'w>
    requires fit { AllFit (problem_of fraction_of ground.now).atoms (problem_of fraction_of ground.now).fluents watched.now }
    requires few { AreFew watched.now }
    ensures watched { result.watched.now ≡ watched.now }
    ensures atoms { result.atoms ≡ (problem_of fraction_of ground.now).atoms }
    ensures fluents { result.fluents ≡ (problem_of fraction_of ground.now).fluents }
{
    Rules {
        watched,
        atoms: ground.initial.atoms(),
        fluents: ground.initial.fluents(),
    }
}

// Begins to play while constraints are watched.
fn begin<'w>(
    alloc: Global,
    ground: &Ground<Frac64>,
    rules: Rules<'w>,
    happenings: u64,
) -> Result<Run<Observer<'w>>, Halt>
    requires some { 1 ≤ happenings }
    ensures begins { IfOk result (λ run. Begins (problem_of fraction_of ground.now) (watching (labels_of ground.now) (problem_of fraction_of ground.now)) happenings
        (progress watched_told [] run)) }
    ensures keeps { IfOk result (λ run. run.teller.watcher.rules ≡ rules.entry) }
{
    let watcher = Watcher::new(alloc, rules)?;
    Run::begin(alloc, ground, Observer { watcher }, happenings)
}

// What is said of a plan that is played so, with what was seen, which is taken out of the run.
fn gather(
    alloc: Global,
    ground: &Ground<Frac64>,
    run: &mut Run<Observer<'_>>,
    played: Result<(), Halt>,
) -> Result<Findings, Halt>
    requires fits { IfErr played (HaltFits (problem_of fraction_of ground.now)) }
    ensures { IfOk result (Gathers (labels_of ground.now) (problem_of fraction_of ground.now) run.old played) }
{
    let judged = say(alloc, ground, &*run, played)?;
    Ok(Findings {
        judged,
        firsts: mem::replace(&mut run.teller.watcher.firsts, Vec::new(alloc)),
        standing: run.teller.watcher.standing,
    })
}

/// Plays the plan text of a ground pair while these constraints are watched. `happenings` is how many moments the plan may enter.
pub fn watch_text(
    alloc: Global,
    numbering: &Numbering,
    ground: &Ground<Frac64>,
    watched: &[Watched<Frac64>],
    bytes: &[u8],
    happenings: u64,
    freeing: Freeing,
) -> Result<Findings, Halt>
    requires expands { IsGroundOf numbering.now.typed.now.domain numbering.now.typed.now.problem ground.now }
    requires groundable { IsGroundable IsFrac64 numbering.now.typed.now.domain numbering.now.typed.now.problem }
    requires some { 1 ≤ happenings }
    requires fit { AllFit (expanded numbering.now.typed.now.domain numbering.now.typed.now.problem).atoms
        (expanded numbering.now.typed.now.domain numbering.now.typed.now.problem).fluents watched.now }
    requires few { AreFew watched.now }
    ensures { IfOk result (WatchesText numbering.now.typed.now.domain numbering.now.typed.now.problem
        (constraints_of fraction_of watched.now) happenings bytes.now) }
{
    let mut reader = PlanReader::new(alloc, PlanForm::Timed)?;
    let run = begin(alloc, ground, rules_of(ground, watched), happenings)?;
    let instances = Instances::new(alloc, &*numbering);
    let mut playing = Playing {
        run,
        instances,
        ground,
    };
    let played = play_text(&mut playing, &mut reader, alloc, bytes, happenings);
    let found = gather(alloc, ground, &mut playing.run, played);
    // By a call: what drops a plan that is played is long, and its proof stands once.
    freeing.let_go(playing);
    found
}
