//! From a pair and the name of a plan to its answer.
ghost use Rattle.std.specs.Prelude.{◌≡◌, ◌+◌, [], ◌∷◌, Some, IfOk, IfErr, IfSome};
ghost use Rattle.plus_io.specs.Files.{KeepsFiles};
ghost use Rattle.plus_io.specs.Picks.{ReadsInOrder};
ghost use Rattle.plus_number.specs.Frac.{fraction_of, IsFrac64};
ghost use Rattle.plus_state.specs.View.{problem_of, labels_of};
ghost use Rattle.plus_tree.specs.declared.trees.Domain.{Domain};
ghost use Rattle.plus_tree.specs.declared.trees.Problem.{Problem};
ghost use Rattle.plus_expansion.specs.Expansion.{expanded, labels_meant};
ghost use Rattle.plus_expansion.specs.Counting.{IsGroundable};
ghost use Rattle.plus_ground.specs.Refusals.{RefusesGround};
ghost use Rattle.plus_io.specs.Limits.{text_limit};
ghost use Rattle.plus_numeric.specs.Level.{beyond_level_two, IsFirstPlace};
ghost use Rattle.plus_numeric.specs.Answers.{IsAccepted, Stops};
ghost use Rattle.plus_numeric.specs.Refusing.{StopsPair};
ghost use Rattle.plus_numeric.specs.Streaming.{PauseNames, TellsPause};
ghost use Rattle.plus_numeric.specs.Verdicts.{kind_meant};

use crate::answer::Stop;
use crate::halt::Halt;
use crate::level::{Place, first_beyond};
use crate::play::Play;
use crate::playing::Playing;
use crate::source::Source;
use crate::told::{told, told_early};
use plus_expansion::Count;
use plus_ground::ground;
use plus_io::Shelf;
use plus_number::frac::Frac64;
use plus_numbering::{GroundFault, Numbering};
use plus_plan::{PlanForm, PlanReader};
use plus_play::{Pause, play_file};
use plus_report::{Early, Kinds, Word};
use plus_state::problem::Ground;
use plus_tree::Call;
use plus_types::Typed;
use std::alloc::Global;

fn kind_of(count: Count) -> Kinds
    ensures { result ≡ kind_meant count }
{
    match count {
        Count::Objects => Kinds::Objects,
        Count::Atoms => Kinds::Atoms,
        Count::Fluents => Kinds::Fluents,
        Count::Processes => Kinds::Processes,
        Count::Events => Kinds::Events,
        Count::Actions => Kinds::Actions,
        Count::Nodes => Kinds::Nodes,
    }
}

// Something is beyond level two.
fn beyond(alloc: Global, source: Source, place: Place) -> Stop
    ensures { (d : Domain) (p : Problem) → IsFirstPlace (beyond_level_two d p) (Some place) → StopsPair source d p result }
{
    told_early(
        alloc,
        &Early::BadText {
            text: source.text(place.file),
            start: place.span.start,
            end: place.span.end,
            word: Word::NotLevelTwo,
        },
    )
}

// Too many are counted.
fn too_many(alloc: Global, source: Source, kind: Count, most: u32) -> Stop
    ensures { (d : Domain) (p : Problem) → beyond_level_two d p ≡ [] → RefusesGround IsFrac64 d p (GroundFault.TooMany kind most) → StopsPair source d p result }
{
    told_early(
        alloc,
        &Early::TooMany {
            kind: kind_of(kind),
            most,
        },
    )
}

// A pair is not grounded.
fn ungrounded(alloc: Global, source: Source, fault: GroundFault) -> Stop
    ensures { (d : Domain) (p : Problem) → beyond_level_two d p ≡ [] → RefusesGround IsFrac64 d p fault → StopsPair source d p result }
{
    match fault {
        GroundFault::TooMany { kind, most } => too_many(alloc, source, kind, most),
        GroundFault::Literal { file, span } => told_early(
            alloc,
            &Early::Literal {
                text: source.text(file),
                start: span.start,
                end: span.end,
            },
        ),
        GroundFault::Memory => Stop::NoMemory,
    }
}

// Why the plan of a ground problem is read no further.
fn paused(alloc: Global, ground: &Ground<Frac64>, pause: Pause<Halt>) -> Stop
    requires { PauseNames (problem_of fraction_of ground.now) pause }
    ensures { TellsPause (labels_of ground.now) (problem_of fraction_of ground.now) pause result }
{
    match pause {
        Pause::Halt(halt) => match halt {
            Halt::Refused(verdict) => told(alloc, ground, &verdict),
            Halt::Memory => Stop::NoMemory,
        },
        Pause::Failed => Stop::ReadFault,
    }
}

// Plays the plan of a pair that is ground.
fn numeric_ground<S: Shelf>(
    alloc: Global,
    numbering: &Numbering,
    ground: &Ground<Frac64>,
    source: Source,
    shelf: &mut S,
    plan: &str,
    keep: bool,
) -> Result<Vec<Call>, Stop>
    requires level_two { beyond_level_two numbering.now.typed.now.domain numbering.now.typed.now.problem ≡ [] }
    requires expands { problem_of fraction_of ground.now ≡ expanded numbering.now.typed.now.domain numbering.now.typed.now.problem }
    requires labels { labels_of ground.now ≡ labels_meant numbering.now.typed.now.domain numbering.now.typed.now.problem }
    requires groundable { IsGroundable IsFrac64 numbering.now.typed.now.domain numbering.now.typed.now.problem }
    ensures plan { IfOk result (λ calls. IfSome (S.bytes shelf.old plan.now) (λ text.
        IsAccepted numbering.now.typed.now.domain numbering.now.typed.now.problem text keep calls.items)) }
    ensures stops { IfErr result (Stops source numbering.now.typed.now.domain numbering.now.typed.now.problem
        (S.bytes shelf.old plan.now) (S.faults shelf.old) (S.faults shelf.new)) }
    ensures reads { ReadsInOrder S.bytes S.picked S.rest S.picks (text_limit + 1) (plan.now ∷ []) shelf.old shelf.new }
    ensures keeps { KeepsFiles S.names S.bytes S.faults shelf.old shelf.new }
{
    let Ok(mut reader) = PlanReader::new(alloc, PlanForm::Untimed) else {
        return Err(Stop::NoMemory);
    };
    let Ok(play) = Play::begin(alloc, &*numbering, ground, source, keep) else {
        return Err(Stop::NoMemory);
    };
    let mut playing = Playing { play, ground };
    match play_file(&mut playing, &mut reader, alloc, shelf, plan, &mut ()) {
        Ok(()) => Ok(playing.play.take_calls(alloc)),
        Err(pause) => Err(paused(alloc, ground, pause)),
    }
}

// The same of a pair whose ground atoms and fluents are numbered.
fn numeric_numbered<S: Shelf>(
    alloc: Global,
    numbering: &Numbering,
    source: Source,
    shelf: &mut S,
    plan: &str,
    keep: bool,
) -> Result<Vec<Call>, Stop>
    requires level_two { beyond_level_two numbering.now.typed.now.domain numbering.now.typed.now.problem ≡ [] }
    ensures plan { IfOk result (λ calls. IfSome (S.bytes shelf.old plan.now) (λ text.
        IsAccepted numbering.now.typed.now.domain numbering.now.typed.now.problem text keep calls.items)) }
    ensures stops { IfErr result (Stops source numbering.now.typed.now.domain numbering.now.typed.now.problem
        (S.bytes shelf.old plan.now) (S.faults shelf.old) (S.faults shelf.new)) }
    ensures reads { ReadsInOrder S.bytes S.picked S.rest S.picks (text_limit + 1) (plan.now ∷ []) shelf.old shelf.new }
    ensures keeps { KeepsFiles S.names S.bytes S.faults shelf.old shelf.new }
{
    match ground::<Frac64>(alloc, numbering) {
        Ok(ground) => numeric_ground(alloc, numbering, &ground, source, shelf, plan, keep),
        Err(fault) => Err(ungrounded(alloc, source, fault)),
    }
}

/// Plays the plan without time under a name of the shelf, over the ground form of a pair, and answers its calls where they
/// are to be kept. Nothing beyond actions and numbers may stand in the pair: else it is refused at its place.
///
/// What is asked is one list of tests, in order. Where all pass, the lines of the text are a plan of the pair; where one
/// fails, the first is the verdict.
pub fn numeric<S: Shelf>(
    alloc: Global,
    typed: &Typed,
    source: Source,
    shelf: &mut S,
    plan: &str,
    keep: bool,
) -> Result<Vec<Call>, Stop>
    ensures plan { IfOk result (λ calls. IfSome (S.bytes shelf.old plan.now) (λ text.
        IsAccepted typed.now.domain typed.now.problem text keep calls.items)) }
    ensures stops { IfErr result (Stops source typed.now.domain typed.now.problem
        (S.bytes shelf.old plan.now) (S.faults shelf.old) (S.faults shelf.new)) }

    // Of the plan's file at most one byte past its limit is read, and of no other file any.
    ensures reads { ReadsInOrder S.bytes S.picked S.rest S.picks (text_limit + 1) (plan.now ∷ []) shelf.old shelf.new }
    ensures keeps { KeepsFiles S.names S.bytes S.faults shelf.old shelf.new }
{
    if let Some(place) = first_beyond(typed) {
        return Err(beyond(alloc, source, place));
    }
    match Numbering::new(alloc, typed) {
        Ok(numbering) => numeric_numbered(alloc, &numbering, source, shelf, plan, keep),
        Err(fault) => Err(ungrounded(alloc, source, fault)),
    }
}
