//! From the bytes of a plan to its report and its verdict.
ghost use Rattle.std.specs.Prelude.{◌≡◌, ◌⊎◌, ◌≤◌, ◌+◌, [], ◌∷◌, IfErr, IfSome};
ghost use Rattle.plus_expansion.specs.Counting.{IsGroundable};
ghost use Rattle.plus_io.specs.Files.{KeepsFiles};
ghost use Rattle.plus_io.specs.Picks.{ReadsInOrder};
ghost use Rattle.plus_io.specs.Limits.{text_limit, most_happenings};
ghost use Rattle.plus_validator.specs.Validates.{Accepts, Refuses, RefusesPair, RefusesPairInPart, IsRefusal, EndsUngrounded};
ghost use Rattle.plus_validator.specs.Leaving.{StopsReading, StopsWriting, LeavesReport, KeepsUp};
ghost use Rattle.plus_validator.specs.Halts.{HaltFits};
ghost use Rattle.plus_validator.specs.Judged.{Concludes};
ghost use Rattle.plus_validator.specs.Playing.{IsGroundOf};
ghost use Rattle.plus_state.specs.View.{problem_of, labels_of};
ghost use Rattle.plus_ground.specs.Refusals.{RefusesGround};
ghost use Rattle.plus_tree.specs.declared.trees.Domain.{Domain};
ghost use Rattle.plus_tree.specs.declared.trees.Problem.{Problem};
ghost use Rattle.plus_number.specs.Frac.{fraction_of, IsFrac64};
ghost use Rattle.plus_io.specs.Faults.{Rose};

use crate::halt::Halt;
use crate::judge::Outcome;
use crate::judgement::sum_up;
use crate::memory::Report;
use crate::playing::Playing;
use crate::run::Run;
use crate::stream::{Ending, play_plan};
use crate::ungrounded::early_of;
use plus_ground::ground;
use plus_instances::Instances;
use plus_io::{Freeing, Shelf, Sink, write_all};
use plus_number::frac::Frac64;
use plus_numbering::{GroundFault, Numbering};
use plus_plan::{PlanForm, PlanReader};
use plus_report::write_early;
use plus_state::problem::Ground;
use plus_types::Typed;
use std::alloc::Global;

// Writes why the pair is not grounded.
fn refuse<O: Sink>(out: &mut O, fault: GroundFault) -> Outcome
    ensures refused { (d : Domain) (p : Problem) → RefusesGround IsFrac64 d p fault →
        EndsUngrounded d p (O.faults out.old) (O.faults out.new) (O.taken out.old) (O.taken out.new) result }
    ensures no_fall { O.faults out.old ≤ O.faults out.new }
{
    let Some(early) = early_of(fault) else {
        return Outcome::NoMemory;
    };
    match write_early(out, &early) {
        Ok(()) => Outcome::Beyond,
        Err(_) => Outcome::WriteFault,
    }
}

// Writes what is left of the report of a plan that was played, and its verdict line.
fn conclude<O: Sink>(
    alloc: Global,
    ground: &Ground<Frac64>,
    run: &mut Run<Report>,
    played: Result<(), Halt>,
    out: &mut O,
) -> Outcome
    requires fits { IfErr played (HaltFits (problem_of fraction_of ground.now)) }
    ensures concludes { Concludes (labels_of ground.now) (problem_of fraction_of ground.now) run.old played
        (O.faults out.old) (O.faults out.new) (O.taken out.old) (O.taken out.new) result }
    ensures no_fall { O.faults out.old ≤ O.faults out.new }
{
    let Ok(judgement) = sum_up(alloc, ground, run, played) else {
        return Outcome::NoMemory;
    };
    match write_all(out, &judgement.bytes) {
        Ok(()) => judgement.outcome,
        Err(_) => Outcome::WriteFault,
    }
}

// Checks the plan of a ground pair.
fn validate_ground<S: Shelf, O: Sink>(
    alloc: Global,
    numbering: &Numbering,
    ground: &Ground<Frac64>,
    shelf: &mut S,
    plan: &str,
    out: &mut O,
    happenings: u64,
    freeing: Freeing,
) -> Outcome
    requires expands { IsGroundOf numbering.now.typed.now.domain numbering.now.typed.now.problem ground.now }
    requires groundable { IsGroundable IsFrac64 numbering.now.typed.now.domain numbering.now.typed.now.problem }
    requires some { 1 ≤ happenings }
    ensures valid { result ≡ Outcome.Valid → IfSome (S.bytes shelf.old plan.now) (λ text.
        Accepts numbering.now.typed.now.domain numbering.now.typed.now.problem happenings text (O.taken out.old) (O.taken out.new)) }
    ensures refused { IsRefusal result → IfSome (S.bytes shelf.old plan.now) (λ text.
        Refuses numbering.now.typed.now.domain numbering.now.typed.now.problem happenings text result (O.taken out.old) (O.taken out.new)) }

    // A fault is answered only where it came. It leaves a part of what was to be written: one of the shelf
    // the report for all whole lines that were read, one of the sink not all of what was due.
    ensures read_fault { result ≡ Outcome.ReadFault →
        Rose (S.faults shelf.old) (S.faults shelf.new)
        × StopsReading numbering.now.typed.now.domain numbering.now.typed.now.problem happenings
        (S.bytes shelf.old plan.now) (S.picked shelf.new) (S.rest shelf.new) (O.taken out.old) (O.taken out.new) }
    ensures write_fault { result ≡ Outcome.WriteFault →
        Rose (O.faults out.old) (O.faults out.new)
        × StopsWriting numbering.now.typed.now.domain numbering.now.typed.now.problem happenings (S.bytes shelf.old plan.now) (O.taken out.old) (O.taken out.new) }
    ensures no_memory { result ≡ Outcome.NoMemory → LeavesReport numbering.now.typed.now.domain numbering.now.typed.now.problem happenings
        (S.bytes shelf.old plan.now) (O.taken out.old) (O.taken out.new) }

    // Where the sink failed, the reading was ahead of the report by one piece at most.
    ensures keeps_up { result ≡ Outcome.WriteFault →
        KeepsUp numbering.now.typed.now.domain numbering.now.typed.now.problem happenings (S.bytes shelf.old plan.now) (S.rest shelf.new) (O.taken out.old) (O.taken out.new) }

    // Of the plan's file at most one byte past its limit is read, and of no other file any.
    ensures reads { ReadsInOrder S.bytes S.picked S.rest S.picks (text_limit + 1) (plan.now ∷ []) shelf.old shelf.new }
    ensures keeps { KeepsFiles S.names S.bytes S.faults shelf.old shelf.new }
    ensures no_fall { O.faults out.old ≤ O.faults out.new }
{
    let Ok(mut reader) = PlanReader::new(alloc, PlanForm::Timed) else {
        return Outcome::NoMemory;
    };
    let Ok(run) = Run::begin(alloc, ground, Report::new(alloc), happenings) else {
        return Outcome::NoMemory;
    };
    let instances = Instances::new(alloc, &*numbering);
    let mut playing = Playing {
        run,
        instances,
        ground,
    };
    // What is played is let go by a call: what drops it is long, and would stand here at each way out.
    match play_plan(
        &mut playing,
        &mut reader,
        alloc,
        shelf,
        plan,
        out,
        happenings,
    ) {
        Ending::ReadFault => {
            freeing.let_go(playing);
            Outcome::ReadFault
        }
        Ending::WriteFault => {
            freeing.let_go(playing);
            Outcome::WriteFault
        }
        Ending::Played(played) => {
            let outcome = conclude(alloc, ground, &mut playing.run, played, out);
            freeing.let_go(playing);
            outcome
        }
    }
}

// Checks the plan of a pair whose ground atoms and fluents are numbered.
fn validate_numbered<S: Shelf, O: Sink>(
    alloc: Global,
    numbering: &Numbering,
    shelf: &mut S,
    plan: &str,
    out: &mut O,
    happenings: u64,
    freeing: Freeing,
) -> Outcome
    requires some { 1 ≤ happenings }
    requires few { happenings ≤ most_happenings }
    ensures valid { result ≡ Outcome.Valid → IfSome (S.bytes shelf.old plan.now) (λ text.
        Accepts numbering.now.typed.now.domain numbering.now.typed.now.problem happenings text (O.taken out.old) (O.taken out.new)) }
    // The pair is not grounded, or the plan is refused.
    ensures refused { IsRefusal result →
        ((result ≡ Outcome.Beyond) × RefusesPair numbering.now.typed.now.domain numbering.now.typed.now.problem (O.taken out.old) (O.taken out.new))
        ⊎ IfSome (S.bytes shelf.old plan.now) (λ text.
        Refuses numbering.now.typed.now.domain numbering.now.typed.now.problem happenings text result (O.taken out.old) (O.taken out.new)) }

    // A fault is answered only where it came. It leaves a part of what was to be written: one of the shelf
    // the report for all whole lines that were read, one of the sink not all of what was due.
    ensures read_fault { result ≡ Outcome.ReadFault →
        Rose (S.faults shelf.old) (S.faults shelf.new)
        × StopsReading numbering.now.typed.now.domain numbering.now.typed.now.problem happenings
        (S.bytes shelf.old plan.now) (S.picked shelf.new) (S.rest shelf.new) (O.taken out.old) (O.taken out.new) }
    ensures write_fault { result ≡ Outcome.WriteFault →
        Rose (O.faults out.old) (O.faults out.new)
        × (RefusesPairInPart numbering.now.typed.now.domain numbering.now.typed.now.problem (O.taken out.old) (O.taken out.new)
        ⊎ StopsWriting numbering.now.typed.now.domain numbering.now.typed.now.problem happenings (S.bytes shelf.old plan.now) (O.taken out.old) (O.taken out.new)) }
    ensures no_memory { result ≡ Outcome.NoMemory → LeavesReport numbering.now.typed.now.domain numbering.now.typed.now.problem happenings
        (S.bytes shelf.old plan.now) (O.taken out.old) (O.taken out.new) }

    // Where the sink failed, the reading was ahead of the report by one piece at most.
    ensures keeps_up { result ≡ Outcome.WriteFault →
        RefusesPairInPart numbering.now.typed.now.domain numbering.now.typed.now.problem (O.taken out.old) (O.taken out.new)
        ⊎ KeepsUp numbering.now.typed.now.domain numbering.now.typed.now.problem happenings (S.bytes shelf.old plan.now) (S.rest shelf.new) (O.taken out.old) (O.taken out.new) }

    // Of the plan's file at most one byte past its limit is read, and of no other file any.
    ensures reads { ReadsInOrder S.bytes S.picked S.rest S.picks (text_limit + 1) (plan.now ∷ []) shelf.old shelf.new }
    ensures keeps { KeepsFiles S.names S.bytes S.faults shelf.old shelf.new }
    ensures no_fall { O.faults out.old ≤ O.faults out.new }
{
    let ground = match ground::<Frac64>(alloc, numbering) {
        Ok(ground) => ground,
        Err(fault) => return refuse(out, fault),
    };
    let outcome = validate_ground(
        alloc, numbering, &ground, shelf, plan, out, happenings, freeing,
    );
    freeing.let_go(ground);
    outcome
}

/// Checks the plan under a name of the shelf, and writes its report as the plan is read, and its verdict line.
/// `happenings` is how many moments it may enter.
pub fn validate<S: Shelf, O: Sink>(
    alloc: Global,
    typed: &Typed,
    shelf: &mut S,
    plan: &str,
    out: &mut O,
    happenings: u64,
    freeing: Freeing,
) -> Outcome
    requires some { 1 ≤ happenings }
    requires few { happenings ≤ most_happenings }
    ensures valid { result ≡ Outcome.Valid → IfSome (S.bytes shelf.old plan.now) (λ text.
        Accepts typed.now.domain typed.now.problem happenings text (O.taken out.old) (O.taken out.new)) }
    // The pair is not grounded, or the plan is refused.
    ensures refused { IsRefusal result →
        ((result ≡ Outcome.Beyond) × RefusesPair typed.now.domain typed.now.problem (O.taken out.old) (O.taken out.new))
        ⊎ IfSome (S.bytes shelf.old plan.now) (λ text.
        Refuses typed.now.domain typed.now.problem happenings text result (O.taken out.old) (O.taken out.new)) }

    // A fault is answered only where it came. It leaves a part of what was to be written: one of the shelf
    // the report for all whole lines that were read, one of the sink not all of what was due.
    ensures read_fault { result ≡ Outcome.ReadFault →
        Rose (S.faults shelf.old) (S.faults shelf.new)
        × StopsReading typed.now.domain typed.now.problem happenings
        (S.bytes shelf.old plan.now) (S.picked shelf.new) (S.rest shelf.new) (O.taken out.old) (O.taken out.new) }
    ensures write_fault { result ≡ Outcome.WriteFault →
        Rose (O.faults out.old) (O.faults out.new)
        × (RefusesPairInPart typed.now.domain typed.now.problem (O.taken out.old) (O.taken out.new)
        ⊎ StopsWriting typed.now.domain typed.now.problem happenings (S.bytes shelf.old plan.now) (O.taken out.old) (O.taken out.new)) }
    ensures no_memory { result ≡ Outcome.NoMemory → LeavesReport typed.now.domain typed.now.problem happenings
        (S.bytes shelf.old plan.now) (O.taken out.old) (O.taken out.new) }

    // Where the sink failed, the reading was ahead of the report by one piece at most.
    ensures keeps_up { result ≡ Outcome.WriteFault →
        RefusesPairInPart typed.now.domain typed.now.problem (O.taken out.old) (O.taken out.new)
        ⊎ KeepsUp typed.now.domain typed.now.problem happenings (S.bytes shelf.old plan.now) (S.rest shelf.new) (O.taken out.old) (O.taken out.new) }

    // Of the plan's file at most one byte past its limit is read, and of no other file any.
    ensures reads { ReadsInOrder S.bytes S.picked S.rest S.picks (text_limit + 1) (plan.now ∷ []) shelf.old shelf.new }
    ensures keeps { KeepsFiles S.names S.bytes S.faults shelf.old shelf.new }
    ensures no_fall { O.faults out.old ≤ O.faults out.new }
{
    match Numbering::new(alloc, typed) {
        Ok(numbering) => {
            validate_numbered(alloc, &numbering, shelf, plan, out, happenings, freeing)
        }
        Err(fault) => refuse(out, fault),
    }
}
