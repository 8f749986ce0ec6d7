//! The commands that have one reply.

ghost use Rattle.std.specs.Prelude.{◌≡◌, ℕ, ◌≤◌, ◌+◌, List, Option, [], ◌∷◌, Some};
ghost use Rattle.plus_io.specs.Files.{KeepsFiles};
ghost use Rattle.plus_io.specs.Picks.{ReadsInOrder};
ghost use Rattle.plus_io.specs.Limits.{text_limit};
ghost use Rattle.plus_run.specs.Command.{Trial};
ghost use Rattle.plus_run.specs.Headline.{IsAnswer};
ghost use Rattle.plus_run.specs.Meant.{meant};

use crate::command::{Command, LiftFiles, PlanFiles, Searched, Stepped};
use plus_io::{Freeing, Shelf, Sink};
use plus_reply::reply::give;
use plus_report::Status;
use plus_types::File;
use plus_words::tanks::Tanks;
use std::alloc::Global;

/// `trial`: writes the line that sums up the check of a farm of so many tanks. No file is read.
pub fn trial<O: Sink>(alloc: Global, tanks: Tanks, out: &mut O, freeing: Freeing) -> Status
    ensures answers { (bytes : List ℕ → Option (List ℕ)) (before now : ℕ)
        → IsAnswer (Some (Trial tanks.number)) bytes (O.taken out.old) (O.taken out.new) before now
        (O.faults out.old) (O.faults out.new) result }
    ensures no_fall { O.faults out.old ≤ O.faults out.new }
{
    let reply = plus_trial::command::answer(alloc, tanks, freeing);
    give(out, &reply)
}

/// `translate`: writes one half of the translation of a pair.
pub fn translate<S: Shelf, O: Sink>(
    alloc: Global,
    file: File,
    words: Stepped<'_>,
    shelf: &mut S,
    out: &mut O,
) -> Status
    ensures answers { IsAnswer (Some (meant (Command.Translate file words.entry))) (S.bytes shelf.old)
        (O.taken out.old) (O.taken out.new) (S.faults shelf.old) (S.faults shelf.new)
        (O.faults out.old) (O.faults out.new) result }
    ensures reads { ReadsInOrder S.bytes S.picked S.rest S.picks (text_limit + 1)
        (words.entry.domain.now ∷ words.entry.problem.now ∷ []) shelf.old shelf.new }
    ensures keeps { KeepsFiles S.names S.bytes S.faults shelf.old shelf.new }
    ensures no_fall { O.faults out.old ≤ O.faults out.new }
{
    let reply = plus_translate_command::answer(
        alloc,
        file,
        words.interval,
        words.domain,
        words.problem,
        shelf,
    );
    plus_translate_command::give(out, &reply)
}

/// `lift`: writes the timed plan that an untimed plan of the translation stands for, and the verdict on it.
pub fn lift<S: Shelf, O: Sink>(
    alloc: Global,
    words: LiftFiles<'_>,
    shelf: &mut S,
    out: &mut O,
) -> Status
    ensures answers { IsAnswer (Some (meant (Command.Lift words.entry))) (S.bytes shelf.old)
        (O.taken out.old) (O.taken out.new) (S.faults shelf.old) (S.faults shelf.new)
        (O.faults out.old) (O.faults out.new) result }
    ensures reads { ReadsInOrder S.bytes S.picked S.rest S.picks (text_limit + 1)
        (words.entry.domain.now ∷ words.entry.problem.now ∷ words.entry.plan.now ∷ []) shelf.old shelf.new }
    ensures keeps { KeepsFiles S.names S.bytes S.faults shelf.old shelf.new }
    ensures no_fall { O.faults out.old ≤ O.faults out.new }
{
    let reply = plus_lift::command::answer(
        alloc,
        words.interval,
        words.domain,
        words.problem,
        words.plan,
        shelf,
    );
    give(out, &reply)
}

/// `plan`: searches for a plan of a pair, and writes it, or the line that says why there is none.
pub fn plan<S: Shelf, O: Sink>(
    alloc: Global,
    words: Searched<'_>,
    shelf: &mut S,
    out: &mut O,
) -> Status
    ensures answers { IsAnswer (Some (meant (Command.Plan words.entry))) (S.bytes shelf.old)
        (O.taken out.old) (O.taken out.new) (S.faults shelf.old) (S.faults shelf.new)
        (O.faults out.old) (O.faults out.new) result }
    ensures reads { ReadsInOrder S.bytes S.picked S.rest S.picks (text_limit + 1)
        (words.entry.domain.now ∷ words.entry.problem.now ∷ []) shelf.old shelf.new }
    ensures keeps { KeepsFiles S.names S.bytes S.faults shelf.old shelf.new }
    ensures no_fall { O.faults out.old ≤ O.faults out.new }
{
    let reply = plus_plan_command::answer(alloc, words.search, words.domain, words.problem, shelf);
    give(out, &reply)
}

/// `trim`: writes what is kept of a valid plan, or the verdict on the plan.
pub fn trim<S: Shelf, O: Sink>(
    alloc: Global,
    files: PlanFiles<'_>,
    shelf: &mut S,
    out: &mut O,
) -> Status
    ensures answers { IsAnswer (Some (meant (Command.Trim files.entry))) (S.bytes shelf.old)
        (O.taken out.old) (O.taken out.new) (S.faults shelf.old) (S.faults shelf.new)
        (O.faults out.old) (O.faults out.new) result }
    ensures reads { ReadsInOrder S.bytes S.picked S.rest S.picks (text_limit + 1)
        (files.entry.domain.now ∷ files.entry.problem.now ∷ files.entry.plan.now ∷ []) shelf.old shelf.new }
    ensures keeps { KeepsFiles S.names S.bytes S.faults shelf.old shelf.new }
    ensures no_fall { O.faults out.old ≤ O.faults out.new }
{
    let reply = plus_trim_command::answer(alloc, files.domain, files.problem, files.plan, shelf);
    give(out, &reply)
}
