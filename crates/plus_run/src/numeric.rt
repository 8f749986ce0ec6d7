//! The command `numeric`: a plan without time.

ghost use Rattle.std.specs.Prelude.{◌≡◌, ℕ, ◌≤◌, ◌+◌, List, [], ◌∷◌, Some};
ghost use Rattle.plus_io.specs.Files.{KeepsFiles};
ghost use Rattle.plus_io.specs.Picks.{ReadsInOrder};
ghost use Rattle.plus_io.specs.Limits.{text_limit};
ghost use Rattle.plus_reply.specs.Pair.Reads.{ReadsPair};
ghost use Rattle.plus_run.specs.Command.{Numeric};
ghost use Rattle.plus_run.specs.Headline.{IsAnswer};

use crate::command::PlanFiles;
use plus_io::{Freeing, Shelf, Sink};
use plus_numeric::{Source, Stop};
use plus_reply::pair::pair::{Refusal, pair, release};
use plus_reply::status::{refuse, tell};
use plus_report::Status;
use plus_types::Typed;
use std::alloc::Global;

// Plays the plan of a pair that two texts spell.
fn play<S: Shelf, O: Sink>(
    alloc: Global,
    typed: &Typed,
    shelf: &mut S,
    plan: &str,
    out: &mut O,
) -> Status
    ensures answers { (domain problem : List ℕ) (before : ℕ)
        → ReadsPair (S.bytes shelf.old domain) (S.bytes shelf.old problem) typed.now.domain typed.now.problem
        → before ≤ S.faults shelf.old
        → IsAnswer (Some (Numeric domain problem plan.now)) (S.bytes shelf.old) (O.taken out.old) (O.taken out.new)
        before (S.faults shelf.new) (O.faults out.old) (O.faults out.new) result }
    ensures reads { ReadsInOrder S.bytes S.picked S.rest S.picks (text_limit + 1) (plan.now ∷ []) shelf.old shelf.new }
    ensures keeps { KeepsFiles S.names S.bytes S.faults shelf.old shelf.new }
    ensures no_fall { O.faults out.old ≤ O.faults out.new }
{
    match plus_numeric::numeric(alloc, typed, Source::Given, shelf, plan, false) {
        Ok(_) => tell(out, b"valid\n", Status::Valid),
        Err(Stop::Refused(refused)) => tell(out, &refused.line, refused.kind.status()),
        Err(Stop::ReadFault) => Status::ReadFault,
        Err(Stop::NoMemory) => Status::NoMemory,
    }
}

/// `numeric`: reads the pair, and plays a plan without time.
pub fn numeric<S: Shelf, O: Sink>(
    alloc: Global,
    files: PlanFiles<'_>,
    shelf: &mut S,
    out: &mut O,
) -> Status
    ensures answers { IsAnswer (Some (Numeric files.entry.domain.now files.entry.problem.now files.entry.plan.now)) (S.bytes shelf.old)
        (O.taken out.old) (O.taken out.new) (S.faults shelf.old) (S.faults shelf.new)
        (O.faults out.old) (O.faults out.new) result }
    ensures reads { ReadsInOrder S.bytes S.picked S.rest S.picks (text_limit + 1)
        (files.entry.domain.now ∷ files.entry.problem.now ∷ files.entry.plan.now ∷ []) shelf.old shelf.new }
    ensures keeps { KeepsFiles S.names S.bytes S.faults shelf.old shelf.new }
    ensures no_fall { O.faults out.old ≤ O.faults out.new }
{
    match pair(alloc, shelf, files.domain, files.problem) {
        Ok(typed) => {
            let status = play(alloc, &typed, shelf, files.plan, out);
            release(typed, Freeing::Now);
            status
        }
        Err(Refusal::Early(early)) => refuse(out, &early),
        Err(Refusal::ReadFault) => Status::ReadFault,
        Err(Refusal::NoMemory) => Status::NoMemory,
    }
}
