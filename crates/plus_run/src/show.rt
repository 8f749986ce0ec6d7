//! The command `show`: from a text to the canonical text of its tree.

ghost use Rattle.std.specs.Prelude.{◌≡◌, ◌≤◌, ◌+◌, [], ◌∷◌, Some, IfOk};
ghost use Rattle.plus_io.specs.Files.{KeepsFiles};
ghost use Rattle.plus_io.specs.Picks.{ReadsInOrder};
ghost use Rattle.plus_printer.specs.Canon.{domain_text, problem_text};
ghost use Rattle.plus_io.specs.Limits.{text_limit};
ghost use Rattle.plus_run.specs.Command.{ShowDomain, ShowProblem};
ghost use Rattle.plus_reply.specs.Statuses.{Writes};
ghost use Rattle.plus_run.specs.Headline.{IsAnswer};

use plus_io::{Shelf, Sink};
use plus_reply::canonical::{domain_text, problem_text};
use plus_reply::pair::pair::{
    Refusal, domain_under, problem_under, release_domain, release_problem,
};
use plus_reply::status::{refuse, tell};
use plus_report::Status;
use std::alloc::Global;

/// `show domain`: reads a domain, and writes its canonical text.
pub fn show_domain<S: Shelf, O: Sink>(
    alloc: Global,
    name: &str,
    shelf: &mut S,
    out: &mut O,
) -> Status
    ensures answers { IsAnswer (Some (ShowDomain name.now)) (S.bytes shelf.old)
        (O.taken out.old) (O.taken out.new) (S.faults shelf.old) (S.faults shelf.new)
        (O.faults out.old) (O.faults out.new) result }
    ensures reads { ReadsInOrder S.bytes S.picked S.rest S.picks (text_limit + 1) (name.now ∷ []) shelf.old shelf.new }
    ensures keeps { KeepsFiles S.names S.bytes S.faults shelf.old shelf.new }
    ensures no_fall { O.faults out.old ≤ O.faults out.new }
{
    match domain_under(alloc, shelf, name) {
        Ok(domain) => {
            let shown = domain_text(alloc, &domain);
            release_domain(domain);
            match shown {
                Ok(text) => tell(out, &text, Status::Valid),
                Err(_) => Status::NoMemory,
            }
        }
        Err(Refusal::Early(early)) => refuse(out, &early),
        Err(Refusal::ReadFault) => Status::ReadFault,
        Err(Refusal::NoMemory) => Status::NoMemory,
    }
}

/// `show problem`: reads a problem, and writes its canonical text.
pub fn show_problem<S: Shelf, O: Sink>(
    alloc: Global,
    name: &str,
    shelf: &mut S,
    out: &mut O,
) -> Status
    ensures answers { IsAnswer (Some (ShowProblem name.now)) (S.bytes shelf.old)
        (O.taken out.old) (O.taken out.new) (S.faults shelf.old) (S.faults shelf.new)
        (O.faults out.old) (O.faults out.new) result }
    ensures reads { ReadsInOrder S.bytes S.picked S.rest S.picks (text_limit + 1) (name.now ∷ []) shelf.old shelf.new }
    ensures keeps { KeepsFiles S.names S.bytes S.faults shelf.old shelf.new }
    ensures no_fall { O.faults out.old ≤ O.faults out.new }
{
    match problem_under(alloc, shelf, name) {
        Ok(problem) => {
            let shown = problem_text(alloc, &problem);
            release_problem(problem);
            match shown {
                Ok(text) => tell(out, &text, Status::Valid),
                Err(_) => Status::NoMemory,
            }
        }
        Err(Refusal::Early(early)) => refuse(out, &early),
        Err(Refusal::ReadFault) => Status::ReadFault,
        Err(Refusal::NoMemory) => Status::NoMemory,
    }
}
