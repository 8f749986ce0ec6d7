//! The top call: from the words of the command line to what is written and the exit status.

ghost use Rattle.std.specs.Prelude.{◌≡◌, ◌≤◌, ◌+◌, map, string_bytes, Some};
ghost use Rattle.plus_io.specs.Files.{KeepsFiles};
ghost use Rattle.plus_io.specs.Picks.{ReadsInOrder};
ghost use Rattle.plus_io.specs.Limits.{text_limit};
ghost use Rattle.plus_reply.specs.Statuses.{Writes};
ghost use Rattle.plus_run.specs.Command.{command_of, files_of};
ghost use Rattle.plus_run.specs.Laws.{DecidesFor};
ghost use Rattle.plus_run.specs.Headline.{IsAnswer, usage_line};
ghost use Rattle.plus_run.specs.Meant.{meant};
ghost use Rattle.plus_run.specs.Stopping.{StopsRun, BreaksRun};

use crate::command::{Check, Command, parse};
use crate::numeric::numeric;
use crate::replies::{lift, plan, translate, trial, trim};
use crate::show::{show_domain, show_problem};
use plus_io::{Freeing, Shelf, Sink};
use plus_reply::pair::pair::{Refusal, pair, release};
use plus_reply::status::{refuse, tell};
use plus_report::Status;
use plus_validator::validate;
use std::alloc::Global;

// The words are no command.
fn usage<O: Sink>(out: &mut O) -> Status
    ensures writes { Writes usage_line Status.Usage (O.taken out.old) (O.taken out.new)
        (O.faults out.old) (O.faults out.new) result }
    ensures no_fall { O.faults out.old ≤ O.faults out.new }
{
    tell(out, b"usage: planplus COMMAND ARGUMENTS\n", Status::Usage)
}

// `check`: reads the pair, and checks the plan.
fn check<S: Shelf, O: Sink>(
    alloc: Global,
    files: Check<'_>,
    shelf: &mut S,
    out: &mut O,
    freeing: Freeing,
) -> Status
    ensures answers { IsAnswer (Some (meant (Command.Check files.entry))) (S.bytes shelf.old)
        (O.taken out.old) (O.taken out.new) (S.faults shelf.old) (S.faults shelf.new)
        (O.faults out.old) (O.faults out.new) result }
    ensures stops { result ≡ Status.ReadFault → StopsRun S.bytes S.picked S.rest S.picks
        (Some (meant (Command.Check files.entry))) shelf.old shelf.new (O.taken out.old) (O.taken out.new) }
    ensures keeps_up { result ≡ Status.WriteFault → BreaksRun S.bytes S.picked S.rest S.picks
        (Some (meant (Command.Check files.entry))) shelf.old shelf.new (O.taken out.old) (O.taken out.new) }
    ensures reads { ReadsInOrder S.bytes S.picked S.rest S.picks (text_limit + 1)
        (files_of (Some (meant (Command.Check files.entry)))) shelf.old shelf.new }
    ensures keeps { KeepsFiles S.names S.bytes S.faults shelf.old shelf.new }
    ensures no_fall { O.faults out.old ≤ O.faults out.new }
{
    match pair(alloc, shelf, files.domain, files.problem) {
        Ok(typed) => {
            let most = files.happenings.number;
            let outcome = validate(alloc, &typed, shelf, files.plan, out, most, freeing);
            release(typed, freeing);
            outcome.status()
        }
        Err(Refusal::Early(early)) => refuse(out, &early),
        Err(Refusal::ReadFault) => Status::ReadFault,
        Err(Refusal::NoMemory) => Status::NoMemory,
    }
}

// Carries out the command that the words mean.
fn carry_out<S: Shelf, O: Sink>(
    alloc: Global,
    words: &[String],
    shelf: &mut S,
    out: &mut O,
    freeing: Freeing,
) -> Status
    ensures answers { IsAnswer (command_of (map string_bytes words.now)) (S.bytes shelf.old)
        (O.taken out.old) (O.taken out.new) (S.faults shelf.old) (S.faults shelf.new)
        (O.faults out.old) (O.faults out.new) result }
    ensures stops { result ≡ Status.ReadFault → StopsRun S.bytes S.picked S.rest S.picks
        (command_of (map string_bytes words.now)) shelf.old shelf.new (O.taken out.old) (O.taken out.new) }
    ensures keeps_up { result ≡ Status.WriteFault → BreaksRun S.bytes S.picked S.rest S.picks
        (command_of (map string_bytes words.now)) shelf.old shelf.new (O.taken out.old) (O.taken out.new) }
    ensures reads { ReadsInOrder S.bytes S.picked S.rest S.picks (text_limit + 1)
        (files_of (command_of (map string_bytes words.now))) shelf.old shelf.new }
    ensures keeps { KeepsFiles S.names S.bytes S.faults shelf.old shelf.new }
    ensures no_fall { O.faults out.old ≤ O.faults out.new }
{
    match parse(words) {
        None => usage(out),
        Some(Command::Check(files)) => check(alloc, files, shelf, out, freeing),
        Some(Command::ShowDomain(file)) => show_domain(alloc, file, shelf, out),
        Some(Command::ShowProblem(file)) => show_problem(alloc, file, shelf, out),
        Some(Command::Numeric(files)) => numeric(alloc, files, shelf, out),
        Some(Command::Trial(tanks)) => trial(alloc, tanks, out, freeing),
        Some(Command::Translate(file, words)) => translate(alloc, file, words, shelf, out),
        Some(Command::Lift(words)) => lift(alloc, words, shelf, out),
        Some(Command::Plan(words)) => plan(alloc, words, shelf, out),
        Some(Command::Trim(files)) => trim(alloc, files, shelf, out),
    }
}

/// Carries out the command that the words mean: reads the files that it names from the shelf,
/// writes to the sink, and answers the status. What `check` and `trial` made is let go as `freeing`
/// says; the other commands free what they made.
pub fn run<S: Shelf, O: Sink>(
    alloc: Global,
    words: &[String],
    shelf: &mut S,
    out: &mut O,
    freeing: Freeing,
) -> Status
    // What the status tells: of a plan, that exactly one trajectory has its actions and the report is
    // its text, or that the plan is refused, why, and behind which report; of a fault, that it came.
    ensures answers { IsAnswer (command_of (map string_bytes words.now)) (S.bytes shelf.old)
        (O.taken out.old) (O.taken out.new) (S.faults shelf.old) (S.faults shelf.new)
        (O.faults out.old) (O.faults out.new) result }

    // Where a file failed, it tells exactly what is out: of a check the report of all lines of the plan
    // that were read whole, and of every other command nothing.
    ensures stops { result ≡ Status.ReadFault → StopsRun S.bytes S.picked S.rest S.picks
        (command_of (map string_bytes words.now)) shelf.old shelf.new (O.taken out.old) (O.taken out.new) }

    // Where the sink failed in a check, at most one piece of the plan was read behind the lines whose
    // report is out.
    ensures keeps_up { result ≡ Status.WriteFault → BreaksRun S.bytes S.picked S.rest S.picks
        (command_of (map string_bytes words.now)) shelf.old shelf.new (O.taken out.old) (O.taken out.new) }

    // Of a plan that stays inside the limits it tells whether there is a trajectory.
    ensures decides { DecidesFor (command_of (map string_bytes words.now)) (S.bytes shelf.old) result }

    // It reads the files that the words name and no other, in the order of the words and each once,
    // and of each at most one byte past the limit of a text.
    ensures reads { ReadsInOrder S.bytes S.picked S.rest S.picks (text_limit + 1)
        (files_of (command_of (map string_bytes words.now))) shelf.old shelf.new }
    ensures keeps { KeepsFiles S.names S.bytes S.faults shelf.old shelf.new }
    ensures no_fall { O.faults out.old ≤ O.faults out.new }
{
    carry_out(alloc, words, shelf, out, freeing)
}
