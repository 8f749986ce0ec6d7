//! planplus validates timed plans for PDDL+ problems, with exact fractions.
#![tactic(auto)]

mod files;
mod screen;

ghost use Rattle.std.specs.Prelude.{◌≡◌, ◌⊎◌, ◌≤◌, ◌+◌, map, string_bytes, None};
ghost use Rattle.std.specs.Process.{exit_status};
ghost use Rattle.plus_io.specs.Files.{KeepsFiles};
ghost use Rattle.plus_io.specs.Limits.{text_limit};
ghost use Rattle.plus_io.specs.Picks.{ReadsInOrder};
ghost use Rattle.plus_run.specs.Command.{command_of, files_of};
ghost use Rattle.plus_run.specs.Headline.{IsAnswer, EndsWith, MayEnd};
ghost use Rattle.plus_run.specs.Laws.{DecidesFor};
ghost use Rattle.plus_run.specs.Stopping.{StopsRun, BreaksRun};

use files::shelf_for;
use plus_causes::explain;
use plus_explain::{Ending, Kept};
use plus_io::{Freeing, Shelf, Sink};
use plus_report::Status;
use plus_run::run::run;
use screen::StdSink;
use std::alloc::Global;
use std::env::Env;
use std::fs::Files;
use std::process::ExitCode;
use std::{env, io};

// The exit status where memory is wanting, and where the words cannot be read.
const NO_MEMORY: u8 = 7;

const NO_WORDS: u8 = 4;

// The words behind the program's name.
fn words<R: Env + AllocGlobal>(rt: &R) -> io::Result<Vec<String>> {
    let mut words = Vec::new(rt.alloc());
    for word in env::args(rt)?.skip(1) {
        words.push(word)?;
    }
    Ok(words)
}

// Carries out the words, and ends with the number of the status.
fn conclude<S: Shelf, O: Sink>(
    alloc: Global,
    words: &[String],
    shelf: &mut S,
    out: &mut O,
) -> ExitCode
    ensures answers { EndsWith (exit_status result) (IsAnswer (command_of (map string_bytes words.now))
        (S.bytes shelf.old) (O.taken out.old) (O.taken out.new) (S.faults shelf.old)
        (S.faults shelf.new) (O.faults out.old) (O.faults out.new)) }
    ensures stops { EndsWith (exit_status result) (λ status. status ≡ Status.ReadFault
        → StopsRun S.bytes S.picked S.rest S.picks (command_of (map string_bytes words.now))
        shelf.old shelf.new (O.taken out.old) (O.taken out.new)) }
    ensures keeps_up { EndsWith (exit_status result) (λ status. status ≡ Status.WriteFault
        → BreaksRun S.bytes S.picked S.rest S.picks (command_of (map string_bytes words.now))
        shelf.old shelf.new (O.taken out.old) (O.taken out.new)) }
    ensures decides { EndsWith (exit_status result)
        (DecidesFor (command_of (map string_bytes words.now)) (S.bytes shelf.old)) }
    ensures reads { ReadsInOrder S.bytes S.picked S.rest S.picks (text_limit + 1)
        (files_of (command_of (map string_bytes words.now))) shelf.old shelf.new }
    ensures keeps { KeepsFiles S.names S.bytes S.faults shelf.old shelf.new }
    ensures no_fall { O.faults out.old ≤ O.faults out.new }
{
    run(alloc, words, shelf, out, Freeing::AtExit).exit_code()
}

// Carries out the words over their files and the standard output, and says on the standard error why
// they were answered so.
fn perform<R: Files + Print + Eprint>(rt: &R, alloc: Global, words: &[String]) -> ExitCode
    // Words that are no command end so, unless the output failed or there was no memory.
    ensures no_command { command_of (map string_bytes words.now) ≡ None →
        (exit_status result ≡ 4) ⊎ (exit_status result ≡ 6) ⊎ (exit_status result ≡ 7) }
    // No other words end so.
    ensures usage { exit_status result ≡ 4 → command_of (map string_bytes words.now) ≡ None }
    // There was no memory to begin, or these words may be answered so.
    ensures allowed { (exit_status result ≡ 7)
        ⊎ MayEnd (command_of (map string_bytes words.now)) (exit_status result) }
{
    match shelf_for(rt, alloc, words) {
        Ok(shelf) => {
            let mut shelf = Kept::new(alloc, shelf);
            let mut out = Ending::new(alloc, StdSink::new(rt));
            let code = conclude(alloc, words, &mut shelf, &mut out);
            explain(rt, alloc, words, &shelf, &out, code);
            code
        }
        Err(_) => ExitCode::from(NO_MEMORY),
    }
}

fn main(rt: HostRuntime) -> ExitCode {
    match words(&rt) {
        Ok(words) => perform(&rt, rt.alloc(), &words),
        Err(e) if e.kind() == io::ErrorKind::OutOfMemory => ExitCode::from(NO_MEMORY),
        Err(_) => ExitCode::from(NO_WORDS),
    }
}
