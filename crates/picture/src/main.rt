//! planplus-picture draws what happens when a plan is played.
#![tactic(auto)]

mod files;
mod reasons;
mod showing;

use files::shelf;
use plus_explain::{Ending, Kept};
use plus_io::{Freeing, MemShelf, QuietSink};
use plus_picture::Asked;
use plus_reply::pair::pair::{Refusal, pair, release, text_of};
use plus_reply::status::{refuse, tell};
use plus_report::{Status, Text};
use plus_types::Typed;
use reasons::tell_reasons;
use showing::{Shown, picture_of};
use std::alloc::{AllocError, Global};
use std::env::Env;
use std::fs::Files;
use std::process::ExitCode;
use std::{env, io, str};

/// What words that ask for no picture are answered with.
const USAGE: &str =
    "usage: planplus-picture DOMAIN PROBLEM PLAN [--from T] [--to T] [--only NAME ..] [--happenings N]\n";

// The words behind the program's name.
fn words<R: Env + AllocGlobal>(rt: &R) -> io::Result<Vec<String>> {
    let mut words = Vec::new(rt.alloc());
    for word in env::args(rt)?.skip(1) {
        words.push(word)?;
    }
    Ok(words)
}

// Writes a picture and tells the verdict, and answers the status.
fn put<R: Print>(rt: &R, shown: &Shown, told: &mut Ending<QuietSink>) -> Status {
    let is_out = match str::from_utf8(&shown.picture) {
        Ok(text) => rt.print(text).is_ok(),
        Err(_) => false,
    };
    if is_out {
        tell(told, &shown.judged.line, shown.judged.outcome().status())
    } else {
        Status::WriteFault
    }
}

// Plays a plan of a pair, and writes its picture.
fn draw_plan<R: Print>(
    rt: &R,
    alloc: Global,
    asked: &Asked<'_>,
    typed: &Typed,
    plan: &[u8],
    told: &mut Ending<QuietSink>,
) -> Status {
    match picture_of(alloc, typed, plan, asked) {
        Ok(shown) => put(rt, &shown, told),
        Err(AllocError) => Status::NoMemory,
    }
}

// Why a plan is not read, if it is not. Of a text that is too long the shelf keeps as much as decides.
fn plan_fault(alloc: Global, asked: &Asked<'_>, shelf: &mut Kept<MemShelf>) -> Option<Status> {
    match text_of(alloc, shelf, asked.plan, Text::Plan) {
        Ok(_) | Err(Refusal::Early(_)) => None,
        Err(Refusal::ReadFault) => Some(Status::ReadFault),
        Err(Refusal::NoMemory) => Some(Status::NoMemory),
    }
}

// Reads the plan of a pair, and writes its picture.
fn perform_pair<R: Print>(
    rt: &R,
    alloc: Global,
    asked: &Asked<'_>,
    typed: &Typed,
    shelf: &mut Kept<MemShelf>,
    told: &mut Ending<QuietSink>,
) -> Status {
    if let Some(status) = plan_fault(alloc, asked, shelf) {
        return status;
    }
    match shelf.text(asked.plan) {
        Some(plan) => draw_plan(rt, alloc, asked, typed, plan, told),
        None => Status::NoMemory,
    }
}

// Tells why there is no pair.
fn turn_down(refusal: &Refusal, told: &mut Ending<QuietSink>) -> Status {
    match refusal {
        Refusal::Early(early) => refuse(told, early),
        Refusal::ReadFault => Status::ReadFault,
        Refusal::NoMemory => Status::NoMemory,
    }
}

// Reads the files that are asked for, and writes their picture.
fn perform<R: Print>(
    rt: &R,
    alloc: Global,
    asked: &Asked<'_>,
    shelf: &mut Kept<MemShelf>,
    told: &mut Ending<QuietSink>,
) -> Status {
    match pair(alloc, shelf, asked.domain, asked.problem) {
        Ok(typed) => {
            let status = perform_pair(rt, alloc, asked, &typed, shelf, told);
            release(typed, Freeing::AtExit);
            status
        }
        Err(refusal) => turn_down(&refusal, told),
    }
}

// Writes the picture, and says on the standard error why there is none, or why the plan is refused.
fn answer<R: Files + Print + Eprint>(
    rt: &R,
    alloc: Global,
    asked: &Asked<'_>,
    mut shelf: Kept<MemShelf>,
) -> Status {
    let mut told = Ending::new(alloc, QuietSink::new());
    let status = perform(rt, alloc, asked, &mut shelf, &mut told);
    tell_reasons(rt, alloc, asked, &shelf, &told, status);
    status
}

// Carries out the words.
fn conclude<R: Files + Print + Eprint>(rt: &R, alloc: Global, words: &[String]) -> Status {
    let Some(asked) = Asked::parse(words) else {
        let _ = rt.eprint(USAGE);
        return Status::Usage;
    };
    match shelf(rt, alloc, &[asked.domain, asked.problem, asked.plan]) {
        Ok(shelf) => answer(rt, alloc, &asked, Kept::new(alloc, shelf)),
        Err(AllocError) => Status::NoMemory,
    }
}

fn main(rt: HostRuntime) -> ExitCode {
    match words(&rt) {
        Ok(words) => conclude(&rt, rt.alloc(), &words).exit_code(),
        Err(e) if e.kind() == io::ErrorKind::OutOfMemory => Status::NoMemory.exit_code(),
        Err(_) => Status::Usage.exit_code(),
    }
}
