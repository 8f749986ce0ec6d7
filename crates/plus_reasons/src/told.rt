//! All that is told of a verdict by the tokens of its texts.

use crate::hints::append_hint;
use crate::literals::append_literals;
use crate::plans::{append_bad_line, append_plan};
use crate::typing::append_typing;
use crate::world::append_world;
use plus_expected::say::append_line;
use plus_expected::{File, Whole, append_text};
use plus_explain::{Bytes, Kept, Named};
use plus_io::Shelf;
use std::alloc::AllocError;

// The form of the lines of the words' plan.
fn line_form(words: &[String]) -> Whole {
    match words.first() {
        Some(word) if word.as_str() == "check" => Whole::TimedLine,
        _ => Whole::UntimedLine,
    }
}

// Appends why a line of the plan is none.
fn append_line_of<S: Shelf + Drop>(
    into: &mut Vec<u8>,
    words: &[String],
    shelf: &Kept<S>,
    line: usize,
    at: usize,
) -> Result<(), AllocError> {
    match File::of(words, shelf, "plan") {
        Some(plan) => append_bad_line(into, plan, line, at, line_form(words)),
        None => Ok(()),
    }
}

// Appends why the domain or the problem is none, or is not well typed.
fn append_bad_text<S: Shelf + Drop>(
    into: &mut Vec<u8>,
    words: &[String],
    shelf: &Kept<S>,
    named: &Named<'_>,
    at: usize,
) -> Result<(), AllocError> {
    let whole = match named.text {
        "domain" => Whole::Domain,
        "problem" => Whole::Problem,
        _ => return Ok(()),
    };
    let Some(file) = File::of(words, shelf, named.text) else {
        return Ok(());
    };
    append_text(into, file, whole, named.why, at)?;
    append_hint(into, file, named.why, at)?;
    let Some(domain) = File::of(words, shelf, "domain") else {
        return Ok(());
    };
    let problem = File::of(words, shelf, "problem");
    append_typing(into, domain, problem, whole == Whole::Domain, named.why, at)
}

// Appends why a text or a line is none.
fn append_refused<S: Shelf + Drop>(
    into: &mut Vec<u8>,
    words: &[String],
    shelf: &Kept<S>,
    verdict: &str,
) -> Result<(), AllocError> {
    let Some(named) = Named::in_verdict(verdict) else {
        return Ok(());
    };
    match named.place {
        Bytes::Text { start, .. } => append_bad_text(into, words, shelf, &named, start),
        Bytes::Line { line, start, .. } => append_line_of(into, words, shelf, line, start),
        Bytes::Whole { .. } => Ok(()),
    }
}

// Appends what a limit means, and how a plan may enter more moments.
fn append_limit(into: &mut Vec<u8>, verdict: &str) -> Result<(), AllocError> {
    if verdict.starts_with("beyond: happenings ") && !verdict.ends_with(" 1000000") {
        let more =
            "--happenings N behind the words of check lets a plan enter N moments, up to 1000000";
        return append_line(into, &[more]);
    }
    if verdict.starts_with("beyond: literal ") {
        let why = "its value is no fraction with both parts below 2^63";
        return append_line(into, &[why]);
    }
    Ok(())
}

/// Appends what the tokens of the texts tell of a verdict: what was expected where a text is none, and which other place a
/// fault of typing has to do with; what an unknown action is; why the world does not go on, and who moves or writes a
/// fluent.
pub fn append_told<S: Shelf + Drop>(
    into: &mut Vec<u8>,
    words: &[String],
    shelf: &Kept<S>,
    verdict: &str,
) -> Result<(), AllocError> {
    if verdict.starts_with("bad text: ") {
        return append_refused(into, words, shelf, verdict);
    }
    let Some(domain) = File::of(words, shelf, "domain") else {
        return Ok(());
    };
    append_plan(into, domain, verdict)?;
    append_limit(into, verdict)?;
    let Some(problem) = File::of(words, shelf, "problem") else {
        return Ok(());
    };
    let plan = File::of(words, shelf, "plan");
    append_literals(into, &[Some(domain), Some(problem), plan], verdict)?;
    append_world(into, domain, problem, verdict)
}
