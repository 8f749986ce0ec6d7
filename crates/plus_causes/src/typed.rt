//! What a pair and its plan tell of a verdict.

use plus_expected::say::text_of;
use plus_expected::{File, Outline};
use plus_explain::Kept;
use plus_io::{Freeing, Shelf};
use plus_plan::PlanForm;
use plus_reasons::append_written;
use plus_replay::{
    Largest, append_operands, append_search, append_unmet, failing_same, failing_same_in_goal,
    largest_of,
};
use plus_reply::pair::pair::release;
use plus_reply::pair::texts::pair_of;
use plus_tree::Span;
use plus_types::Typed;
use plus_words::decisions::Decisions;
use std::alloc::{AllocError, Global};

// The line of a goal that does not hold.
const GOAL: &str = "invalid: goal";

// How the line of an operation begins whose result is too large.
const NUMBER: &str = "beyond: number ";

/// The form of the plan that the words' command checks, or that of no plan.
pub fn plan_form(words: &[String]) -> Option<PlanForm> {
    match words.first()?.as_str() {
        "numeric" => Some(PlanForm::Untimed),
        "lift" => None,
        _ => Some(PlanForm::Timed),
    }
}

/// The texts of a pair, and of its plan.
#[derive(Clone, Copy)]
pub struct Texts<'a> {
    pub domain: File<'a>,
    pub problem: File<'a>,
    pub plan: &'a [u8],
    pub form: PlanForm,
}

// Whether a verdict says that a condition, the arguments of an action or the goal are not met.
fn is_unmet(verdict: &str) -> bool {
    verdict == GOAL
        || verdict.contains(": precondition of ")
        || verdict.contains(": wrong arguments of ")
}

// The place of a member on objects alone that does not hold, and the file that it stands in.
fn same_member<'a>(texts: &Texts<'a>, typed: &Typed, verdict: &str) -> Option<(File<'a>, Span)> {
    match verdict.split_once(": precondition of ") {
        Some((_, label)) => Some((texts.domain, failing_same(typed, label)?)),
        None => Some((texts.problem, failing_same_in_goal(typed)?)),
    }
}

// Appends a member as it stands in its file.
fn append_member(
    into: &mut Vec<u8>,
    alloc: Global,
    file: File<'_>,
    span: Span,
) -> Result<(), AllocError> {
    let member = file.text.get(span.start..span.end).unwrap_or(b"");
    let form = Outline::read(alloc, member)?.form(alloc, 0)?;
    into.extend_from_slice(b"does not hold: ")?;
    into.extend_from_slice(form.as_bytes())?;
    into.push(b'\n')?;
    Ok(())
}

// Appends the place of a goal.
fn append_goal(into: &mut Vec<u8>, problem: File<'_>, typed: &Typed) -> Result<(), AllocError> {
    let span = typed.problem.goal.span;
    problem.append_place(into, span.start, span.end, "goal")
}

// Appends the place of the goal, where it is the goal that does not hold, and the member that does not hold, or what is wrong
// with the arguments of an action.
fn append_failed(
    into: &mut Vec<u8>,
    alloc: Global,
    texts: &Texts<'_>,
    typed: &Typed,
    verdict: &str,
) -> Result<(), AllocError> {
    if !is_unmet(verdict) {
        return Ok(());
    }
    if verdict == GOAL {
        append_goal(into, texts.problem, typed)?;
    }
    let mut told = Vec::new(alloc);
    append_unmet(&mut told, alloc, typed, texts.plan, texts.form)?;
    if told.as_slice() == b"does not hold: (or)\n".as_slice() {
        if let Some((file, span)) = same_member(texts, typed, verdict) {
            return append_member(into, alloc, file, span);
        }
    }
    into.extend_from_slice(&told)
}

// The fluent that the first line `A is (f)` names.
fn first_named(told: &[u8]) -> Option<&str> {
    let (line, _) = text_of(told).split_once('\n')?;
    let (_, fluent) = line.split_once(" is ")?;
    Some(fluent)
}

// Appends which fluents have the values of an operation, and who writes the first of them.
fn append_number(
    into: &mut Vec<u8>,
    alloc: Global,
    texts: &Texts<'_>,
    typed: &Typed,
    verdict: &str,
) -> Result<(), AllocError> {
    let mut told = Vec::new(alloc);
    append_operands(&mut told, typed, texts.plan, texts.form, verdict)?;
    into.extend_from_slice(&told)?;
    match first_named(&told) {
        Some(fluent) => append_written(into, texts.domain, fluent),
        None => Ok(()),
    }
}

/// Appends what a plan that is played once more tells of its refusal: for a condition, the goal or arguments what is not met,
/// for a number the fluents.
pub fn append_played(
    into: &mut Vec<u8>,
    alloc: Global,
    texts: &Texts<'_>,
    typed: &Typed,
    verdict: &str,
) -> Result<(), AllocError> {
    if verdict.starts_with(NUMBER) {
        return append_number(into, alloc, texts, typed, verdict);
    }
    append_failed(into, alloc, texts, typed, verdict)
}

// Appends what there are most of.
fn append_largest(
    into: &mut Vec<u8>,
    alloc: Global,
    domain: File<'_>,
    largest: &Largest,
    kind: &str,
) -> Result<(), AllocError> {
    let why = format!(in alloc; "{} {kind} by this alone", largest.count)?;
    domain.append_place(into, largest.span.start, largest.span.end, &why)
}

// What is counted of a kind.
fn counted(kind: &str) -> &str {
    match kind {
        "nodes" => "choices of objects",
        _ => kind,
    }
}

// Appends of what there are too many, where that is the verdict.
fn append_many(
    into: &mut Vec<u8>,
    alloc: Global,
    domain: File<'_>,
    typed: &Typed,
    verdict: &str,
) -> Result<(), AllocError> {
    let Some(words) = verdict.strip_prefix("beyond: more than ") else {
        return Ok(());
    };
    let Some((_, kind)) = words.split_once(' ') else {
        return Ok(());
    };
    match largest_of(typed, kind) {
        Some(found) => append_largest(into, alloc, domain, &found, counted(kind)),
        None => Ok(()),
    }
}

// The number of decisions of the words, where they ask for a search that found no plan.
fn decisions_of(words: &[String], verdict: &str) -> Option<u32> {
    if verdict.starts_with("none: ") || verdict.starts_with("spent: ") {
        Some(Decisions::parse(words.get(2)?.as_str())?.number)
    } else {
        None
    }
}

// Appends all that a pair tells.
fn append_typed(
    into: &mut Vec<u8>,
    alloc: Global,
    words: &[String],
    texts: &Texts<'_>,
    typed: &Typed,
    verdict: &str,
) -> Result<(), AllocError> {
    if let Some(decisions) = decisions_of(words, verdict) {
        append_goal(into, texts.problem, typed)?;
        return append_search(into, alloc, typed, decisions);
    }
    append_played(into, alloc, texts, typed, verdict)?;
    append_many(into, alloc, texts.domain, typed, verdict)
}

// Whether the pair has more to tell of a verdict.
fn is_told(verdict: &str) -> bool {
    is_unmet(verdict)
        || verdict.starts_with(NUMBER)
        || verdict.starts_with("beyond: more than ")
        || verdict.starts_with("none: ")
        || verdict.starts_with("spent: ")
}

/// Appends what a pair and its plan tell of a verdict: the member that does not hold, of what there are too many, and how
/// many lists a search has.
pub fn append_pair<S: Shelf + Drop>(
    into: &mut Vec<u8>,
    alloc: Global,
    words: &[String],
    shelf: &Kept<S>,
    verdict: &str,
    form: PlanForm,
) -> Result<(), AllocError> {
    if !is_told(verdict) {
        return Ok(());
    }
    let (Some(domain), Some(problem)) = (
        File::of(words, shelf, "domain"),
        File::of(words, shelf, "problem"),
    ) else {
        return Ok(());
    };
    let plan = match File::of(words, shelf, "plan") {
        Some(plan) => plan.text,
        None => b"",
    };
    let texts = Texts {
        domain,
        problem,
        plan,
        form,
    };
    match pair_of(alloc, domain.text, problem.text) {
        Ok(typed) => {
            let told = append_typed(into, alloc, words, &texts, &typed, verdict);
            release(typed, Freeing::AtExit);
            told
        }
        Err(_) => Ok(()),
    }
}
