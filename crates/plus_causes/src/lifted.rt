//! What is told of a plan in steps, and of the timed plan that it was lifted to.

use crate::typed::{Texts, append_played};
use plus_expected::File;
use plus_explain::place::{line_end, line_offset};
use plus_explain::{Bytes, Kept, Named, append_place};
use plus_io::{Freeing, MemShelf, Shelf};
use plus_lift::command::answer;
use plus_plan::PlanForm;
use plus_reasons::append_told;
use plus_reply::pair::pair::release;
use plus_reply::pair::texts::pair_of;
use plus_translate_command::translated_text;
use plus_types::{File as Half, Typed};
use plus_words::interval::Interval;
use std::alloc::{AllocError, Global};

// How the plan that was lifted is called in place of a file.
const LIFTED: &str = "lifted plan";

// The interval of the words.
fn interval_of(words: &[String]) -> Option<Interval> {
    Interval::parse(words.get(1)?.as_str())
}

// The three files of the words, and the plan.
fn texts_of<'a, S: Shelf + Drop>(words: &'a [String], shelf: &'a Kept<S>) -> Option<Texts<'a>> {
    Some(Texts {
        domain: File::of(words, shelf, "domain")?,
        problem: File::of(words, shelf, "problem")?,
        plan: File::of(words, shelf, "plan")?.text,
        form: PlanForm::Untimed,
    })
}

// Appends what is not met of a plan in steps over the printed texts of a translation.
fn append_printed(
    into: &mut Vec<u8>,
    alloc: Global,
    plan: &[u8],
    domain: &[u8],
    problem: &[u8],
    verdict: &str,
) -> Result<(), AllocError> {
    let texts = Texts {
        domain: File {
            name: "translated domain",
            text: domain,
        },
        problem: File {
            name: "translated problem",
            text: problem,
        },
        plan,
        form: PlanForm::Untimed,
    };
    match pair_of(alloc, domain, problem) {
        Ok(typed) => {
            let told = append_played(into, alloc, &texts, &typed, verdict);
            release(typed, Freeing::AtExit);
            told
        }
        Err(_) => Ok(()),
    }
}

// Appends what is not met of a plan in steps.
fn append_steps(
    into: &mut Vec<u8>,
    alloc: Global,
    interval: Interval,
    plan: &[u8],
    typed: &Typed,
    verdict: &str,
) -> Result<(), AllocError> {
    let Ok(domain) = translated_text(alloc, Half::Domain, interval, typed) else {
        return Ok(());
    };
    let Ok(problem) = translated_text(alloc, Half::Problem, interval, typed) else {
        return Ok(());
    };
    append_printed(into, alloc, plan, domain.bytes(), problem.bytes(), verdict)
}

// The lines of the timed plan, and the verdict on it behind them.
fn lines(
    alloc: Global,
    interval: Interval,
    texts: &Texts<'_>,
) -> Result<Option<Vec<u8>>, AllocError> {
    let mut shelf = MemShelf::new(alloc);
    shelf.put("domain", texts.domain.text)?;
    shelf.put("problem", texts.problem.text)?;
    shelf.put("plan", texts.plan)?;
    match answer(alloc, interval, "domain", "problem", "plan", &mut shelf) {
        Ok(reply) => Ok(Some(reply.text)),
        Err(_) => Ok(None),
    }
}

// Appends the line that a verdict names in the timed plan, and why it is refused.
fn append_line(into: &mut Vec<u8>, lines: &[u8], verdict: &str) -> Result<(), AllocError> {
    let Some(named) = Named::in_verdict(verdict) else {
        return Ok(());
    };
    let Bytes::Whole { line } = named.place else {
        return Ok(());
    };
    match line_offset(lines, line) {
        Some(start) => {
            let end = line_end(lines, start);
            append_place(into, LIFTED, lines, start, end, named.why)
        }
        None => Ok(()),
    }
}

// Appends why the timed plan is refused.
fn append_timed(
    into: &mut Vec<u8>,
    alloc: Global,
    texts: &Texts<'_>,
    lines: &[u8],
    typed: &Typed,
    verdict: &str,
) -> Result<(), AllocError> {
    append_line(into, lines, verdict)?;
    let texts = Texts {
        domain: texts.domain,
        problem: texts.problem,
        plan: lines,
        form: PlanForm::Timed,
    };
    append_played(into, alloc, &texts, typed, verdict)
}

// Appends why a plan in steps, or the timed plan, is refused.
fn append_typed(
    into: &mut Vec<u8>,
    alloc: Global,
    interval: Interval,
    texts: &Texts<'_>,
    typed: &Typed,
    verdict: &str,
) -> Result<(), AllocError> {
    let Some(timed) = verdict.strip_prefix("; ") else {
        return append_steps(into, alloc, interval, texts.plan, typed, verdict);
    };
    match lines(alloc, interval, texts)? {
        Some(lines) => append_timed(into, alloc, texts, &lines, typed, timed),
        None => Ok(()),
    }
}

// Appends what the tokens tell of the verdict on the timed plan, and which section says more.
fn append_world<S: Shelf + Drop>(
    into: &mut Vec<u8>,
    words: &[String],
    shelf: &Kept<S>,
    verdict: &str,
) -> Result<(), AllocError> {
    match verdict.strip_prefix("; ") {
        Some(timed) => append_told(into, words, shelf, timed),
        None => Ok(()),
    }
}

/// Appends why `lift` refused a plan in steps, or why the timed plan that it wrote is refused: the line of that plan, and
/// the member that does not hold.
pub fn append_lifted<S: Shelf + Drop>(
    into: &mut Vec<u8>,
    alloc: Global,
    words: &[String],
    shelf: &Kept<S>,
    verdict: &str,
) -> Result<(), AllocError> {
    let (Some(interval), Some(texts)) = (interval_of(words), texts_of(words, shelf)) else {
        return Ok(());
    };
    if verdict == "; valid" || verdict.starts_with("bad text: ") {
        return Ok(());
    }
    append_world(into, words, shelf, verdict)?;
    match pair_of(alloc, texts.domain.text, texts.problem.text) {
        Ok(typed) => {
            let told = append_typed(into, alloc, interval, &texts, &typed, verdict);
            release(typed, Freeing::AtExit);
            told
        }
        Err(_) => Ok(()),
    }
}
