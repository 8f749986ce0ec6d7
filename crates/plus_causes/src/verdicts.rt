//! Why the words were answered so.

use crate::lifted::append_lifted;
use crate::typed::{append_pair, plan_form};
use crate::usage::append_usage;
use plus_explain::{Ending, Kept, append_reasons};
use plus_io::{Shelf, Sink};
use plus_reasons::{append_guide, append_told};
use std::alloc::{AllocError, Global};

// Appends what is told of a verdict that names words, texts, a plan or a world.
fn append_verdict<S: Shelf + Drop>(
    into: &mut Vec<u8>,
    alloc: Global,
    words: &[String],
    shelf: &Kept<S>,
    verdict: &str,
) -> Result<(), AllocError> {
    append_told(into, words, shelf, verdict)?;
    match plan_form(words) {
        Some(form) => append_pair(into, alloc, words, shelf, verdict, form)?,
        None => append_lifted(into, alloc, words, shelf, verdict)?,
    }
    append_guide(into, verdict)
}

/// What there is to tell of an answer that was read off the files and the output: of words that are no command what is wrong with
/// them, of a verdict its place, its cause and the section that says more. Empty where the answer speaks for itself.
pub fn causes<S: Shelf + Drop, O: Sink + Drop>(
    alloc: Global,
    words: &[String],
    shelf: &Kept<S>,
    out: &Ending<O>,
) -> Result<Vec<u8>, AllocError> {
    let mut text = Vec::new(alloc);
    let verdict = out.verdict().unwrap_or("");
    if verdict.starts_with("usage: ") && !out.has_failed() {
        append_usage(&mut text, words)?;
        return Ok(text);
    }
    append_reasons(&mut text, words, shelf, out)?;
    if !out.has_failed() && shelf.failed().is_none() {
        append_verdict(&mut text, alloc, words, shelf, verdict)?;
    }
    Ok(text)
}
