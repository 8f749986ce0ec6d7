//! What a person is told on the standard error: the verdict and why, as `planplus check` tells them.

use plus_causes::explain;
use plus_explain::{Ending, Kept};
use plus_io::{MemShelf, QuietSink};
use plus_picture::Asked;
use plus_report::Status;
use std::alloc::{AllocError, Global};
use std::fs::Files;

// The words that ask `planplus` for a check of the same files.
fn check_words(alloc: Global, asked: &Asked<'_>) -> Result<Vec<String>, AllocError> {
    let mut words = Vec::new(alloc);
    for word in ["check", asked.domain, asked.problem, asked.plan] {
        words.push(String::from_str(alloc, word)?)?;
    }
    Ok(words)
}

// Writes the verdict and why.
fn tell_why<R: Files + Eprint>(
    rt: &R,
    alloc: Global,
    asked: &Asked<'_>,
    shelf: &Kept<MemShelf>,
    told: &Ending<QuietSink>,
    status: Status,
) -> Result<(), AllocError> {
    let words = check_words(alloc, asked)?;
    if let Some(verdict) = told.verdict() {
        let _ = rt.eprint(verdict);
        let _ = rt.eprint("\n");
    }
    explain(rt, alloc, &words, shelf, told, status.exit_code());
    Ok(())
}

/// Writes the verdict where a plan is not valid, and why, as far as there is something to tell and memory to tell it.
pub fn tell_reasons<R: Files + Eprint>(
    rt: &R,
    alloc: Global,
    asked: &Asked<'_>,
    shelf: &Kept<MemShelf>,
    told: &Ending<QuietSink>,
    status: Status,
) {
    match status {
        Status::Valid => {}
        Status::WriteFault => {
            let _ = rt.eprint("planplus: cannot write the output\n");
        }
        _ => {
            let _ = tell_why(rt, alloc, asked, shelf, told, status);
        }
    }
}
