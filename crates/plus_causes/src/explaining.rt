//! What a person is told beside the answer, on the standard error.

use crate::verdicts::causes;
use plus_explain::{Ending, Kept};
use plus_io::{Shelf, Sink};
use std::alloc::Global;
use std::fs::Files;
use std::io::ErrorKind;
use std::process::ExitCode;
use std::{fs, str};

/// The exit status where memory is wanting.
const NO_MEMORY: u8 = 7;

// What an error of a file means.
fn meaning(kind: ErrorKind) -> &'static str {
    match kind {
        ErrorKind::NotFound => "there is no such file\n",
        ErrorKind::PermissionDenied => "it may not be read\n",
        _ => "",
    }
}

// Why a regular file cannot be opened, where a second try tells it.
fn why_unopened<R: Files>(rt: &R, name: &str) -> &'static str {
    match fs::open(rt, name) {
        Ok(_) => "",
        Err(error) => meaning(error.kind()),
    }
}

// Why a file cannot be read, where the system tells it. Only a regular file is opened, so that nothing waits.
fn why_unread<R: Files>(rt: &R, name: &str) -> &'static str {
    match fs::metadata(rt, name) {
        Ok(file) if file.is_dir() => "it is a folder\n",
        Ok(file) if file.is_file() => why_unopened(rt, name),
        Ok(_) => "",
        Err(error) => meaning(error.kind()),
    }
}

/// Writes why the words were answered so, as far as there is something to tell and memory to tell it.
pub fn explain<R: Files + Eprint, S: Shelf + Drop, O: Sink + Drop>(
    rt: &R,
    alloc: Global,
    words: &[String],
    shelf: &Kept<S>,
    out: &Ending<O>,
    code: ExitCode,
) {
    if code == ExitCode::from(NO_MEMORY) {
        let _ = rt.eprint("planplus: out of memory\n");
        return;
    }
    if let Ok(text) = causes(alloc, words, shelf, out) {
        if let Ok(text) = str::from_utf8(&text) {
            let _ = rt.eprint(text);
        }
    }
    if let Some(name) = shelf.failed() {
        let _ = rt.eprint(why_unread(rt, name));
    }
}
