//! What is written beside an answer.

ghost use Rattle.std.specs.Prelude.{◌≡◌, ◌≤◌, ◌++◌, length, codes, decimal, IfSome, OnOk};
ghost use Rattle.plus_explain.specs.Place.{line_at, line_before};
ghost use Rattle.plus_explain.specs.Reasons.{place_text, position_text};

use crate::commands::{append_commands, word_for};
use crate::ending::Ending;
use crate::kept::Kept;
use crate::marked::append_marked;
use crate::named::{Bytes, Named};
use crate::place::{Place, line_around, line_end, line_offset};
use itoa::Buffer;
use plus_io::{Shelf, Sink};
use std::alloc::AllocError;

// Appends a number, and what stands behind it.
#[tactic(auto, using(std::proofs::lemmas::List::append_assoc))]
fn append_number(into: &mut Vec<u8>, number: usize, behind: &[u8]) -> Result<(), AllocError>
    ensures { OnOk result (into.new.items ≡ into.old.items ++ (decimal number ++ behind.now)) }
{
    let mut buffer = Buffer::new();
    into.extend_from_slice(buffer.format(number).as_bytes())?;
    into.extend_from_slice(behind)?;
    Ok(())
}

// Appends a text, and what stands behind it.
#[tactic(auto, using(std::proofs::lemmas::List::append_assoc))]
fn append_text(into: &mut Vec<u8>, text: &str, behind: &[u8]) -> Result<(), AllocError>
    ensures { OnOk result (into.new.items ≡ into.old.items ++ (text.now ++ behind.now)) }
{
    into.extend_from_slice(text.as_bytes())?;
    into.extend_from_slice(behind)?;
    Ok(())
}

// Appends a file, a place in it and a reason: `FILE:LINE:COLUMN: WHY`.
#[tactic(auto, using(std::proofs::lemmas::List::append_assoc))]
fn append_position(
    into: &mut Vec<u8>,
    file: &str,
    place: &Place,
    why: &str,
) -> Result<(), AllocError>
    ensures { OnOk result (into.new.items ≡ into.old.items
        ++ position_text file.now place.now.line place.now.column why.now) }
{
    append_text(into, file, b":")?;
    append_number(into, place.line, b":")?;
    append_number(into, place.column, b": ")?;
    append_text(into, why, b"\n")?;
    Ok(())
}

/// Appends a file, the place of some bytes of its text and a reason, and then the line in which they begin,
/// with a mark under them.
#[tactic(auto, using(std::proofs::lemmas::List::append_assoc))]
pub fn append_place(
    into: &mut Vec<u8>,
    file: &str,
    text: &[u8],
    start: usize,
    end: usize,
    why: &str,
) -> Result<(), AllocError>
    requires { start ≤ length text.now }
    ensures { OnOk result (into.new.items ≡ into.old.items ++ place_text file.now text.now start «end» why.now) }
{
    let place = Place::of(text, start);
    append_position(into, file, &place, why)?;
    let at = place.column - 1;
    let width = end.min(text.len()).saturating_sub(start);
    append_marked(into, line_around(text, start), at, at + width)?;
    Ok(())
}

// The offsets of some bytes of a text, if it has the place where they begin.
fn offsets(text: &[u8], bytes: Bytes) -> Option<(usize, usize)>
    ensures { IfSome result (λ s. s.0 ≤ length text.now) }
{
    let (start, end) = match bytes {
        Bytes::Text { start, end } => (start, end),
        Bytes::Line { line, start, end } => {
            let from = line_offset(text, line)?;
            (from.checked_add(start)?, from.checked_add(end)?)
        }
        Bytes::Whole { line } => {
            let from = line_offset(text, line)?;
            (from, line_end(text, from))
        }
    };
    if start <= text.len() {
        Some((start, end))
    } else {
        None
    }
}

// Appends the place that a verdict line names, if its text was read.
fn append_named<S: Shelf + Drop>(
    into: &mut Vec<u8>,
    words: &[String],
    shelf: &Kept<S>,
    named: &Named<'_>,
) -> Result<(), AllocError> {
    let Some(file) = word_for(words, named.text) else {
        return Ok(());
    };
    let Some(text) = shelf.text(file) else {
        return Ok(());
    };
    match offsets(text, named.place) {
        Some((start, end)) => append_place(into, file, text, start, end, named.why),
        None => Ok(()),
    }
}

fn append_fault(into: &mut Vec<u8>, name: &str) -> Result<(), AllocError> {
    into.extend_from_slice(b"planplus: cannot read ")?;
    append_text(into, name, b"\n")
}

/// Appends what tells a person why words were answered so: the commands, where they are none; the name of the
/// file, where one could not be read; the place of what was refused. It appends nothing where there is nothing
/// to tell.
pub fn append_reasons<S: Shelf + Drop, O: Sink + Drop>(
    into: &mut Vec<u8>,
    words: &[String],
    shelf: &Kept<S>,
    out: &Ending<O>,
) -> Result<(), AllocError> {
    if out.has_failed() {
        return into.extend_from_slice(b"planplus: cannot write the output\n");
    }
    if let Some(name) = shelf.failed() {
        return append_fault(into, name);
    }
    let Some(verdict) = out.verdict() else {
        return Ok(());
    };
    if verdict.starts_with("usage: ") {
        return append_commands(into);
    }
    match Named::in_verdict(verdict) {
        Some(named) => append_named(into, words, shelf, &named),
        None => Ok(()),
    }
}
