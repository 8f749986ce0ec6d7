//! Why a line of a plan is none, and what an unknown action is.

use crate::declared::{How, Names, schema};
use plus_expected::bytes::{append_byte, append_long};
use plus_expected::say::{append_line, text_of};
use plus_expected::wanted::{Wanted, part_at};
use plus_expected::{File, Nearest, Outline, Whole};
use plus_explain::place::{line_end, line_offset};
use plus_tokens::Kind;
use std::alloc::AllocError;

// The line of this number.
fn line_of(text: &[u8], number: usize) -> Option<&[u8]> {
    let from = line_offset(text, number)?;
    text.get(from..line_end(text, from))
}

// How a line looks.
fn looks(whole: Whole) -> &'static str {
    match whole {
        Whole::UntimedLine => "a line is (NAME ARGUMENT ..)",
        _ => "a line is TIME: (NAME ARGUMENT ..), and the last one may be TIME: @end",
    }
}

// Whether a name or a number begins at an offset.
fn begins_word(text: &[u8], at: usize) -> bool {
    let is_in_number = match text.get(..at) {
        Some([.., last]) => last.is_ascii_digit(),
        _ => false,
    };
    match text.get(at..) {
        Some([b'-', digit, ..]) => digit.is_ascii_digit(),
        Some([first, ..]) => !is_in_number && first.is_ascii_alphanumeric(),
        _ => false,
    }
}

// Appends why no token is read at an offset.
fn append_odd(into: &mut Vec<u8>, text: &[u8], at: usize) -> Result<(), AllocError> {
    if begins_word(text, at) {
        return append_long(into, text, at);
    }
    match text.get(at) {
        Some(b'@') => append_line(into, &["the end of a plan is written @end"]),
        _ => append_byte(into, text, at),
    }
}

// What is wrong with a number or a stroke of a line.
fn said_of_number(
    outline: &Outline<'_>,
    number: usize,
    part: &str,
    whole: Whole,
) -> Option<&'static str> {
    let is_number = outline.has_kind(number, Kind::Number);
    if is_number && number == 0 && whole == Whole::UntimedLine {
        return Some("these lines have no times: tools/plan-lines --calls drops them");
    }
    if is_number && (part == "Time" || part == "NUMBER") {
        return Some("a time is not below 0, and under its stroke stands a whole number above 0");
    }
    if part == "Colon" && outline.is(number, "/") {
        return Some("the two numbers of a fraction are whole");
    }
    None
}

// Appends what is wanted at a token.
fn append_wanted(
    into: &mut Vec<u8>,
    outline: &Outline<'_>,
    number: usize,
    whole: Whole,
) -> Result<(), AllocError> {
    let part = part_at(*into.allocator(), outline, number, whole)?.unwrap_or("Square");
    if part == "Square" {
        return append_line(
            into,
            &["expected the end of the line: it holds one action, or @end"],
        );
    }
    if let Some(says) = said_of_number(outline, number, part, whole) {
        return append_line(into, &[says]);
    }
    Wanted {
        outline,
        part,
        number,
    }
    .append(into)
}

/// Appends what is wanted in a line of a plan at a byte of it, and how a line looks.
pub fn append_bad_line(
    into: &mut Vec<u8>,
    plan: File<'_>,
    line: usize,
    at: usize,
    whole: Whole,
) -> Result<(), AllocError> {
    let Some(text) = line_of(plan.text, line) else {
        return Ok(());
    };
    let outline = Outline::read(*into.allocator(), text)?;
    let number = outline.at(at);
    if number == outline.len() && at < text.len() {
        append_odd(into, text, at)?;
    } else {
        append_wanted(into, &outline, number, whole)?;
    }
    append_line(into, &[looks(whole)])
}

// Appends where the event or the process of this name stands. Answers whether there is one.
fn append_own(
    into: &mut Vec<u8>,
    domain: File<'_>,
    outline: &Outline<'_>,
    name: &str,
) -> Result<bool, AllocError> {
    let kinds = [
        (
            ":event",
            "an event: it happens by itself, and no line of a plan does it",
        ),
        (
            ":process",
            "a process: it runs by itself, and no line of a plan begins it",
        ),
    ];
    for (keyword, says) in &kinds {
        if let Some(number) = schema(outline, keyword, name.as_bytes()) {
            let (start, end) = (outline.start(number), outline.end(number));
            domain.append_place(into, start, end, says)?;
            return Ok(true);
        }
    }
    Ok(false)
}

// Appends what an action that is unknown is in truth, or the nearest one, or the first of all.
fn append_unknown(into: &mut Vec<u8>, domain: File<'_>, name: &str) -> Result<(), AllocError> {
    let outline = Outline::read(*into.allocator(), domain.text)?;
    if append_own(into, domain, &outline, name)? {
        return Ok(());
    }
    let actions = Names {
        outline: &outline,
        keyword: ":action",
        how: How::Schemas,
    };
    let mut nearest = Nearest::to(name.as_bytes());
    actions.offer(&mut nearest);
    match nearest.best() {
        Some(word) => append_line(into, &["the nearest action is ", text_of(word)]),
        None => actions.append(into, "the actions of the domain: "),
    }
}

/// Appends what an action is that a verdict calls unknown.
pub fn append_plan(into: &mut Vec<u8>, domain: File<'_>, verdict: &str) -> Result<(), AllocError> {
    match verdict.split_once(": unknown action ") {
        Some((_, name)) => append_unknown(into, domain, name),
        None => Ok(()),
    }
}
