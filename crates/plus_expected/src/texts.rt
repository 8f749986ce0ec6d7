//! Why a text is none.

use crate::bytes::{append_byte, append_long};
use crate::file::File;
use crate::grammar::Whole;
use crate::outline::Outline;
use crate::say::append_line;
use crate::unread::append_unread;
use crate::wanted::{Wanted, met, part_at};
use std::alloc::{AllocError, Global};

// The other kind of text, and how the two are called.
fn other(whole: Whole) -> Option<(&'static str, &'static str)> {
    match whole {
        Whole::Domain => Some(("problem", "this is a problem, and a domain is wanted")),
        Whole::Problem => Some(("domain", "this is a domain, and a problem is wanted")),
        Whole::TimedLine | Whole::UntimedLine => None,
    }
}

// Appends that a domain stands where a problem is wanted, or the other way round. Answers whether it does.
fn append_other(
    into: &mut Vec<u8>,
    outline: &Outline<'_>,
    number: usize,
    whole: Whole,
) -> Result<bool, AllocError> {
    match other(whole) {
        Some((word, says)) if number == 3 && outline.is(number, word) => {
            append_line(into, &[says])?;
            Ok(true)
        }
        _ => Ok(false),
    }
}

// Appends where a section or a key stands that stands here once more. Answers whether one does.
fn append_again(
    into: &mut Vec<u8>,
    file: File<'_>,
    outline: &Outline<'_>,
    number: usize,
) -> Result<bool, AllocError> {
    match met(outline, number, outline.text(number)) {
        Some(first) => {
            let (start, end) = (outline.start(first), outline.end(first));
            file.append_place(into, start, end, "it stands here already")?;
            Ok(true)
        }
        None => Ok(false),
    }
}

// Appends what is wanted at a token that is refused in a part.
fn append_wanted(
    into: &mut Vec<u8>,
    file: File<'_>,
    wanted: &Wanted<'_>,
) -> Result<(), AllocError> {
    if wanted.lacks_parts() && wanted.outline.closes(wanted.number) {
        return wanted.append_missing(into);
    }
    if append_again(into, file, wanted.outline, wanted.number)? {
        return Ok(());
    }
    wanted.append(into)
}

// Appends why a token is refused.
fn append_form(
    into: &mut Vec<u8>,
    file: File<'_>,
    outline: &Outline<'_>,
    number: usize,
    whole: Whole,
) -> Result<(), AllocError> {
    if append_other(into, outline, number, whole)? || append_unread(into, outline, number)? {
        return Ok(());
    }
    match part_at(*into.allocator(), outline, number, whole)? {
        Some(part) => append_wanted(
            into,
            file,
            &Wanted {
                outline,
                part,
                number,
            },
        ),
        None => append_line(into, &["the text ends before this"]),
    }
}

// Appends which parenthesis is open at the end of a text, and what is wanted there.
fn append_open(
    into: &mut Vec<u8>,
    file: File<'_>,
    outline: &Outline<'_>,
    whole: Whole,
) -> Result<(), AllocError> {
    let number = outline.len();
    if let Some(open) = outline.around(number) {
        let (start, end) = (outline.start(open), outline.end(open));
        file.append_place(into, start, end, "this parenthesis is open")?;
    }
    match part_at(*into.allocator(), outline, number, whole)? {
        Some(part) => Wanted {
            outline,
            part,
            number,
        }
        .append(into),
        None => Ok(()),
    }
}

/// Appends why a text is no domain or no problem, where the word of its refusal says what kind of fault it is and the
/// offset where.
pub fn append_text(
    into: &mut Vec<u8>,
    file: File<'_>,
    whole: Whole,
    word: &str,
    at: usize,
) -> Result<(), AllocError> {
    match word {
        "byte" => append_byte(into, file.text, at),
        "long" => append_long(into, file.text, at),
        "form" => {
            let outline = Outline::read(*into.allocator(), file.text)?;
            append_form(into, file, &outline, outline.at(at), whole)
        }
        "unclosed" => {
            let outline = Outline::read(*into.allocator(), file.text)?;
            append_open(into, file, &outline, whole)
        }
        _ => Ok(()),
    }
}
