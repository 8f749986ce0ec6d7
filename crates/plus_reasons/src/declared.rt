//! What a domain and a problem declare, by their tokens.

use plus_expected::say::{append_all, append_line};
use plus_expected::{Nearest, Outline};
use plus_tokens::Kind;
use std::alloc::AllocError;

/// The sections with heads.
pub static HEADS: [&str; 2] = [":predicates", ":functions"];

/// The most names that are listed.
const MOST: usize = 6;

/// The number of the name under which a section declares a predicate or a function.
pub fn head(outline: &Outline<'_>, section: &str, name: &[u8]) -> Option<usize> {
    let first = outline.section(section)?;
    for number in first..outline.close_of(first) {
        let place = number.saturating_add(1);
        if number > first
            && outline.opens(number)
            && outline.word(place).eq_ignore_ascii_case(name)
        {
            return Some(place);
        }
    }
    None
}

/// The number of the name of the action, the process or the event of this name.
pub fn schema(outline: &Outline<'_>, keyword: &str, name: &[u8]) -> Option<usize> {
    for number in 0..outline.len() {
        let place = number.saturating_add(1);
        if outline.is(number, keyword) && outline.word(place).eq_ignore_ascii_case(name) {
            return Some(place);
        }
    }
    None
}

/// How many parameters a head has that is declared at a name.
pub fn params(outline: &Outline<'_>, name: usize) -> u64 {
    let mut count = 0u64;
    for number in name..outline.len() {
        if outline.closes(number) {
            break;
        }
        if outline.has_kind(number, Kind::Variable) {
            count = count.saturating_add(1);
        }
    }
    count
}

/// The number of the type of a parameter of a head, counted from 0, where one is written.
pub fn param_type(outline: &Outline<'_>, name: usize, param: usize) -> Option<usize> {
    let mut count = 0usize;
    for number in name..outline.len() {
        if outline.closes(number) {
            break;
        }
        if count > param && outline.is(number, "-") {
            return Some(number.saturating_add(1));
        }
        if outline.has_kind(number, Kind::Variable) {
            count = count.saturating_add(1);
        }
    }
    None
}

// Whether a token is the name of a member of a list, and not of its type.
fn is_member(outline: &Outline<'_>, number: usize) -> bool {
    outline.has_kind(number, Kind::Name) && !outline.is(number.saturating_sub(1), "-")
}

/// The number of the first member of this name in the list of a section.
pub fn member(outline: &Outline<'_>, section: &str, name: &[u8]) -> Option<usize> {
    let first = outline.section(section)?;
    for number in first..outline.close_of(first) {
        if is_member(outline, number) && outline.word(number).eq_ignore_ascii_case(name) {
            return Some(number);
        }
    }
    None
}

// Appends a name of a list behind so many others: behind what they are where it is the first.
fn append_listed(
    into: &mut Vec<u8>,
    name: &str,
    before: usize,
    what: &str,
) -> Result<(), AllocError> {
    if before == MOST {
        return append_all(into, &[" .."]);
    }
    append_all(into, &[if before == 0 { what } else { ", " }, name])
}

/// How the names are declared that are looked through.
#[derive(Clone, Copy, PartialEq, Eq)]
pub enum How {
    /// As members of the list of a section.
    Members,
    /// As heads of a section.
    Heads,
    /// As actions, processes or events.
    Schemas,
}

/// The names that are declared behind a keyword.
#[derive(Clone, Copy)]
pub struct Names<'a, 'b> {
    pub outline: &'b Outline<'a>,
    pub keyword: &'static str,
    pub how: How,
}

impl<'a> Names<'a, '_> {
    // The numbers of the tokens among which they stand.
    fn bounds(&self) -> (usize, usize) {
        if self.how == How::Schemas {
            return (0, self.outline.len());
        }
        match self.outline.section(self.keyword) {
            Some(first) => (first, self.outline.close_of(first)),
            None => (0, 0),
        }
    }

    // Whether a token is one of them, where the first of those tokens has this number.
    fn has(&self, number: usize, first: usize) -> bool {
        let before = number.saturating_sub(1);
        match self.how {
            How::Members => is_member(self.outline, number),
            How::Heads => before > first && self.outline.opens(before),
            How::Schemas => number > 0 && self.outline.is(before, self.keyword),
        }
    }

    /// Offers them.
    pub fn offer(&self, nearest: &mut Nearest<'a>) {
        let (first, close) = self.bounds();
        for number in first..close {
            if self.has(number, first) {
                nearest.offer(self.outline.word(number));
            }
        }
    }

    /// Appends the first of them behind what they are, as a line, where there is one.
    pub fn append(&self, into: &mut Vec<u8>, what: &str) -> Result<(), AllocError> {
        let (first, close) = self.bounds();
        let mut count = 0usize;
        for number in first..close {
            if !self.has(number, first) || count > MOST {
                continue;
            }
            append_listed(into, self.outline.text(number), count, what)?;
            count = count.saturating_add(1);
        }
        if count > 0 {
            append_line(into, &[])?;
        }
        Ok(())
    }
}
