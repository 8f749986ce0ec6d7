//! Who writes a fluent, who moves it and who reads it, by the tokens of a domain.

use crate::declared::head;
use plus_expected::{File, Outline};
use plus_tokens::Kind;
use std::alloc::{AllocError, Global};

/// The most places that are told of one fluent.
const MOST: usize = 3;

/// How many forms are looked at for a fluent without a value.
const LOOKED: u32 = 100;

/// The words that change a fluent.
static CHANGES: [&str; 5] = ["assign", "increase", "decrease", "scale-up", "scale-down"];

/// A ground fluent, as a verdict names it: `(level tank)`.
#[derive(Clone, Copy)]
pub struct Named<'a> {
    pub label: &'a str,
}

impl<'a> Named<'a> {
    // What stands between the parentheses.
    fn inside(&self) -> &'a str {
        let behind = self.label.strip_prefix('(').unwrap_or(self.label);
        behind.strip_suffix(')').unwrap_or(behind)
    }

    /// Its name, without its objects.
    pub fn name(&self) -> &'a str {
        match self.inside().split_once(' ') {
            Some((name, _)) => name,
            None => self.inside(),
        }
    }

    /// Whether a use whose head is a token may stand for it: their arguments are the same, or one of them is a variable.
    pub fn may_be(&self, outline: &Outline<'_>, first: usize) -> bool {
        let mut place = first;
        for (count, word) in self.inside().split(' ').enumerate() {
            place = first.saturating_add(count);
            let is_variable = outline.has_kind(place, Kind::Variable)
                || word.starts_with('?') && !outline.closes(place);
            if !(is_variable && count > 0) && !outline.is(place, word) {
                return false;
            }
        }
        outline.closes(place.saturating_add(1))
    }
}

// Whether a token begins a change of a fluent.
fn changes(outline: &Outline<'_>, number: usize, fluent: Named<'_>) -> bool {
    let word = number.saturating_add(1);
    outline.opens(number)
        && CHANGES.iter().any(|change| outline.is(word, change))
        && fluent.may_be(outline, number.saturating_add(3))
}

// Appends the name of a schema and its variables, as `(flow ?t)`.
fn push_schema(into: &mut String, outline: &Outline<'_>, name: usize) -> Result<(), AllocError> {
    into.push_str("(")?;
    into.push_str(outline.text(name))?;
    if outline.is(name.saturating_add(1), ":parameters") {
        for number in name.saturating_add(3)..outline.len() {
            if outline.closes(number) {
                break;
            }
            if outline.has_kind(number, Kind::Variable) {
                into.push_str(" ")?;
                into.push_str(outline.text(number))?;
            }
        }
    }
    into.push_str(")")
}

// What is said of a place: `(level tank) is moved by (flow ?t)`.
fn said(
    alloc: Global,
    outline: &Outline<'_>,
    fluent: Named<'_>,
    says: &str,
    schema: usize,
) -> Result<String, AllocError> {
    let mut text = String::from_str(alloc, fluent.label)?;
    text.push_str(says)?;
    push_schema(&mut text, outline, schema)?;
    Ok(text)
}

/// Who writes: the keyword of the schemas that are looked at, and what is said of one.
#[derive(Clone, Copy)]
pub struct Who {
    pub keyword: &'static str,
    pub says: &'static str,
}

/// The processes that move a fluent.
pub static MOVERS: [Who; 1] = [Who {
    keyword: ":process",
    says: " is moved by ",
}];

/// The actions and the events that write a fluent, and the processes that move it.
pub static WRITERS: [Who; 3] = [
    Who {
        keyword: ":action",
        says: " is written by ",
    },
    Who {
        keyword: ":event",
        says: " is written by ",
    },
    Who {
        keyword: ":process",
        says: " is moved by ",
    },
];

// Who is looked at, where a token is the keyword of such a schema or of another one.
fn who_at<'a>(
    outline: &Outline<'_>,
    number: usize,
    before: Option<&'a Who>,
    among: &'a [Who],
) -> Option<&'a Who> {
    if !outline.has_kind(number, Kind::Keyword) || !outline.opens(number.saturating_sub(1)) {
        return before;
    }
    among.iter().find(|who| outline.is(number, who.keyword))
}

/// Appends the first places where a fluent is written by schemas of these kinds, and by which.
pub fn append_writers(
    into: &mut Vec<u8>,
    domain: File<'_>,
    outline: &Outline<'_>,
    fluent: Named<'_>,
    among: &[Who],
) -> Result<(), AllocError> {
    let mut who = None;
    let mut schema = 0;
    let mut count = 0usize;
    for number in 0..outline.len() {
        let now = who_at(outline, number, who, among);
        if outline.has_kind(number, Kind::Keyword) && outline.opens(number.saturating_sub(1)) {
            schema = number.saturating_add(1);
        }
        who = now;
        let Some(writer) = who else {
            continue;
        };
        if count < MOST && changes(outline, number, fluent) {
            let why = said(*into.allocator(), outline, fluent, writer.says, schema)?;
            let end = outline.end(outline.close_of(number));
            domain.append_place(into, outline.start(number), end, &why)?;
            count = count.saturating_add(1);
        }
    }
    Ok(())
}

/// Appends the first places where a fluent is written or moved, by its label.
pub fn append_written(into: &mut Vec<u8>, domain: File<'_>, label: &str) -> Result<(), AllocError> {
    let outline = Outline::read(*into.allocator(), domain.text)?;
    append_writers(into, domain, &outline, Named { label }, &WRITERS)
}

// Whether `:init` gives a fluent a value whose head stands at a token of the domain: a variable stands for any object.
fn has_value(problem: &Outline<'_>, domain: &Outline<'_>, used: usize) -> bool {
    for number in 0..problem.len() {
        let first = number.saturating_add(3);
        if problem.opens(number)
            && problem.is(number.saturating_add(1), "=")
            && fits(problem, first, domain, used)
        {
            return true;
        }
    }
    false
}

// Whether a use in the domain may stand for one in the problem.
fn fits(problem: &Outline<'_>, there: usize, domain: &Outline<'_>, used: usize) -> bool {
    for place in used..domain.len() {
        let other = there.saturating_add(place.saturating_sub(used));
        if domain.closes(place) {
            return problem.closes(other);
        }
        let is_variable = domain.has_kind(place, Kind::Variable) && !problem.closes(other);
        if !is_variable && !domain.is_same(place, problem, other) {
            return false;
        }
    }
    false
}

// Whether a token is the head of a use of a declared function.
fn is_fluent(outline: &Outline<'_>, number: usize) -> bool {
    outline.opens(number.saturating_sub(1))
        && head(outline, ":functions", outline.word(number)).is_some()
}

// The number of the head of the first fluent without a value that is read in a change, of the first that are looked at.
fn missing_in(
    domain: &Outline<'_>,
    problem: &Outline<'_>,
    number: usize,
    left: &mut u32,
) -> Option<usize> {
    let is_assigned = domain.is(number.saturating_add(1), "assign");
    for place in number..domain.close_of(number) {
        if *left == 0 {
            break;
        }
        let is_set = is_assigned && place == number.saturating_add(3);
        if is_set || !domain.opens(place.saturating_sub(1)) {
            continue;
        }
        *left -= 1;
        if is_fluent(domain, place) && !has_value(problem, domain, place) {
            return Some(place);
        }
    }
    None
}

/// The number of the head of the first fluent without a value in `:init` that is read where a fluent is written, or of
/// that fluent itself. Only the first forms are looked at.
pub fn first_missing(
    domain: &Outline<'_>,
    problem: &Outline<'_>,
    fluent: Named<'_>,
) -> Option<usize> {
    let mut left = LOOKED;
    for number in 0..domain.len() {
        if changes(domain, number, fluent) {
            if let Some(place) = missing_in(domain, problem, number, &mut left) {
                return Some(place);
            }
        }
    }
    None
}
