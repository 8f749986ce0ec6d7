//! What is wanted at a place of a text, by the table of the grammar.

use crate::grammar::{KEYS, NEEDED, RESERVED, SCHEMAS, Whole, ways_of};
use crate::near::difference;
use crate::outline::Outline;
use crate::say::{append_all, append_comma, append_line};
use plus_tokens::Kind;
use std::alloc::{AllocError, Global};

/// The most things that are said to be wanted.
const MOST: usize = 6;

// The token of this number as a word of the table takes it.
fn takes(outline: &Outline<'_>, number: usize, word: &str) -> bool {
    match word {
        "NAME" => outline.has_kind(number, Kind::Name),
        "PLAIN" => {
            outline.has_kind(number, Kind::Name)
                && !RESERVED.iter().any(|reserved| outline.is(number, reserved))
        }
        "VARIABLE" => outline.has_kind(number, Kind::Variable),
        "NUMBER" => outline.has_kind(number, Kind::Number),
        "KEYWORD" => outline.has_kind(number, Kind::Keyword),
        "ANY" => number < outline.len(),
        _ => outline.is(number, word),
    }
}

// The first word of a way.
fn first_of(way: &'static str) -> &'static str {
    match way.split_once(' ') {
        Some((first, _)) => first,
        None => way,
    }
}

// The way of a part that a token takes.
fn way_for(part: &'static str, outline: &Outline<'_>, number: usize) -> Option<&'static str> {
    for way in ways_of(part).split('|') {
        if takes(outline, number, first_of(way)) {
            return Some(way);
        }
    }
    None
}

// Puts the parts of a way behind its first word on the stack, the first of them on top.
fn push_rest(stack: &mut Vec<&'static str>, way: &'static str) -> Result<(), AllocError> {
    if let Some((_, rest)) = way.split_once(' ') {
        push_parts(stack, rest)?;
    }
    Ok(())
}

fn push_parts(stack: &mut Vec<&'static str>, parts: &'static str) -> Result<(), AllocError> {
    for part in parts.rsplit(' ') {
        stack.push(part)?;
    }
    Ok(())
}

/// The part of a text in which a token stands, by the table and the tokens before it. A section that may stand once is taken
/// by the table as often as it stands, so who asks says which token is refused.
pub fn part_at(
    alloc: Global,
    outline: &Outline<'_>,
    number: usize,
    whole: Whole,
) -> Result<Option<&'static str>, AllocError> {
    let mut stack = Vec::new(alloc);
    push_parts(&mut stack, whole.parts())?;
    for place in 0..number {
        let Some(part) = stack.pop() else {
            return Ok(None);
        };
        match way_for(part, outline, place) {
            Some(way) => push_rest(&mut stack, way)?,
            None => return Ok(Some(part)),
        }
    }
    Ok(stack.pop())
}

// How a word of the table is called.
fn called(word: &'static str) -> &'static str {
    match word {
        "NAME" | "PLAIN" => "a name",
        "VARIABLE" => "a variable",
        "NUMBER" => "a number",
        "KEYWORD" => "a keyword",
        "ANY" => "any token",
        _ => word,
    }
}

/// Where a section or a key that may stand once stands before a token, if it does.
pub fn met(outline: &Outline<'_>, before: usize, word: &str) -> Option<usize> {
    if SCHEMAS.iter().any(|schema| *schema == word) || !word.starts_with(':') {
        return None;
    }
    let is_key = KEYS.iter().any(|key| *key == word);
    for back in 0..before {
        let number = before - back - 1;
        if outline.is(number, word) {
            return Some(number);
        }
        if is_key && SCHEMAS.iter().any(|schema| outline.is(number, schema)) {
            return None;
        }
    }
    None
}

/// What is wanted at a token: words that were met already may not stand again.
#[derive(Clone, Copy)]
pub struct Wanted<'a> {
    pub outline: &'a Outline<'a>,
    pub part: &'static str,
    pub number: usize,
}

impl Wanted<'_> {
    // Whether a word may stand here.
    fn may_stand(&self, word: &str) -> bool {
        met(self.outline, self.number, word).is_none()
    }

    // The wanted word that is nearest to the one that stands here.
    fn nearest(&self) -> Option<&'static str> {
        let mut best = None;
        let mut by = usize::MAX;
        for way in ways_of(self.part).split('|') {
            let word = first_of(way);
            match difference(self.outline.word(self.number), word.as_bytes()) {
                Some(other) if other < by && self.may_stand(word) => {
                    best = Some(word);
                    by = other;
                }
                _ => {}
            }
        }
        best
    }

    // Appends the words that are wanted, behind the nearest.
    fn append_words(
        &self,
        into: &mut Vec<u8>,
        nearest: Option<&'static str>,
    ) -> Result<(), AllocError> {
        let mut count = 0usize;
        if let Some(word) = nearest {
            append_all(into, &[called(word)])?;
            count = 1;
        }
        for way in ways_of(self.part).split('|') {
            let word = first_of(way);
            if nearest == Some(word) || !self.may_stand(word) {
                continue;
            }
            if count == MOST {
                return append_all(into, &[" .."]);
            }
            append_comma(into, count)?;
            append_all(into, &[called(word)])?;
            count = count.saturating_add(1);
        }
        Ok(())
    }

    /// Appends what is wanted, as a line.
    pub fn append(&self, into: &mut Vec<u8>) -> Result<(), AllocError> {
        append_all(into, &["expected "])?;
        self.append_words(into, self.nearest())?;
        append_line(into, &[])
    }

    /// Appends the parts of a problem that are missing, as a line.
    pub fn append_missing(&self, into: &mut Vec<u8>) -> Result<(), AllocError> {
        let mut count = 0usize;
        append_all(into, &["missing: "])?;
        for part in &NEEDED {
            if met(self.outline, self.number, part).is_none() {
                append_comma(into, count)?;
                append_all(into, &[*part])?;
                count = count.saturating_add(1);
            }
        }
        append_line(into, &[])
    }

    /// Whether a problem ends here that has not all its parts.
    pub fn lacks_parts(&self) -> bool {
        self.part == "Parts"
            && NEEDED
                .iter()
                .any(|part| met(self.outline, self.number, part).is_none())
    }
}
