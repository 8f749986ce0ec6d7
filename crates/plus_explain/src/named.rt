//! What a verdict line names: a place in a text.

/// A place that a line names, and why.
#[derive(Clone, Copy, Debug, PartialEq, Eq)]
pub struct Named<'a> {
    /// Which text it is: `domain`, `problem`, `plan`.
    pub text: &'a str,
    pub place: Bytes,
    pub why: &'a str,
}

/// Some bytes of a text, from `start` to `end`.
#[derive(Clone, Copy, Debug, PartialEq, Eq)]
pub enum Bytes {
    /// They are counted from the beginning of the text.
    Text {
        start: usize,
        end: usize,
    },
    /// They are counted from the beginning of this line.
    Line {
        line: usize,
        start: usize,
        end: usize,
    },
    /// They are all of this line.
    Whole {
        line: usize,
    },
}

// `B-E`
fn span(words: &str) -> Option<(usize, usize)> {
    let (start, end) = words.split_once('-')?;
    Some((start.parse::<usize>().ok()?, end.parse::<usize>().ok()?))
}

// `F B-E`
fn in_text<'a>(words: &'a str, why: &'a str) -> Option<Named<'a>> {
    let (text, bytes) = words.rsplit_once(' ')?;
    let (start, end) = span(bytes)?;
    Some(Named {
        text,
        place: Bytes::Text { start, end },
        why,
    })
}

// `F at B`
fn at_byte<'a>(words: &'a str, why: &'a str) -> Option<Named<'a>> {
    let (text, byte) = words.split_once(" at ")?;
    let start = byte.parse::<usize>().ok()?;
    Some(Named {
        text,
        place: Bytes::Text {
            start,
            end: start.saturating_add(1),
        },
        why,
    })
}

// `L, bytes B-E`
fn in_line(words: &str) -> Option<Named<'_>> {
    let (number, bytes) = words.split_once(", bytes ")?;
    let line = number.parse::<usize>().ok()?;
    let (start, end) = span(bytes)?;
    Some(Named {
        text: "plan",
        place: Bytes::Line { line, start, end },
        why: "no line of a plan",
    })
}

// `L` and, behind this, why
fn whole_line<'a>(words: &'a str, between: &str) -> Option<Named<'a>> {
    let (number, why) = words.split_once(between)?;
    Some(Named {
        text: "plan",
        place: Bytes::Whole {
            line: number.parse::<usize>().ok()?,
        },
        why,
    })
}

// `F text over N bytes`
fn too_long(words: &str) -> Option<Named<'_>> {
    let (text, over) = words.split_once(" text ")?;
    let start = over
        .strip_prefix("over ")?
        .strip_suffix(" bytes")?
        .parse::<usize>()
        .ok()?;
    Some(Named {
        text,
        place: Bytes::Text {
            start,
            end: start.saturating_add(1),
        },
        why: over,
    })
}

// `F B-E: WORD`
fn bad_text(words: &str) -> Option<Named<'_>> {
    let (place, why) = words.split_once(": ")?;
    in_text(place, why)
}

impl Named<'_> {
    /// The place that a verdict line names, if it names one.
    pub fn in_verdict(verdict: &str) -> Option<Named<'_>> {
        if let Some(words) = verdict.strip_prefix("bad text: plan line ") {
            return in_line(words);
        }
        if let Some(words) = verdict.strip_prefix("bad text: ") {
            return bad_text(words);
        }
        if let Some(words) = verdict.strip_prefix("beyond: literal in ") {
            return in_text(words, "literal");
        }
        if let Some(words) = verdict.strip_prefix("beyond: depth 64 in ") {
            return at_byte(words, "depth 64");
        }
        if let Some(words) = verdict.strip_prefix("beyond: line ") {
            return whole_line(words, " ");
        }
        if let Some(words) = verdict.strip_prefix("beyond: ") {
            return too_long(words);
        }
        whole_line(verdict.strip_prefix("invalid: line ")?, ": ")
    }
}
