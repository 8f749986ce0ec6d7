//! What other dialects have and is not read here.

use crate::outline::Outline;
use crate::say::append_line;
use std::alloc::AllocError;

/// A word of another dialect, and what it belongs to.
pub struct Unread {
    pub word: &'static str,
    pub what: &'static str,
}

/// The words.
pub static UNREAD: [Unread; 15] = [
    Unread {
        word: ":durative-action",
        what: "durative actions",
    },
    Unread {
        word: ":derived",
        what: "derived predicates",
    },
    Unread {
        word: ":constraints",
        what: "constraints",
    },
    Unread {
        word: ":length",
        what: ":length",
    },
    Unread {
        word: ":timeless",
        what: ":timeless",
    },
    Unread {
        word: ":vars",
        what: ":vars",
    },
    Unread {
        word: "either",
        what: "either",
    },
    Unread {
        word: "preference",
        what: "preferences",
    },
    Unread {
        word: "always",
        what: "constraints",
    },
    Unread {
        word: "sometime",
        what: "constraints",
    },
    Unread {
        word: "within",
        what: "constraints",
    },
    Unread {
        word: "at-most-once",
        what: "constraints",
    },
    Unread {
        word: "hold-during",
        what: "constraints",
    },
    Unread {
        word: "undefined",
        what: "undefined",
    },
    Unread {
        word: "object",
        what: "object fluents",
    },
];

// What a token belongs to that is not read.
fn what_at(outline: &Outline<'_>, number: usize) -> Option<&'static str> {
    for unread in &UNREAD {
        if outline.is(number, unread.word) {
            return Some(unread.what);
        }
    }
    None
}

// The tokens that may say what was meant where one is refused: itself, the one behind it, and the first one of the form
// around it.
fn what_around(outline: &Outline<'_>, number: usize) -> Option<&'static str> {
    if let Some(what) = what_at(outline, number) {
        return Some(what);
    }
    if outline.opens(number) {
        if let Some(what) = what_at(outline, number.saturating_add(1)) {
            return Some(what);
        }
    }
    what_at(outline, outline.around(number)?.saturating_add(1))
}

/// Appends that what stands at a token is not read, where it is a form of another dialect. Answers whether it is one.
pub fn append_unread(
    into: &mut Vec<u8>,
    outline: &Outline<'_>,
    number: usize,
) -> Result<bool, AllocError> {
    match what_around(outline, number) {
        Some(what) => {
            let see = " (\"Left out\" in docs/language.md)";
            append_line(into, &["not read: ", what, see])?;
            Ok(true)
        }
        None => Ok(false),
    }
}
