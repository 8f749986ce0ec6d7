//! The commands and their words.

ghost use Rattle.std.specs.Prelude.{◌≡◌, map, string_bytes, Contains, IfSome};

use std::alloc::AllocError;

/// A command: its words, where those in capital letters stand for words of the user's, and what it does.
pub struct Form {
    pub words: &'static str,
    pub does: &'static str,
}

/// The commands, in the order in which they are listed. A command is added by a line here.
pub static FORMS: [Form; 12] = [
    Form {
        words: "check DOMAIN PROBLEM PLAN",
        does: "checks a plan, and writes what happens",
    },
    Form {
        words: "check DOMAIN PROBLEM PLAN --happenings N",
        does: "the same, for a plan that enters at most N moments",
    },
    Form {
        words: "numeric DOMAIN PROBLEM PLAN",
        does: "checks a plan without time",
    },
    Form {
        words: "show domain DOMAIN",
        does: "writes the canonical text of a domain",
    },
    Form {
        words: "show problem PROBLEM",
        does: "writes the canonical text of a problem",
    },
    Form {
        words: "translate domain INTERVAL DOMAIN PROBLEM",
        does: "writes the domain of the problem in steps",
    },
    Form {
        words: "translate problem INTERVAL DOMAIN PROBLEM",
        does: "writes the problem in steps",
    },
    Form {
        words: "lift INTERVAL DOMAIN PROBLEM PLAN",
        does: "gives a plan of the problem in steps its times",
    },
    Form {
        words: "plan INTERVAL DECISIONS TRIES DOMAIN PROBLEM",
        does: "searches for a plan on a grid of times",
    },
    Form {
        words: "plan INTERVAL DECISIONS TRIES DOMAIN PROBLEM --cut",
        does: "the same, and turns back where an atom of the goal can never hold",
    },
    Form {
        words: "trim DOMAIN PROBLEM PLAN",
        does: "leaves actions of a valid plan out until no single one can go",
    },
    Form {
        words: "trial TANKS",
        does: "checks a farm of so many tanks",
    },
];

/// The widest words of a command that others are lined up with.
const WIDTH: usize = 52;

// Whether a word of a form stands for a word of the user's.
fn is_open(word: &str) -> bool {
    word.bytes().all(|byte| byte.is_ascii_uppercase())
}

// Whether words are of a form.
fn is_of(words: &[String], form: &Form) -> bool {
    let mut left = words;
    for wanted in form.words.split(' ') {
        let Some((word, behind)) = left.split_first() else {
            return false;
        };
        if !is_open(wanted) && word.as_str() != wanted {
            return false;
        }
        left = behind;
    }
    left.is_empty()
}

// The word that stands for a name of a form.
fn word_in<'a>(words: &'a [String], form: &Form, name: &str) -> Option<&'a str>
    ensures { IfSome result (λ word. Contains (map string_bytes words.now) word.now) }
{
    let mut wanted = form.words.split(' ');
    let place = wanted.position(|word| is_open(word) && word.eq_ignore_ascii_case(name))?;
    match words.get(place) {
        Some(word) => Some(word.as_str()),
        None => None,
    }
}

/// The word that stands for a name, as the file's name for `domain`, where the words are those of a command
/// that has it.
pub fn word_for<'a>(words: &'a [String], name: &str) -> Option<&'a str>
    ensures { IfSome result (λ word. Contains (map string_bytes words.now) word.now) }
{
    for form in &FORMS {
        if is_of(words, form) {
            return word_in(words, form, name);
        }
    }
    None
}

// Appends the line of a command.
fn append_form(into: &mut Vec<u8>, form: &Form) -> Result<(), AllocError> {
    into.extend_from_slice(b"  ")?;
    into.extend_from_slice(form.words.as_bytes())?;
    for _column in form.words.len()..WIDTH {
        into.push(b' ')?;
    }
    into.extend_from_slice(form.does.as_bytes())?;
    into.push(b'\n')?;
    Ok(())
}

/// Appends the list of all commands, one on a line.
pub fn append_commands(into: &mut Vec<u8>) -> Result<(), AllocError> {
    into.extend_from_slice(b"the commands:\n")?;
    for form in &FORMS {
        append_form(into, form)?;
    }
    into.extend_from_slice(
        b"The words in capital letters are yours: names of files, and numbers.\n",
    )
}
