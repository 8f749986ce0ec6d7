//! Why words are no command, and what a command is for.

use plus_expected::Nearest;
use plus_expected::say::{append_all, append_line, text_of};
use plus_explain::append_commands;
use plus_explain::commands::{FORMS, Form};
use plus_words::decisions::Decisions;
use plus_words::happenings::Happenings;
use plus_words::interval::Interval;
use plus_words::numbers::number_of;
use plus_words::tanks::Tanks;
use std::alloc::AllocError;

/// A command: its first word, what is to be known of it, and an example.
struct Command {
    word: &'static str,
    about: &'static str,
    example: &'static str,
}

static COMMANDS: [Command; 8] = [
    Command {
        word: "check",
        about: "The plan has a line TIME: (NAME ARGUMENT ..) for each action, and may end with TIME: @end.",
        example: "planplus check domain.pddl problem.pddl tea.plan",
    },
    Command {
        word: "numeric",
        about: "The plan has a line (NAME ARGUMENT ..) for each action. The domain has no process and no event.",
        example: "planplus numeric steps-domain.pddl steps-problem.pddl steps.plan",
    },
    Command {
        word: "show",
        about: "The text is written as it is read: names in small letters, every type written out.",
        example: "planplus show domain domain.pddl",
    },
    Command {
        word: "translate",
        about: "A planner that knows numbers and no time reads the two halves; lift gives its plan the times back.",
        example: "planplus translate domain 1/2 domain.pddl problem.pddl >steps-domain.pddl",
    },
    Command {
        word: "lift",
        about: "The plan is one of the translated pair, with the same interval. What is written may be checked.",
        example: "planplus lift 1/2 domain.pddl problem.pddl steps.plan >my.plan",
    },
    Command {
        word: "plan",
        about: "A decision is an action at the present time, or a wait of the interval. At most TRIES lists are tried.",
        example: "planplus plan 1 4 1000 domain.pddl problem.pddl",
    },
    Command {
        word: "trim",
        about: "The plan is one that check calls valid, of at most 200 actions. What is written may be checked.",
        example: "planplus trim domain.pddl problem.pddl my.plan >shorter.plan",
    },
    Command {
        word: "trial",
        about: "The farm is made in memory; no file is read.",
        example: "planplus trial 100",
    },
];

/// A word that stands for a number, and which numbers it takes.
struct Range {
    name: &'static str,
    takes: &'static str,
}

static RANGES: [Range; 5] = [
    Range {
        name: "INTERVAL",
        takes: "a number above 0, as 2, 0.5 or 1/3",
    },
    Range {
        name: "DECISIONS",
        takes: "a whole number from 0 to 64",
    },
    Range {
        name: "TRIES",
        takes: "a whole number from 1 to 1000000",
    },
    Range {
        name: "N",
        takes: "a whole number from 1 to 1000000",
    },
    Range {
        name: "TANKS",
        takes: "a whole number from 1 to 1000",
    },
];

// Whether a word may stand where a command has this one.
fn fits(wanted: &str, word: &str) -> bool {
    match wanted {
        "INTERVAL" => Interval::parse(word).is_some(),
        "DECISIONS" => Decisions::parse(word).is_some(),
        "TRIES" => number_of(word, 7, 1, 1_000_000).is_some(),
        "N" => Happenings::parse(word).is_some(),
        "TANKS" => Tanks::parse(word).is_some(),
        "DOMAIN" | "PROBLEM" | "PLAN" => true,
        _ => word == wanted,
    }
}

// How many of the words fit a command, from the first on.
fn fitting(words: &[String], form: &Form) -> usize {
    let mut count = 0usize;
    for (wanted, word) in form.words.split(' ').zip(words) {
        if !fits(wanted, word.as_str()) {
            break;
        }
        count = count.saturating_add(1);
    }
    count
}

// The command that most of the words fit.
fn best_form(words: &[String]) -> Option<&'static Form> {
    let mut best = None;
    let mut most = 0;
    for form in &FORMS {
        let count = fitting(words, form);
        if count > most {
            best = Some(form);
            most = count;
        }
    }
    best
}

// Which numbers a word takes, where it stands for one.
fn range_of(wanted: &str) -> Option<&'static str> {
    for range in &RANGES {
        if range.name == wanted {
            return Some(range.takes);
        }
    }
    None
}

// Appends what is wrong with a word that does not fit.
fn append_misfit<'a>(into: &mut Vec<u8>, wanted: &'a str, word: &'a str) -> Result<(), AllocError> {
    append_all(into, &["planplus: ", wanted, " is "])?;
    append_all(into, &[range_of(wanted).unwrap_or("wanted here")])?;
    append_line(into, &[", and not ", word])
}

// Appends the first word that does not fit a command, or which one is missing or too many.
fn append_wrong(into: &mut Vec<u8>, words: &[String], form: &Form) -> Result<(), AllocError> {
    let count = fitting(words, form);
    let wanted = form.words.split(' ').nth(count);
    match (wanted, words.get(count)) {
        (Some(wanted), Some(word)) => append_misfit(into, wanted, word.as_str()),
        (Some(wanted), None) => append_line(into, &["planplus: ", wanted, " is missing"]),
        (None, Some(word)) => append_line(
            into,
            &["planplus: ", word.as_str(), " is one word too many"],
        ),
        (None, None) => Ok(()),
    }
}

// The command of this first word.
fn command_of(word: &str) -> Option<&'static Command> {
    COMMANDS.iter().find(|command| command.word == word)
}

// Whether a form is one of a command.
fn is_of(form: &Form, command: &Command) -> bool {
    form.words.split(' ').next() == Some(command.word)
}

// Appends the forms of a command, what is to be known of it, and an example.
fn append_command(into: &mut Vec<u8>, command: &Command) -> Result<(), AllocError> {
    for form in &FORMS {
        if is_of(form, command) {
            append_line(into, &["  planplus ", form.words])?;
            append_line(into, &["      ", form.does])?;
        }
    }
    append_line(into, &[command.about])?;
    append_line(into, &["for example: ", command.example])
}

// Appends the command that a word names or nearly names, or the list of all.
fn append_named(into: &mut Vec<u8>, word: &str) -> Result<(), AllocError> {
    if let Some(command) = command_of(word) {
        return append_command(into, command);
    }
    let mut nearest = Nearest::to(word.as_bytes());
    for command in &COMMANDS {
        nearest.offer(command.word.as_bytes());
    }
    let Some(near) = nearest.best() else {
        append_line(into, &["planplus: no command is named ", word])?;
        return append_commands(into);
    };
    append_line(
        into,
        &[
            "planplus: no command is named ",
            word,
            "; the nearest is ",
            text_of(near),
        ],
    )?;
    match command_of(text_of(near)) {
        Some(command) => append_command(into, command),
        None => Ok(()),
    }
}

// Whether a word asks for help.
fn is_help(word: &str) -> bool {
    word == "help" || word == "--help" || word == "-h"
}

// The word that help is asked on.
fn asked_on(words: &[String]) -> Option<&str> {
    match words {
        [first, second, ..] if is_help(first.as_str()) => Some(second.as_str()),
        [first, .., last] if is_help(last.as_str()) && last.as_str() != "help" => Some(
            first.as_str(),
        ),
        _ => None,
    }
}

/// Appends why words are no command: the first one that does not fit, which it may be, and what the command is for; or the
/// list of all commands.
pub fn append_usage(into: &mut Vec<u8>, words: &[String]) -> Result<(), AllocError> {
    if let Some(word) = asked_on(words) {
        return append_named(into, word);
    }
    let Some(first) = words.first() else {
        return append_commands(into);
    };
    if is_help(first.as_str()) {
        return append_commands(into);
    }
    match (command_of(first.as_str()), best_form(words)) {
        (Some(command), Some(form)) => {
            append_wrong(into, words, form)?;
            append_command(into, command)
        }
        _ => append_named(into, first.as_str()),
    }
}
