//! The translation of a pair, printed and read again.

ghost use Rattle.std.specs.Prelude.{◌≡◌, MatchResult};
ghost use Rattle.plus_number.specs.Frac.{fraction_of};
ghost use Rattle.plus_lift.specs.Command.Again.{text_printed, line_printed, refusal_printed, ReadAgain, SpellsAgain, NotReadAgain};

use plus_reply::pair::pair::Refusal;
use plus_reply::pair::texts::pair_of;
use plus_report::{Early, Text};
use plus_translate_command::translated_text;
use plus_types::{File, Typed};
use plus_words::interval::Interval;
use std::alloc::Global;

// How a line names a text that was printed.
fn text_printed(text: Text) -> Text
    ensures { result ≡ text_printed text }
{
    match text {
        Text::Domain => Text::TranslatedDomain,
        Text::Problem => Text::TranslatedProblem,
        text => text,
    }
}

// A refusal of the printed texts names them so.
fn line_printed(early: Early) -> Early
    ensures { result ≡ line_printed early }
{
    match early {
        Early::BadText {
            text,
            start,
            end,
            word,
        } => Early::BadText {
            text: text_printed(text),
            start,
            end,
            word,
        },
        Early::TooLong { text } => Early::TooLong {
            text: text_printed(text),
        },
        Early::Depth { text, at } => Early::Depth {
            text: text_printed(text),
            at,
        },
        Early::Literal { text, start, end } => Early::Literal {
            text: text_printed(text),
            start,
            end,
        },
        early => early,
    }
}

// The same of any refusal of a pair.
fn refusal_printed(refusal: Refusal) -> Refusal
    ensures { result ≡ refusal_printed refusal }
{
    match refusal {
        Refusal::Early(early) => Refusal::Early(line_printed(early)),
        Refusal::ReadFault => Refusal::ReadFault,
        Refusal::NoMemory => Refusal::NoMemory,
    }
}

// The well-typed pair that two printed texts spell.
#[tactic(none)]
fn read(alloc: Global, domain: &[u8], problem: &[u8]) -> Result<Typed, Refusal>
    ensures { ReadAgain domain.now problem.now result }
{
    match pair_of(alloc, domain, problem) {
        Ok(typed) => Ok(typed),
        Err(refusal) => Err(refusal_printed(refusal)),
    }
}

/// The pair that the printed translation of a well-typed pair spells.
#[tactic(none)]
pub fn again(alloc: Global, interval: Interval, typed: &Typed) -> Result<Typed, Refusal>
    ensures { MatchResult result
        (λ t. SpellsAgain (fraction_of interval.value) typed.now.domain typed.now.problem t.domain t.problem)
        (NotReadAgain (fraction_of interval.value) typed.now.domain typed.now.problem) }
{
    match translated_text(alloc, File::Domain, interval, typed) {
        Ok(domain) => match translated_text(alloc, File::Problem, interval, typed) {
            Ok(problem) => read(alloc, domain.bytes(), problem.bytes()),
            Err(refusal) => Err(refusal),
        },
        Err(refusal) => Err(refusal),
    }
}
