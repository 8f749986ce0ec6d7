//! The words of the command line.

ghost use Rattle.std.specs.Prelude.{◌≡◌, [], ◌∷◌, map, option_map, string_bytes, IfOk};
ghost use Rattle.plus_run.specs.Command.{trial_of, check_of, with_files, show_of, file_named, translate_of, lift_of, with_four, plan_of, with_five, cut_plan_of, with_six, command_of, files_of};
ghost use Rattle.plus_run.specs.Meant.{meant};

use plus_plan_command::Search;
use plus_types::File;
use plus_words::decisions::Decisions;
use plus_words::happenings::Happenings;
use plus_words::interval::Interval;
use plus_words::tanks::Tanks;
use std::alloc::{AllocError, Global};

/// A command, with the names of its files.
#[derive(Clone, Copy)]
pub enum Command<'a> {
    /// `check D P L` and `check D P L --happenings N`: checks a plan.
    Check(Check<'a>),
    /// `show domain D`: writes the canonical text of a domain.
    ShowDomain(&'a str),
    /// `show problem P`: writes the canonical text of a problem.
    ShowProblem(&'a str),
    /// `numeric D P L`: plays a plan without time.
    Numeric(PlanFiles<'a>),
    /// `trial N`: checks a farm of so many tanks.
    Trial(Tanks),
    /// `translate domain Q D P` and `translate problem Q D P`: writes that half of the translation in steps of
    /// this length.
    Translate(File, Stepped<'a>),
    /// `lift Q D P L`: makes an untimed plan of the translation a timed one.
    Lift(LiftFiles<'a>),
    /// `plan Q K N D P` and `plan Q K N D P --cut`: searches for a plan.
    Plan(Searched<'a>),
    /// `trim D P L`: leaves actions of a valid plan out.
    Trim(PlanFiles<'a>),
}

/// The files of a pair and of a plan.
#[derive(Clone, Copy)]
pub struct PlanFiles<'a> {
    pub domain: &'a str,
    pub problem: &'a str,
    pub plan: &'a str,
}

/// The files of a pair, and the length of its steps.
#[derive(Clone, Copy)]
pub struct Stepped<'a> {
    pub interval: Interval,
    pub domain: &'a str,
    pub problem: &'a str,
}

/// The files of a pair and of an untimed plan of its translation, and the length of its steps.
#[derive(Clone, Copy)]
pub struct LiftFiles<'a> {
    pub interval: Interval,
    pub domain: &'a str,
    pub problem: &'a str,
    pub plan: &'a str,
}

/// The files of a pair, and how a plan of it is searched for.
#[derive(Clone, Copy)]
pub struct Searched<'a> {
    pub search: Search,
    pub domain: &'a str,
    pub problem: &'a str,
}

/// The files of a check, and how many moments its plan may enter.
#[derive(Clone, Copy)]
pub struct Check<'a> {
    pub domain: &'a str,
    pub problem: &'a str,
    pub plan: &'a str,
    pub happenings: Happenings,
}

// Two names of files.
fn two_names(alloc: Global, domain: &str, problem: &str) -> Result<Vec<String>, AllocError>
    ensures { IfOk result (λ names. map string_bytes names.items ≡ domain.now ∷ problem.now ∷ []) }
{
    let mut names = Vec::new(alloc);
    names.push(String::from_str(alloc, domain)?)?;
    names.push(String::from_str(alloc, problem)?)?;
    Ok(names)
}

// Three names of files.
fn three_names(
    alloc: Global,
    domain: &str,
    problem: &str,
    plan: &str,
) -> Result<Vec<String>, AllocError>
    ensures { IfOk result (λ names. map string_bytes names.items ≡ domain.now ∷ problem.now ∷ plan.now ∷ []) }
{
    let mut names = Vec::new(alloc);
    names.push(String::from_str(alloc, domain)?)?;
    names.push(String::from_str(alloc, problem)?)?;
    names.push(String::from_str(alloc, plan)?)?;
    Ok(names)
}

// The command `show`, of this kind of text.
fn show<'a>(what: &str, file: &'a str) -> Option<Command<'a>>
    ensures { option_map meant result ≡ show_of what.now file.now }
{
    if what == "domain" {
        Some(Command::ShowDomain(file))
    } else if what == "problem" {
        Some(Command::ShowProblem(file))
    } else {
        None
    }
}

// The command with this name, of one word.
fn with_one<'a>(name: &str, number: &str) -> Option<Command<'a>>
    ensures { option_map meant result ≡ trial_of name.now number.now }
{
    if name == "trial" {
        let tanks = Tanks::parse(number)?;
        Some(Command::Trial(tanks))
    } else {
        None
    }
}

// The command `check`, of these three files and two more words.
fn counted_check<'a>(
    domain: &'a str,
    problem: &'a str,
    plan: &'a str,
    option: &str,
    number: &str,
) -> Option<Command<'a>>
    ensures { option_map meant result ≡ check_of domain.now problem.now plan.now option.now number.now }
{
    if option == "--happenings" {
        let happenings = Happenings::parse(number)?;
        Some(Command::Check(Check {
            domain,
            problem,
            plan,
            happenings,
        }))
    } else {
        None
    }
}

// The command with this name, of these three files.
fn with_files<'a>(name: &str, files: PlanFiles<'a>) -> Option<Command<'a>>
    ensures { option_map meant result
        ≡ with_files name.now files.entry.domain.now files.entry.problem.now files.entry.plan.now }
{
    if name == "check" {
        Some(Command::Check(Check {
            domain: files.domain,
            problem: files.problem,
            plan: files.plan,
            happenings: Happenings::DEFAULT,
        }))
    } else if name == "numeric" {
        Some(Command::Numeric(files))
    } else if name == "trim" {
        Some(Command::Trim(files))
    } else {
        None
    }
}

// One of the two texts.
fn file_named(word: &str) -> Option<File>
    ensures { result ≡ file_named word.now }
{
    if word == "domain" {
        Some(File::Domain)
    } else if word == "problem" {
        Some(File::Problem)
    } else {
        None
    }
}

// The command `translate`, of this half of the translation.
fn translate<'a>(
    what: &str,
    interval: &str,
    domain: &'a str,
    problem: &'a str,
) -> Option<Command<'a>>
    ensures { option_map meant result ≡ translate_of what.now interval.now domain.now problem.now }
{
    let file = file_named(what)?;
    let interval = Interval::parse(interval)?;
    Some(Command::Translate(
        file,
        Stepped {
            interval,
            domain,
            problem,
        },
    ))
}

// The command `lift`.
fn lift<'a>(interval: &str, domain: &'a str, problem: &'a str, plan: &'a str) -> Option<Command<'a>>
    ensures { option_map meant result ≡ lift_of interval.now domain.now problem.now plan.now }
{
    let interval = Interval::parse(interval)?;
    Some(Command::Lift(LiftFiles {
        interval,
        domain,
        problem,
        plan,
    }))
}

// The command with this name, of these four words.
fn with_four<'a>(
    name: &str,
    first: &'a str,
    second: &'a str,
    third: &'a str,
    fourth: &'a str,
) -> Option<Command<'a>>
    ensures { option_map meant result ≡ with_four name.now first.now second.now third.now fourth.now }
{
    if name == "translate" {
        translate(first, second, third, fourth)
    } else if name == "lift" {
        lift(first, second, third, fourth)
    } else {
        None
    }
}

// The command `plan`, with the cut or without.
fn plan<'a>(
    interval: &str,
    decisions: &str,
    tries: &str,
    is_cut: bool,
    domain: &'a str,
    problem: &'a str,
) -> Option<Command<'a>>
    ensures { option_map meant result ≡ plan_of interval.now decisions.now tries.now is_cut domain.now problem.now }
{
    let interval = Interval::parse(interval)?;
    let decisions = Decisions::parse(decisions)?;
    let tries = Happenings::parse(tries)?;
    Some(Command::Plan(Searched {
        search: Search {
            interval,
            decisions,
            tries,
            is_cut,
        },
        domain,
        problem,
    }))
}

// The command with this name, of these five words.
fn with_five<'a>(
    name: &str,
    first: &'a str,
    second: &'a str,
    third: &'a str,
    fourth: &'a str,
    fifth: &'a str,
) -> Option<Command<'a>>
    ensures { option_map meant result
        ≡ with_five name.now first.now second.now third.now fourth.now fifth.now }
{
    if name == "check" {
        counted_check(first, second, third, fourth, fifth)
    } else if name == "plan" {
        plan(first, second, third, false, fourth, fifth)
    } else {
        None
    }
}

// The command `plan` with the cut, where the word behind its files asks for it.
fn cut_plan<'a>(
    interval: &str,
    decisions: &str,
    tries: &str,
    domain: &'a str,
    problem: &'a str,
    option: &str,
) -> Option<Command<'a>>
    ensures { option_map meant result
        ≡ cut_plan_of interval.now decisions.now tries.now domain.now problem.now option.now }
{
    if option == "--cut" {
        plan(interval, decisions, tries, true, domain, problem)
    } else {
        None
    }
}

// The command with this name, of these six words.
fn with_six<'a>(
    name: &str,
    first: &'a str,
    second: &'a str,
    third: &'a str,
    fourth: &'a str,
    fifth: &'a str,
    sixth: &'a str,
) -> Option<Command<'a>>
    ensures { option_map meant result
        ≡ with_six name.now first.now second.now third.now fourth.now fifth.now sixth.now }
{
    if name == "plan" {
        cut_plan(first, second, third, fourth, fifth, sixth)
    } else {
        None
    }
}

/// The command that the words mean, if they mean one.
#[tactic(auto, using(crate::proofs::CommandLemmas::too_few, crate::proofs::CommandLemmas::too_many))]
pub fn parse<'a>(words: &'a [String]) -> Option<Command<'a>>
    ensures { option_map meant result ≡ command_of (map string_bytes words.now) }
{
    match words {
        [name, domain, problem, plan] => with_files(
            name.as_str(),
            PlanFiles {
                domain: domain.as_str(),
                problem: problem.as_str(),
                plan: plan.as_str(),
            },
        ),
        [name, first, second, third, fourth, fifth] => with_five(
            name.as_str(),
            first.as_str(),
            second.as_str(),
            third.as_str(),
            fourth.as_str(),
            fifth.as_str(),
        ),
        [name, first, second, third, fourth, fifth, sixth] => with_six(
            name.as_str(),
            first.as_str(),
            second.as_str(),
            third.as_str(),
            fourth.as_str(),
            fifth.as_str(),
            sixth.as_str(),
        ),
        [name, first, second, third, fourth] => with_four(
            name.as_str(),
            first.as_str(),
            second.as_str(),
            third.as_str(),
            fourth.as_str(),
        ),
        [name, number] => with_one(name.as_str(), number.as_str()),
        [name, what, file] => {
            if name.as_str() == "show" {
                show(what.as_str(), file.as_str())
            } else {
                None
            }
        }
        _ => None,
    }
}

// One name of a file.
fn one_name(alloc: Global, file: &str) -> Result<Vec<String>, AllocError>
    ensures { IfOk result (λ names. map string_bytes names.items ≡ file.now ∷ []) }
{
    let mut names = Vec::new(alloc);
    names.push(String::from_str(alloc, file)?)?;
    Ok(names)
}

/// The names of the files of the command that the words mean, in the order of the words; none where
/// they mean no command.
pub fn files(alloc: Global, words: &[String]) -> Result<Vec<String>, AllocError>
    ensures { IfOk result (λ names. map string_bytes names.items ≡ files_of (command_of (map string_bytes words.now))) }
{
    match parse(words) {
        None | Some(Command::Trial(_)) => Ok(Vec::new(alloc)),
        Some(Command::Check(check)) => three_names(alloc, check.domain, check.problem, check.plan),
        Some(Command::Numeric(files)) | Some(Command::Trim(files)) => three_names(
            alloc,
            files.domain,
            files.problem,
            files.plan,
        ),
        Some(Command::ShowDomain(file)) | Some(Command::ShowProblem(file)) => one_name(alloc, file),
        Some(Command::Translate(_, files)) => two_names(alloc, files.domain, files.problem),
        Some(Command::Plan(words)) => two_names(alloc, words.domain, words.problem),
        Some(Command::Lift(files)) => three_names(alloc, files.domain, files.problem, files.plan),
    }
}
