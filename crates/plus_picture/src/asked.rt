//! What the words of the command line ask for.

use crate::collector::Wanted;
use plus_number::consts::zero;
use plus_number::exact::Exact;
use plus_number::frac::Frac64;
use plus_words::happenings::Happenings;
use plus_words::interval::Interval;
use std::cmp::Ordering;

/// The files of a picture, and what of it is wanted.
#[derive(Clone, Copy)]
pub struct Asked<'a> {
    pub domain: &'a str,
    pub problem: &'a str,
    pub plan: &'a str,
    pub happenings: Happenings,
    pub from: Option<Frac64>,
    pub to: Option<Frac64>,
    /// The names of the rows that are wanted; all are where there is none.
    pub only: &'a [String],
}

// The time that a word names: 0, or an interval from there.
fn time(word: &str) -> Option<Frac64> {
    if word == "0" {
        return Some(zero::<Frac64>());
    }
    match Interval::parse(word) {
        Some(interval) => Some(interval.value),
        None => None,
    }
}

// How many words stand before the next option.
fn names(words: &[String]) -> usize {
    match words.iter().position(|word| word.starts_with("--")) {
        Some(place) => place,
        None => words.len(),
    }
}

impl<'a> Asked<'a> {
    /// What the words ask for, if they ask for a picture: the three files, and behind them options.
    pub fn parse(words: &'a [String]) -> Option<Asked<'a>> {
        let [domain, problem, plan, options @ ..] = words else {
            return None;
        };
        let mut asked = Asked {
            domain: domain.as_str(),
            problem: problem.as_str(),
            plan: plan.as_str(),
            happenings: Happenings::DEFAULT,
            from: None,
            to: None,
            only: &[],
        };
        let mut rest = options;
        for _option in 0..options.len() {
            if rest.is_empty() {
                break;
            }
            rest = asked.option(rest)?;
        }
        if asked.is_backwards() {
            return None;
        }
        Some(asked)
    }

    // Whether the times that are wanted end before they begin.
    fn is_backwards(&self) -> bool {
        match (self.from, self.to) {
            (Some(from), Some(to)) => to.order(from) == Ordering::Less,
            _ => false,
        }
    }

    /// Which part of the plan is wanted.
    pub fn wanted(&self) -> Wanted<'a> {
        Wanted {
            from: self.from,
            to: self.to,
            only: self.only,
        }
    }

    // Takes the first option of the words, and answers what stands behind it.
    fn option(&mut self, words: &'a [String]) -> Option<&'a [String]> {
        let [option, value, rest @ ..] = words else {
            return None;
        };
        match option.as_str() {
            "--from" => self.from = Some(time(value.as_str())?),
            "--to" => self.to = Some(time(value.as_str())?),
            "--happenings" => self.happenings = Happenings::parse(value.as_str())?,
            "--only" => return self.take_names(words.get(1..)?),
            _ => return None,
        }
        Some(rest)
    }

    fn take_names(&mut self, words: &'a [String]) -> Option<&'a [String]> {
        let count = names(words);
        if count == 0 {
            return None;
        }
        self.only = words.get(..count)?;
        words.get(count..)
    }
}
