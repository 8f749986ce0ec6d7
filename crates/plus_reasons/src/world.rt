//! Why a world does not go on: where the event or the process stands, who moves or writes the fluent, and what is missing.

use crate::declared::{head, schema};
use crate::writers::{MOVERS, Named, WRITERS, Who, append_writers, first_missing};
use plus_expected::say::append_line;
use plus_expected::{File, Outline};
use std::alloc::AllocError;

/// The most fluents of a condition of which it is told who moves them.
const MOST: u32 = 3;

/// How many tokens of an event or a process are looked at for them.
const LOOKED: usize = 1000;

/// What a verdict line says of the world. An event or a process goes by its label, as `(flow tank)`.
#[derive(Clone, Copy)]
pub enum Told<'a> {
    /// An event or a process does something, and which it is.
    Owner { owner: &'a str, says: &'static str },
    /// A process reads a fluent that moves.
    Moving { process: &'a str, fluent: &'a str },
    /// Two writes of a fluent do not go together.
    Conflict(&'a str),
    /// A fluent gets no value.
    NoValue(&'a str),
}

// What a line says of an event or a process.
fn owned(words: &str) -> Option<Told<'_>> {
    if let Some(owner) = words.strip_suffix(" is unsettled") {
        let says = "it can neither run nor rest here";
        return Some(Told::Owner { owner, says });
    }
    if let Some(owner) = words.strip_suffix(" repeats") {
        let says = "its condition holds behind it once more";
        return Some(Told::Owner { owner, says });
    }
    let (owner, _) = words.split_once(" has no first moment at ")?;
    let says = "its condition begins to hold behind this time, and not at it";
    Some(Told::Owner { owner, says })
}

impl<'a> Told<'a> {
    /// What a verdict line says, if it is one of these.
    pub fn in_verdict(verdict: &'a str) -> Option<Told<'a>> {
        if let Some(words) = verdict.strip_prefix("beyond: nonlinear in ") {
            let (owner, _) = words.split_once(", ")?;
            let says = "a comparison of it is not straight along the present rates";
            return Some(Told::Owner { owner, says });
        }
        let words = verdict.strip_prefix("invalid: ")?;
        if let Some(fluent) = words.strip_prefix("conflict on ") {
            return Some(Told::Conflict(fluent));
        }
        if let Some(fluent) = words.strip_prefix("no value for ") {
            return Some(Told::NoValue(fluent));
        }
        if let Some((process, fluent)) = words.split_once(" reads moving ") {
            return Some(Told::Moving { process, fluent });
        }
        owned(words)
    }
}

// The number of the name of the event or the process with a label.
fn owner_of(outline: &Outline<'_>, label: &str) -> Option<usize> {
    let name = Named { label }.name().as_bytes();
    match schema(outline, ":process", name) {
        Some(number) => Some(number),
        None => schema(outline, ":event", name),
    }
}

// The two files with their tokens.
#[derive(Clone, Copy)]
struct World<'a> {
    domain: File<'a>,
    problem: File<'a>,
    outline: &'a Outline<'a>,
    state: &'a Outline<'a>,
}

impl World<'_> {
    // Appends the place of the event or the process with a label.
    fn append_owner(&self, into: &mut Vec<u8>, label: &str, says: &str) -> Result<(), AllocError> {
        match owner_of(self.outline, label) {
            Some(number) => {
                let (start, end) = (self.outline.start(number), self.outline.end(number));
                self.domain.append_place(into, start, end, says)
            }
            None => Ok(()),
        }
    }

    // Appends who writes a fluent.
    fn append_writers(
        &self,
        into: &mut Vec<u8>,
        label: &str,
        among: &[Who],
    ) -> Result<(), AllocError> {
        append_writers(into, self.domain, self.outline, Named { label }, among)
    }

    // Whether a fluent's head stands behind a token that opens.
    fn is_fluent(&self, number: usize) -> bool {
        let word = self.outline.word(number.saturating_add(1));
        self.outline.opens(number) && head(self.outline, ":functions", word).is_some()
    }

    // Whether the head behind a token stands nowhere between another token and it.
    fn is_first(&self, open: usize, number: usize) -> bool {
        let word = number.saturating_add(1);
        !(open..number).any(|place| self.outline.repeats(place, word))
    }

    // Appends who moves the first fluents that the event or the process with a label asks.
    fn append_asked(&self, into: &mut Vec<u8>, label: &str) -> Result<(), AllocError> {
        let Some(name) = owner_of(self.outline, label) else {
            return Ok(());
        };
        let open = name.saturating_sub(2);
        let mut left = MOST;
        for number in open..self.outline.close_of(open).min(open.saturating_add(LOOKED)) {
            if left == 0 || self.outline.is(number, ":effect") {
                break;
            }
            if self.is_fluent(number) && self.is_first(open, number) {
                let asked = self.outline.form(*into.allocator(), number)?;
                self.append_writers(into, &asked, &MOVERS)?;
                left -= 1;
            }
        }
        Ok(())
    }

    // Appends which fluent has no value, and where the first state is given.
    fn append_missing(&self, into: &mut Vec<u8>, label: &str) -> Result<(), AllocError> {
        let Some(number) = first_missing(self.outline, self.state, Named { label }) else {
            return append_line(into, &["a fluent of it has no value, or a divisor is 0"]);
        };
        if let Some(section) = self.state.section(":init") {
            let keyword = section.saturating_add(1);
            let (start, end) = (self.state.start(keyword), self.state.end(keyword));
            self.problem
                .append_place(into, start, end, "no value is given here")?;
        }
        let open = number.saturating_sub(1);
        let end = self.outline.end(self.outline.close_of(open));
        self.domain.append_place(into, self.outline.start(open), end, "of what is read here")
    }
}

/// Appends why a world does not go on where a verdict says so: the places of what it names, and who moves or writes the
/// fluent.
pub fn append_world(
    into: &mut Vec<u8>,
    domain: File<'_>,
    problem: File<'_>,
    verdict: &str,
) -> Result<(), AllocError> {
    let Some(told) = Told::in_verdict(verdict) else {
        return Ok(());
    };
    let outline = Outline::read(*into.allocator(), domain.text)?;
    let state = Outline::read(*into.allocator(), problem.text)?;
    let world = World {
        domain,
        problem,
        outline: &outline,
        state: &state,
    };
    match told {
        Told::Owner { owner, says } => {
            world.append_owner(into, owner, says)?;
            world.append_asked(into, owner)
        }
        Told::Moving { process, fluent } => {
            world.append_owner(into, process, "it reads a number that moves")?;
            world.append_writers(into, fluent, &MOVERS)
        }
        Told::Conflict(fluent) => world.append_writers(into, fluent, &WRITERS),
        Told::NoValue(fluent) => {
            world.append_missing(into, fluent)?;
            world.append_writers(into, fluent, &WRITERS)
        }
    }
}
