//! Why a domain and a problem are not well typed.

use crate::declared::{HEADS, How, Names, head, member, param_type, params};
use plus_expected::say::{append_all, append_line, append_number, text_of};
use plus_expected::{File, Nearest, Outline};
use plus_tokens::Kind;
use std::alloc::{AllocError, Global};

/// The words before a list that binds variables.
static BINDERS: [&str; 3] = [":parameters", "forall", "exists"];

/// A file with its tokens.
#[derive(Clone, Copy)]
pub struct Part<'a, 'b> {
    pub file: File<'a>,
    pub outline: &'b Outline<'a>,
}

impl Part<'_, '_> {
    // Appends the place of a token.
    fn append_token(&self, into: &mut Vec<u8>, number: usize, why: &str) -> Result<(), AllocError> {
        let (start, end) = (self.outline.start(number), self.outline.end(number));
        self.file.append_place(into, start, end, why)
    }
}

/// A fault of typing: the two files, the one where it is, and the number of the token where it begins.
#[derive(Clone, Copy)]
pub struct Fault<'a, 'b> {
    pub domain: Part<'a, 'b>,
    pub problem: Option<Part<'a, 'b>>,
    pub at: Part<'a, 'b>,
    pub number: usize,
}

// Appends a word that is nearly the same. Answers whether there is one.
fn append_near(into: &mut Vec<u8>, nearest: &Nearest<'_>) -> Result<bool, AllocError> {
    match nearest.best() {
        Some(word) => {
            append_line(into, &["the nearest name is ", text_of(word)])?;
            Ok(true)
        }
        None => Ok(false),
    }
}

impl<'a, 'b> Fault<'a, 'b> {
    // What the domain declares behind a keyword.
    fn declared(&self, keyword: &'static str, how: How) -> Names<'a, 'b> {
        Names {
            outline: self.domain.outline,
            keyword,
            how,
        }
    }

    // The objects of the problem.
    fn objects(&self) -> Option<Names<'a, 'b>> {
        Some(Names {
            outline: self.problem?.outline,
            keyword: ":objects",
            how: How::Members,
        })
    }

    // The name that is wrong.
    fn name(&self) -> &'a [u8] {
        self.at.outline.word(self.number)
    }

    // Appends how many arguments are wanted and given.
    fn append_counts(&self, into: &mut Vec<u8>, wanted: u64, given: u64) -> Result<(), AllocError> {
        let name = self.at.outline.text(self.number.saturating_add(1));
        append_all(into, &[name, " wants "])?;
        append_number(into, wanted)?;
        append_all(into, &[" arguments and is given "])?;
        append_number(into, given)?;
        append_line(into, &[])
    }

    // Appends how many arguments are wanted, and where that is declared.
    fn append_arity(&self, into: &mut Vec<u8>) -> Result<(), AllocError> {
        let first = self.number.saturating_add(1);
        let close = self.at.outline.close_of(self.number);
        let given = close.saturating_sub(first.saturating_add(1)) as u64;
        for section in &HEADS {
            let Some(place) = head(self.domain.outline, section, self.at.outline.word(first)) else {
                continue;
            };
            let wanted = params(self.domain.outline, place);
            if wanted != given {
                self.append_counts(into, wanted, given)?;
                return self.domain.append_token(into, place, "declared here");
            }
        }
        Ok(())
    }

    // Appends what a head that is unknown is in truth, or the nearest one, or the first ones.
    fn append_head(&self, into: &mut Vec<u8>) -> Result<(), AllocError> {
        let name = text_of(self.name());
        if let Some(place) = head(self.domain.outline, ":predicates", self.name()) {
            append_line(
                into,
                &[name, " is a predicate, and a function is wanted here"],
            )?;
            return self.domain.append_token(into, place, "declared here");
        }
        if let Some(place) = head(self.domain.outline, ":functions", self.name()) {
            append_line(
                into,
                &[name, " is a function, and a predicate is wanted here"],
            )?;
            return self.domain.append_token(into, place, "declared here");
        }
        let predicates = self.declared(":predicates", How::Heads);
        let functions = self.declared(":functions", How::Heads);
        let mut nearest = Nearest::to(self.name());
        predicates.offer(&mut nearest);
        functions.offer(&mut nearest);
        if append_near(into, &nearest)? {
            return Ok(());
        }
        predicates.append(into, "the predicates: ")?;
        functions.append(into, "the functions: ")
    }

    // The place of an object of the problem with the name.
    fn object(&self) -> Option<(Part<'a, 'b>, usize)> {
        let problem = self.problem?;
        let place = member(problem.outline, ":objects", self.name())?;
        Some((problem, place))
    }

    // Appends where an object that is unknown is declared after all, or the nearest one, or the first ones.
    fn append_object(&self, into: &mut Vec<u8>) -> Result<(), AllocError> {
        if let Some((problem, place)) = self.object() {
            return problem.append_token(into, place, "a domain knows its constants alone");
        }
        let constants = self.declared(":constants", How::Members);
        let mut nearest = Nearest::to(self.name());
        constants.offer(&mut nearest);
        let objects = self.objects();
        if let Some(objects) = objects {
            objects.offer(&mut nearest);
        }
        if append_near(into, &nearest)? {
            return Ok(());
        }
        constants.append(into, "the constants: ")?;
        match objects {
            Some(objects) => objects.append(into, "the objects: "),
            None => Ok(()),
        }
    }

    // Appends what an unknown name is in truth.
    fn append_unknown(&self, into: &mut Vec<u8>) -> Result<(), AllocError> {
        if self.at.outline.opens(self.number.saturating_sub(1)) {
            self.append_head(into)
        } else {
            self.append_object(into)
        }
    }

    // Appends the nearest type, or the first ones.
    fn append_type(&self, into: &mut Vec<u8>) -> Result<(), AllocError> {
        if self.domain.outline.section(":types").is_none() {
            return append_line(into, &["the domain has no :types"]);
        }
        let types = self.declared(":types", How::Members);
        let mut nearest = Nearest::to(self.name());
        types.offer(&mut nearest);
        if append_near(into, &nearest)? {
            return Ok(());
        }
        types.append(into, "the types: ")
    }

    // Appends which type is wanted of an argument.
    fn append_wrong_type(&self, into: &mut Vec<u8>) -> Result<(), AllocError> {
        let Some(open) = self.at.outline.around(self.number) else {
            return Ok(());
        };
        let first = open.saturating_add(1);
        let param = self.number.saturating_sub(first.saturating_add(1));
        for section in &HEADS {
            let Some(place) = head(self.domain.outline, section, self.at.outline.word(first)) else {
                continue;
            };
            if let Some(kind) = param_type(self.domain.outline, place, param) {
                let name = self.at.outline.text(first);
                let wanted = self.domain.outline.text(kind);
                append_line(
                    into,
                    &[name, " wants an object of the type ", wanted, " here"],
                )?;
                return self.domain.append_token(into, kind, "declared here");
            }
        }
        Ok(())
    }

    // Whether a token declares what the one that is wrong declares: the same word stands there in the same way.
    fn is_declared(&self, number: usize) -> bool {
        let outline = self.at.outline;
        let before = number.saturating_sub(1);
        let here = self.number.saturating_sub(1);
        if !outline.repeats(number, self.number) {
            return false;
        }
        if outline.has_kind(here, Kind::Keyword) {
            return outline.repeats(before, here);
        }
        outline.opens(before) == outline.opens(here) && !outline.is(before, "-")
    }

    // The number of the token that declares the same before: an action, a process or an event anywhere in the text, a variable
    // in the same list, and all else in the same section.
    fn first_declared(&self) -> Option<usize> {
        let outline = self.at.outline;
        let is_schema = outline.has_kind(self.number.saturating_sub(1), Kind::Keyword);
        let first = if is_schema {
            0
        } else if outline.has_kind(self.number, Kind::Variable) {
            outline.around(self.number)?
        } else {
            outline.section_of(self.number)?
        };
        (first..self.number).find(|number| self.is_declared(*number))
    }

    // The numbers of the tokens of the section in which the fault is.
    fn around(&self) -> Option<(usize, usize)> {
        let first = self.at.outline.section_of(self.number)?;
        Some((first, self.at.outline.close_of(first)))
    }

    // Appends that nothing binds a variable, and the nearest one.
    fn append_unbound(&self, into: &mut Vec<u8>) -> Result<(), AllocError> {
        let outline = self.at.outline;
        let mut nearest = Nearest::to(self.name());
        if let Some((first, close)) = self.around() {
            for number in first..close {
                if outline.has_kind(number, Kind::Variable)
                    && !outline.repeats(number, self.number)
                {
                    nearest.offer(outline.word(number));
                }
            }
        }
        append_line(
            into,
            &["it stands in no :parameters and no list of a forall or an exists around this"],
        )?;
        append_near(into, &nearest)?;
        Ok(())
    }

    // Whether a token stands in a list that binds variables.
    fn is_binding(&self, number: usize) -> bool {
        match self.at.outline.around(number) {
            Some(open) => {
                let before = open.saturating_sub(1);
                BINDERS.iter().any(|word| self.at.outline.is(before, word))
            }
            None => false,
        }
    }

    // Appends where a variable is bound that a list binds once more.
    fn append_shadowed(&self, into: &mut Vec<u8>) -> Result<(), AllocError> {
        let outline = self.at.outline;
        let Some((first, close)) = self.around() else {
            return Ok(());
        };
        for number in first..close {
            let is_other = number != self.number && outline.repeats(number, self.number);
            if is_other && self.is_binding(number) {
                return self
                    .at
                    .append_token(into, number, "it is bound here already");
            }
        }
        Ok(())
    }

    // Whether two forms of `:init` give the same fluent a value.
    fn is_same_value(&self, number: usize) -> bool {
        let outline = self.at.outline;
        let close = outline.close_of(number.saturating_add(2));
        for place in number..close {
            let there = self.number.saturating_add(place.saturating_sub(number));
            if !outline.repeats(place, there) {
                return false;
            }
        }
        true
    }

    // The number of the token at which the same fluent is given a value before.
    fn first_value(&self) -> Option<usize> {
        let outline = self.at.outline;
        for number in 0..self.number {
            let equals = number.saturating_add(1);
            if outline.opens(number) && outline.is(equals, "=") && self.is_same_value(number) {
                return Some(number);
            }
        }
        None
    }

    // Appends where the same is declared before.
    fn append_twice(&self, into: &mut Vec<u8>) -> Result<(), AllocError> {
        let found = if self.at.outline.opens(self.number) {
            self.first_value()
        } else {
            self.first_declared()
        };
        if let Some(number) = found {
            return self.at.append_token(into, number, "the first one");
        }
        match member(self.domain.outline, ":constants", self.name()) {
            Some(number) => self.domain.append_token(into, number, "the first one"),
            None => Ok(()),
        }
    }

    // Appends what the fault means.
    fn append(&self, into: &mut Vec<u8>, word: &str) -> Result<(), AllocError> {
        match word {
            "arity" => self.append_arity(into),
            "unknown name" => self.append_unknown(into),
            "unknown type" => self.append_type(into),
            "wrong type" => self.append_wrong_type(into),
            "twice" => self.append_twice(into),
            "unbound variable" => self.append_unbound(into),
            "shadowed variable" => self.append_shadowed(into),
            "type loop" => append_line(
                into,
                &["no type stands under itself, nor under one that stands under it"],
            ),
            "domain name" => self.domain.append_token(into, 4, "the name of this domain"),
            "rate form" => append_rate_form(into),
            _ => Ok(()),
        }
    }
}

// Appends the forms of a rate that are read.
fn append_rate_form(into: &mut Vec<u8>) -> Result<(), AllocError> {
    append_line(
        into,
        &[
            "expected (increase F R) or (decrease F R) in a process, with R as #t, (* #t E) or (* E #t)",
        ],
    )?;
    append_line(into, &["#t stands nowhere else, and no when in a process"])
}

/// Appends what a fault of typing means, by its word, and the other place that it has to do with. `is_domain` says in which
/// of the two files it is, and `at` at which byte.
pub fn append_typing<'a>(
    into: &mut Vec<u8>,
    domain: File<'a>,
    problem: Option<File<'a>>,
    is_domain: bool,
    word: &str,
    at: usize,
) -> Result<(), AllocError> {
    let alloc: Global = *into.allocator();
    let domain_outline = Outline::read(alloc, domain.text)?;
    let problem_text = match problem {
        Some(file) => file.text,
        None => b"",
    };
    let problem_outline = Outline::read(alloc, problem_text)?;
    let domain = Part {
        file: domain,
        outline: &domain_outline,
    };
    let problem = match problem {
        Some(file) => Some(Part {
            file,
            outline: &problem_outline,
        }),
        None => None,
    };
    let place = if is_domain { Some(domain) } else { problem };
    let Some(place) = place else {
        return Ok(());
    };
    let fault = Fault {
        domain,
        problem,
        at: place,
        number: place.outline.at(at),
    };
    fault.append(into, word)
}
