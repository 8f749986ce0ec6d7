//! Names, terms, uses, numbers and typed lists.
ghost use Rattle.std.specs.Prelude.{◌≡◌, suc, ◌++◌, ◌-◌, ◌<◌, ◌≤◌, length, take, drop, replicate, codes};
ghost use Rattle.plus_printer.specs.Appended.{Prints};
ghost use Rattle.plus_printer.specs.Words.{word, domain_opening, problem_opening, requirements_opening, precondition_key, spaced, term_text, use_text, typed_text, variable_text, listed, variables_text, pointed, number_text, sign_text, literal_text, comparison_text};

use itoa::Buffer;
use plus_tree::{Comparison, Literal, Term, TypedName, Use};
use std::alloc::AllocError;

/// Appends these bytes.
#[tactic(auto, using(crate::proofs::AppendedLemmas::base))]
pub fn put(text: &mut Vec<u8>, bytes: &[u8]) -> Result<(), AllocError>
    ensures { Prints text.old.items text.new.items bytes.now result }
{
    text.extend_from_slice(bytes)
}

/// Appends a word of the language, or a separator.
#[tactic(auto, unfolding(crate::specs::Words::word))]
pub fn put_word(text: &mut Vec<u8>, bytes: &[u8]) -> Result<(), AllocError>
    ensures { Prints text.old.items text.new.items (word bytes.now) result }
{
    put(text, bytes)
}

/// Appends how the text of a domain opens.
#[tactic(auto, unfolding(crate::specs::Words::domain_opening))]
pub fn domain_opening(text: &mut Vec<u8>) -> Result<(), AllocError>
    ensures { Prints text.old.items text.new.items domain_opening result }
{
    put_word(text, b"(define (domain ")
}

/// Appends how the text of a problem opens.
#[tactic(auto, unfolding(crate::specs::Words::problem_opening))]
pub fn problem_opening(text: &mut Vec<u8>) -> Result<(), AllocError>
    ensures { Prints text.old.items text.new.items problem_opening result }
{
    put_word(text, b"(define (problem ")
}

/// Appends how the requirements open.
#[tactic(auto, unfolding(crate::specs::Words::requirements_opening))]
pub fn requirements_opening(text: &mut Vec<u8>) -> Result<(), AllocError>
    ensures { Prints text.old.items text.new.items requirements_opening result }
{
    put_word(text, b" (:requirements")
}

/// Appends the word before a condition.
#[tactic(auto, unfolding(crate::specs::Words::precondition_key))]
pub fn precondition_key(text: &mut Vec<u8>) -> Result<(), AllocError>
    ensures { Prints text.old.items text.new.items precondition_key result }
{
    put_word(text, b" :precondition ")
}

/// Appends an object or a variable.
#[tactic(auto, using(crate::proofs::AppendedLemmas::appending), unfolding(crate::specs::Words::term_text))]
pub fn term(text: &mut Vec<u8>, term: &Term) -> Result<(), AllocError>
    ensures { Prints text.old.items text.new.items (term_text term.now) result }
{
    match term {
        Term::Object(name) => {
            put(text, name.name.bytes())?;
            Ok(())
        }
        Term::Variable(name) => {
            put_word(text, b"?")?;
            put(text, name.name.bytes())?;
            Ok(())
        }
    }
}

#[tactic(auto, using(crate::proofs::AppendedLemmas::appending))]
fn spaced_term(text: &mut Vec<u8>, argument: &Term) -> Result<(), AllocError>
    ensures { Prints text.old.items text.new.items (word (codes " ") ++ term_text argument.now) result }
{
    put_word(text, b" ")?;
    term(text, argument)?;
    Ok(())
}

#[tactic(auto, using(crate::proofs::AppendedLemmas::looping))]
fn terms(text: &mut Vec<u8>, terms: &[Term]) -> Result<(), AllocError>
    ensures { Prints text.old.items text.new.items (spaced term_text terms.now) result }
{
    'members: for term in terms {
        spaced_term(text, term)?;
    }
    Ok(())
}

/// Appends a name with its arguments.
#[tactic(auto, using(crate::proofs::AppendedLemmas::appending), unfolding(crate::specs::Words::use_text))]
pub fn used(text: &mut Vec<u8>, used: &Use) -> Result<(), AllocError>
    ensures { Prints text.old.items text.new.items (use_text used.now) result }
{
    put_word(text, b"(")?;
    put(text, used.head.name.bytes())?;
    terms(text, used.args.as_slice())?;
    put_word(text, b")")?;
    Ok(())
}

/// Appends a name with its type.
#[tactic(auto, using(crate::proofs::AppendedLemmas::appending), unfolding(crate::specs::Words::typed_text))]
pub fn typed(text: &mut Vec<u8>, name: &TypedName) -> Result<(), AllocError>
    ensures { Prints text.old.items text.new.items (typed_text name.now) result }
{
    put(text, name.name.name.bytes())?;
    put_word(text, b" - ")?;
    put(text, name.kind.name.bytes())?;
    Ok(())
}

#[tactic(auto, using(crate::proofs::AppendedLemmas::appending), unfolding(crate::specs::Words::variable_text))]
fn variable(text: &mut Vec<u8>, name: &TypedName) -> Result<(), AllocError>
    ensures { Prints text.old.items text.new.items (variable_text name.now) result }
{
    put_word(text, b"?")?;
    typed(text, name)?;
    Ok(())
}

#[tactic(auto, using(crate::proofs::AppendedLemmas::appending))]
fn spaced_variable(text: &mut Vec<u8>, name: &TypedName) -> Result<(), AllocError>
    ensures { Prints text.old.items text.new.items (word (codes " ") ++ variable_text name.now) result }
{
    put_word(text, b" ")?;
    variable(text, name)?;
    Ok(())
}

/// Appends variables, each behind a space.
#[tactic(auto, using(crate::proofs::AppendedLemmas::looping))]
pub fn spaced_variables(text: &mut Vec<u8>, names: &[TypedName]) -> Result<(), AllocError>
    ensures { Prints text.old.items text.new.items (spaced variable_text names.now) result }
{
    'members: for name in names {
        spaced_variable(text, name)?;
    }
    Ok(())
}

#[tactic(auto, using(crate::proofs::AppendedLemmas::appending))]
fn list(text: &mut Vec<u8>, names: &[TypedName]) -> Result<(), AllocError>
    ensures { Prints text.old.items text.new.items (listed names.now) result }
{
    match names.split_first() {
        None => Ok(()),
        Some((first, rest)) => {
            variable(text, first)?;
            spaced_variables(text, rest)?;
            Ok(())
        }
    }
}

/// Appends the variables of a list in its parentheses.
#[tactic(auto, using(crate::proofs::AppendedLemmas::appending), unfolding(crate::specs::Words::variables_text))]
pub fn variables(text: &mut Vec<u8>, names: &[TypedName]) -> Result<(), AllocError>
    ensures { Prints text.old.items text.new.items (variables_text names.now) result }
{
    put_word(text, b"(")?;
    list(text, names)?;
    put_word(text, b")")?;
    Ok(())
}

// Zeros.
#[tactic(auto, using(crate::proofs::AppendedLemmas::zero_digits))]
fn zeros(text: &mut Vec<u8>, count: usize) -> Result<(), AllocError>
    ensures { Prints text.old.items text.new.items (replicate count 48) result }
{
    'zeros: for _digit in 0..count {
        put(text, b"0")?;
    }
    Ok(())
}

// Digits with a point before the last so many, of which there are more.
#[tactic(auto, using(crate::proofs::AppendedLemmas::appending))]
fn point_inside(text: &mut Vec<u8>, digits: &[u8], places: usize) -> Result<(), AllocError>
    requires { places < length digits.now }
    ensures { Prints text.old.items text.new.items (take (length digits.now - places) digits.now
        ++ (word (codes ".") ++ drop (length digits.now - places) digits.now)) result }
{
    let (whole, part) = digits.split_at(digits.len() - places);
    put(text, whole)?;
    put_word(text, b".")?;
    put(text, part)?;
    Ok(())
}

// A point, as many places, and a 0 before it.
#[tactic(auto, using(crate::proofs::AppendedLemmas::appending))]
fn point_before(text: &mut Vec<u8>, digits: &[u8], places: usize) -> Result<(), AllocError>
    requires { length digits.now ≤ places }
    ensures { Prints text.old.items text.new.items (word (codes "0") ++ (word (codes ".")
        ++ (replicate (places - length digits.now) 48 ++ digits.now))) result }
{
    put_word(text, b"0")?;
    put_word(text, b".")?;
    zeros(text, places - digits.len())?;
    put(text, digits)?;
    Ok(())
}

// Digits with a point before the last so many.
#[tactic(auto)]
fn pointed_digits(text: &mut Vec<u8>, digits: &[u8], places: usize) -> Result<(), AllocError>
    requires some { 0 < length digits.now }
    ensures { Prints text.old.items text.new.items
        (pointed places (replicate (suc places - length digits.now) 48 ++ digits.now)) result }
{
    if places == 0 {
        put(text, digits)
    } else if places < digits.len() {
        point_inside(text, digits, places)
    } else {
        point_before(text, digits, places)
    }
}

#[tactic(auto, unfolding(crate::specs::Words::number_text, crate::specs::Words::padded))]
fn number(text: &mut Vec<u8>, digits: u128, places: u8) -> Result<(), AllocError>
    ensures { Prints text.old.items text.new.items (number_text digits places) result }
{
    let mut buffer = Buffer::new();
    pointed_digits(text, buffer.format(digits).as_bytes(), places as usize)
}

fn sign(text: &mut Vec<u8>, negative: bool) -> Result<(), AllocError>
    ensures { Prints text.old.items text.new.items (sign_text negative) result }
{
    if negative {
        put_word(text, b"-")
    } else {
        Ok(())
    }
}

/// Appends a number.
#[tactic(auto, using(crate::proofs::AppendedLemmas::appending), unfolding(crate::specs::Words::literal_text))]
pub fn literal(text: &mut Vec<u8>, literal: &Literal) -> Result<(), AllocError>
    ensures { Prints text.old.items text.new.items (literal_text literal.now) result }
{
    sign(text, literal.negative)?;
    number(text, literal.digits, literal.places)?;
    Ok(())
}

/// Appends the sign of a comparison.
pub fn comparison(text: &mut Vec<u8>, comparison: Comparison) -> Result<(), AllocError>
    ensures { Prints text.old.items text.new.items (comparison_text comparison) result }
{
    match comparison {
        Comparison::Less => put_word(text, b"<"),
        Comparison::AtMost => put_word(text, b"<="),
        Comparison::Equal => put_word(text, b"="),
        Comparison::AtLeast => put_word(text, b">="),
        Comparison::Greater => put_word(text, b">"),
    }
}
