//! Terms, and what is made of them without a form inside a form: uses of names and numbers.

use crate::lists::Args;
use crate::names::Spelled;
use plus_tokens::Span;
use std::alloc::Global;
use std::default::MadeWith;

/// An argument: an object, or a variable without its question mark.
#[derive(Drop)]
pub enum Term {
    Object(Spelled),
    Variable(Spelled),
}

// What an empty place of a list of terms holds.
impl MadeWith<Global> for Term {
    fn made_with(alloc: Global) -> Term {
        Term::Object(Spelled::nothing(alloc))
    }
}

/// A name with its type: a variable without its question mark, an object or a type. A type that is
/// not written is `object`, and stands from 0 to 0.
#[derive(Drop)]
pub struct TypedName {
    pub name: Spelled,
    pub kind: Spelled,
}

/// A predicate or a function that is used, as `(at ?x home)`.
#[derive(Drop)]
pub struct Use {
    pub head: Spelled,
    pub args: Args,
    pub span: Span,
}

/// The number `digits / 10^places`, with a minus sign where it is negative. No 0 stands at the end
/// of the places, and 0 is not negative.
#[derive(Clone, Copy, PartialEq, Eq)]
pub struct Literal {
    pub digits: u128,
    pub span: Span,
    pub places: u8,
    pub negative: bool,
}

/// The sign of a comparison.
#[derive(Clone, Copy, PartialEq, Eq)]
pub enum Comparison {
    /// `<`
    Less,
    /// `<=`
    AtMost,
    /// `=`
    Equal,
    /// `>=`
    AtLeast,
    /// `>`
    Greater,
}
