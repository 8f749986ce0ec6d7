//! Constraints: each rule with its number and its place, and both sides of the limit of depth.

use plus_places::read_constraints;
use plus_tree::{Constraint, Rule, Span, TextFault};
use std::alloc::{AllocError, Global};
use std::test::*;

const EACH: &[u8] =
    b"(and (always (<= (level) 5)) (sometime (open)) (within 3 (>= (level) 5)) (hold-after 3.50 (not (open))))";

// What a rule is to be, with the digits and the places of its number.
#[derive(Clone, Copy, PartialEq, Eq)]
enum Want {
    Always,
    Sometime,
    Within(u128, u8),
    HoldAfter(u128, u8),
}

// The rules of that text, and where their constraints stand.
static WANTED: [(Want, usize, usize); 4] = [
    (Want::Always, 5, 28),
    (Want::Sometime, 29, 46),
    (Want::Within(3, 0), 47, 72),
    (Want::HoldAfter(35, 1), 73, 103),
];

fn is_wanted(constraint: &Constraint, want: Want, start: usize, end: usize) -> bool {
    let is_rule = match constraint.rule {
        Rule::Always => want == Want::Always,
        Rule::Sometime => want == Want::Sometime,
        Rule::Within(time) => want == Want::Within(time.digits, time.places),
        Rule::HoldAfter(time) => want == Want::HoldAfter(time.digits, time.places),
    };
    is_rule && constraint.span == Span { start, end }
}

// Whether these are the constraints of that text.
fn are_wanted(found: &[Constraint]) -> bool {
    for (constraint, &(want, start, end)) in found.iter().zip(&WANTED) {
        if !is_wanted(constraint, want, start, end) {
            return false;
        }
    }
    found.len() == WANTED.len()
}

// How many constraints a text has, and whether they are those of that text.
fn read(alloc: Global, text: &[u8]) -> Result<(usize, bool), TextFault> {
    let found = read_constraints(alloc, text)?;
    Ok((found.len(), are_wanted(&found)))
}

#[test]
fn each_rule_is_read(rt: HostRuntime) -> Result<(), Fail> {
    assert_eq!(rt; read(rt.alloc(), EACH)?, (4, true));
    assert_eq!(rt; read(rt.alloc(), b"(and)")?, (0, false));
    Ok(())
}

// A condition under so many negations, behind these words, with their closing parentheses.
fn nested(
    alloc: Global,
    words: &[u8],
    closes: usize,
    negations: usize,
) -> Result<Vec<u8>, AllocError> {
    let mut text = words.to_vec(alloc)?;
    for _ in 0..negations {
        text.extend_from_slice(b"(not ")?;
    }
    text.extend_from_slice(b"(p)")?;
    for _ in 0..negations {
        text.push(b')')?;
    }
    for _ in 0..closes {
        text.push(b')')?;
    }
    Ok(text)
}

// Where that text is too deep, if it is.
fn too_deep(
    alloc: Global,
    words: &[u8],
    closes: usize,
    negations: usize,
) -> Result<Option<usize>, TextFault> {
    let text = nested(alloc, words, closes, negations)?;
    match read(alloc, &text) {
        Ok(_) => Ok(None),
        Err(TextFault::Depth { at }) => Ok(Some(at)),
        Err(fault) => Err(fault),
    }
}

// Words, their closing parentheses, negations behind them, and where that is too deep.
static NESTED: [(&str, usize, usize, Option<usize>); 4] = [
    ("(always ", 1, 62, None),
    ("(always ", 1, 63, Some(323)),
    ("(and (always ", 2, 61, None),
    ("(and (always ", 2, 62, Some(323)),
];

#[test]
fn the_limit_of_depth_is_met_and_passed(rt: HostRuntime) -> Result<(), Fail> {
    for &(words, closes, negations, want) in &NESTED {
        let found = too_deep(rt.alloc(), words.as_bytes(), closes, negations)?;
        assert_eq!(rt; found, want, "{words} and {negations} negations");
    }
    Ok(())
}
