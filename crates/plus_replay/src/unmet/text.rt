//! Ground conditions as a person reads them.

use itoa::Buffer;
use plus_number::exact::Exact;
use plus_state::{Cond, Expr, Ground, Label, Test};
use std::alloc::AllocError;

/// How long a text may grow before the rest is left out.
const MOST: usize = 400;

fn append_label(into: &mut Vec<u8>, labels: &[Label], number: u32) -> Result<(), AllocError> {
    match labels.get(number as usize) {
        Some(label) => into.extend_from_slice(label.bytes()),
        None => Ok(()),
    }
}

/// Appends a fraction, `n` or `n/d`.
pub fn append_fraction<Q: Exact>(into: &mut Vec<u8>, x: Q) -> Result<(), AllocError> {
    let (top, bottom) = x.parts();
    let mut buffer = Buffer::new();
    into.extend_from_slice(buffer.format(top).as_bytes())?;
    if bottom == 1 {
        return Ok(());
    }
    into.push(b'/')?;
    let mut buffer = Buffer::new();
    into.extend_from_slice(buffer.format(bottom).as_bytes())
}

fn append_expression<Q: Exact>(
    into: &mut Vec<u8>,
    expr: &Expr<Q>,
    ground: &Ground<Q>,
) -> Result<(), AllocError> {
    match expr {
        Expr::Number(x) => append_fraction(into, *x),
        Expr::Fluent(fluent) => append_label(into, &ground.fluents, fluent.0),
        Expr::Add(left, right) => {
            into.extend_from_slice(b"(+ ")?;
            append_expression(into, left, ground)?;
            into.push(b' ')?;
            append_expression(into, right, ground)?;
            into.push(b')')?;
            Ok(())
        }
        Expr::Sub(left, right) => {
            into.extend_from_slice(b"(- ")?;
            append_expression(into, left, ground)?;
            into.push(b' ')?;
            append_expression(into, right, ground)?;
            into.push(b')')?;
            Ok(())
        }
        Expr::Mul(left, right) => {
            into.extend_from_slice(b"(* ")?;
            append_expression(into, left, ground)?;
            into.push(b' ')?;
            append_expression(into, right, ground)?;
            into.push(b')')?;
            Ok(())
        }
        Expr::Div(left, right) => {
            into.extend_from_slice(b"(/ ")?;
            append_expression(into, left, ground)?;
            into.push(b' ')?;
            append_expression(into, right, ground)?;
            into.push(b')')?;
            Ok(())
        }
    }
}

fn opening(test: Test) -> &'static [u8] {
    match test {
        Test::Less => b"(< ",
        Test::AtMost => b"(<= ",
        Test::Equal => b"(= ",
        Test::AtLeast => b"(>= ",
        Test::Greater => b"(> ",
    }
}

/// Appends a parenthesis and the sign of a comparison.
pub fn append_opening(into: &mut Vec<u8>, test: Test) -> Result<(), AllocError> {
    into.extend_from_slice(opening(test))
}

fn append_comparison<Q: Exact>(
    into: &mut Vec<u8>,
    test: Test,
    left: &Expr<Q>,
    right: &Expr<Q>,
    ground: &Ground<Q>,
) -> Result<(), AllocError> {
    append_opening(into, test)?;
    append_expression(into, left, ground)?;
    into.push(b' ')?;
    append_expression(into, right, ground)?;
    into.push(b')')?;
    Ok(())
}

// Appends the end of a negation, or nothing.
fn append_end(into: &mut Vec<u8>, positive: bool) -> Result<(), AllocError> {
    if !positive {
        into.push(b')')?;
    }
    Ok(())
}

// Appends the beginning of a negation, or nothing.
fn append_not(into: &mut Vec<u8>, positive: bool) -> Result<(), AllocError> {
    if positive {
        Ok(())
    } else {
        into.extend_from_slice(b"(not ")
    }
}

fn append<Q: Exact>(
    into: &mut Vec<u8>,
    cond: &Cond<Q>,
    ground: &Ground<Q>,
) -> Result<(), AllocError> {
    match cond {
        Cond::All(members) => {
            into.extend_from_slice(b"(and")?;
            'all: for member in members {
                if into.len() > MOST {
                    break;
                }
                into.push(b' ')?;
                append(into, member, ground)?;
            }
            into.push(b')')?;
        }
        Cond::Any(members) => {
            into.extend_from_slice(b"(or")?;
            'any: for member in members {
                if into.len() > MOST {
                    break;
                }
                into.push(b' ')?;
                append(into, member, ground)?;
            }
            into.push(b')')?;
        }
        Cond::Atom { atom, positive } => {
            append_not(into, *positive)?;
            append_label(into, &ground.atoms, atom.0)?;
            append_end(into, *positive)?;
        }
        Cond::Compare {
            test,
            left,
            right,
            positive,
        } => {
            append_not(into, *positive)?;
            append_comparison(into, *test, left, right, ground)?;
            append_end(into, *positive)?;
        }
    }
    Ok(())
}

/// Appends a ground condition in its canonical form, or the first part of it where it is long.
pub fn append_condition<Q: Exact>(
    into: &mut Vec<u8>,
    cond: &Cond<Q>,
    ground: &Ground<Q>,
) -> Result<(), AllocError> {
    let mut text = Vec::new(*into.allocator());
    append(&mut text, cond, ground)?;
    match text.get(..MOST) {
        Some(front) => {
            into.extend_from_slice(front)?;
            into.extend_from_slice(b" ..")
        }
        None => into.extend_from_slice(&text),
    }
}
