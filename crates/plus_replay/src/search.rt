//! What can be told of a search that found no plan.

use crate::unmet::append_failing;
use itoa::Buffer;
use plus_ground::ground;
use plus_number::frac::Frac64;
use plus_numbering::Numbering;
use plus_numbering::counting::instances;
use plus_state::Ground;
use plus_types::Typed;
use std::alloc::{AllocError, Global};

fn append_number(into: &mut Vec<u8>, number: u64) -> Result<(), AllocError> {
    let mut buffer = Buffer::new();
    into.extend_from_slice(buffer.format(number).as_bytes())
}

// How many lists of so many decisions there are, or none where that is no number of 64 bits.
fn lists(ways: u64, decisions: u32) -> Option<u64> {
    let mut count = 1u64;
    for _decision in 0..decisions {
        count = count.checked_mul(ways)?;
    }
    Some(count)
}

// Appends how many lists there are.
fn append_lists(into: &mut Vec<u8>, actions: u64, decisions: u32) -> Result<(), AllocError> {
    into.extend_from_slice(b"a decision is a wait or one of ")?;
    append_number(into, actions)?;
    into.extend_from_slice(b" actions: ")?;
    match lists(actions.saturating_add(1), decisions) {
        Some(count) => append_number(into, count)?,
        None => into.extend_from_slice(b"more than 18446744073709551615")?,
    }
    into.extend_from_slice(b" lists of ")?;
    append_number(into, decisions as u64)?;
    into.extend_from_slice(b" decisions\n")
}

// Appends the first member of the goal that does not hold in the first state.
fn append_initial(into: &mut Vec<u8>, ground: &Ground<Frac64>) -> Result<(), AllocError> {
    append_failing(into, &ground.goal, &ground.initial, ground)
}

// Appends the first member of the goal that does not hold at first, and that it is so at first.
fn append_start(
    into: &mut Vec<u8>,
    alloc: Global,
    numbering: &Numbering<'_>,
) -> Result<(), AllocError> {
    let Ok(ground) = ground::<Frac64>(alloc, numbering) else {
        return Ok(());
    };
    let mut text = Vec::new(alloc);
    append_initial(&mut text, &ground)?;
    if text.is_empty() {
        return Ok(());
    }
    into.extend_from_slice(b"at first ")?;
    into.extend_from_slice(&text)
}

/// Appends what can be told from outside of a search of at most so many decisions that found no plan: the first member
/// of the goal that does not hold at first, and how many lists there are.
pub fn append_search(
    into: &mut Vec<u8>,
    alloc: Global,
    typed: &Typed,
    decisions: u32,
) -> Result<(), AllocError> {
    let Ok(numbering) = Numbering::new(alloc, typed) else {
        return Ok(());
    };
    let actions = instances(&numbering, typed.domain.actions.as_slice());
    append_start(into, alloc, &numbering)?;
    append_lists(into, actions as u64, decisions)
}
