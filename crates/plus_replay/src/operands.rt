//! Which fluents have the values of an operation that is beyond the numbers of the program.

ghost use Rattle.plus_replay.specs.Replay.{IsGroundOf, Stands};

use crate::replay::Replaying;
use crate::unmet::append_fraction;
use plus_ground::ground;
use plus_number::frac::Frac64;
use plus_numbering::Numbering;
use plus_plan::PlanForm;
use plus_state::{FluentId, Ground, State};
use plus_types::Typed;
use std::alloc::{AllocError, Global};

/// The most fluents that are named for one value.
const MOST: u32 = 3;

// The operands of an operation, as a verdict writes them.
fn operands(verdict: &str) -> Option<(&str, &str)> {
    let operation = verdict.strip_prefix("beyond: number ")?;
    let (left, _) = operation.split_once(' ')?;
    let (_, right) = operation.rsplit_once(' ')?;
    Some((left, right))
}

// Whether a value is written so.
fn is_written(alloc: Global, value: Frac64, written: &str) -> Result<bool, AllocError> {
    let mut text = Vec::new(alloc);
    append_fraction(&mut text, value)?;
    Ok(text.as_slice() == written.as_bytes())
}

// Appends that a value is that of a fluent.
fn append_named(
    into: &mut Vec<u8>,
    ground: &Ground<Frac64>,
    fluent: u32,
    written: &str,
) -> Result<(), AllocError> {
    let Some(label) = ground.fluents.get(fluent as usize) else {
        return Ok(());
    };
    into.extend_from_slice(written.as_bytes())?;
    into.extend_from_slice(b" is ")?;
    into.extend_from_slice(label.bytes())?;
    into.push(b'\n')?;
    Ok(())
}

// Appends the first fluents with a value.
fn append_valued(
    into: &mut Vec<u8>,
    ground: &Ground<Frac64>,
    state: &State<Frac64>,
    written: &str,
) -> Result<(), AllocError> {
    let mut left = MOST;
    'fluents: for fluent in 0..state.fluents() {
        let Some(value) = state.fluent(FluentId(fluent)) else {
            continue;
        };
        if left > 0 && is_written(*into.allocator(), value, written)? {
            append_named(into, ground, fluent, written)?;
            left -= 1;
        }
    }
    Ok(())
}

// Appends the fluents with the values of both operands.
fn append_both(
    into: &mut Vec<u8>,
    ground: &Ground<Frac64>,
    state: &State<Frac64>,
    verdict: &str,
) -> Result<(), AllocError> {
    let Some((left, right)) = operands(verdict) else {
        return Ok(());
    };
    append_valued(into, ground, state, left)?;
    if left == right {
        return Ok(());
    }
    append_valued(into, ground, state, right)
}

// Plays the text up to its refusal, and appends the fluents with the values of the operands there.
fn append_played(
    into: &mut Vec<u8>,
    replaying: &mut Replaying<'_, '_>,
    plan: &[u8],
    form: PlanForm,
    verdict: &str,
) -> Result<(), AllocError>
    requires { Stands replaying.old.ground.now replaying.old.replay }
{
    let alloc = *into.allocator();
    let mut unmet = Vec::new(alloc);
    replaying.text(alloc, plan, form, &mut unmet)?;
    append_both(into, replaying.ground, replaying.state(), verdict)
}

// The same of a pair and its ground form.
fn play(
    into: &mut Vec<u8>,
    numbering: &Numbering<'_>,
    ground: &Ground<Frac64>,
    plan: &[u8],
    form: PlanForm,
    verdict: &str,
) -> Result<(), AllocError>
    requires { IsGroundOf numbering.now.typed.now ground.now }
{
    let alloc = *into.allocator();
    let mut replaying = Replaying::begin(alloc, numbering, ground)?;
    let named = append_played(into, &mut replaying, plan, form, verdict);
    // By a call, as above: what drops a plan that is played is long.
    drop(replaying);
    named
}

// The same over a numbering.
fn play_numbered(
    into: &mut Vec<u8>,
    numbering: &Numbering<'_>,
    plan: &[u8],
    form: PlanForm,
    verdict: &str,
) -> Result<(), AllocError> {
    match ground::<Frac64>(*into.allocator(), numbering) {
        Ok(ground) => play(into, numbering, &ground, plan, form, verdict),
        Err(_) => Ok(()),
    }
}

/// Plays the plan of a pair again, and appends which fluents have the values of the operands where an operation is beyond the
/// numbers of the program. A value that is that of no fluent goes without a name: it may be a time, or how far a number has
/// moved.
pub fn append_operands(
    into: &mut Vec<u8>,
    typed: &Typed,
    plan: &[u8],
    form: PlanForm,
    verdict: &str,
) -> Result<(), AllocError> {
    match Numbering::new(*into.allocator(), typed) {
        Ok(numbering) => play_numbered(into, &numbering, plan, form, verdict),
        Err(_) => Ok(()),
    }
}
