//! The writes on fluents, fluent by fluent, and the first fluent whose writes clash.
ghost use Rattle.std.specs.Prelude.{◌≡◌, ◌++◌, map, option_map, None, IfOk};
ghost use Rattle.plus_state.specs.Due.{is_move as is_move_of};
ghost use Rattle.plus_state.specs.Stops.{due_of};
ghost use Rattle.plus_state.specs.Writes.{Sorts, set_of, sets, clashes as clashes_of, clash_after};
ghost use Rattle.plus_state.specs.WritesView.{written, write_list};

use crate::due::{Due, Update};
use crate::term::{AssignOp, FluentId};
use plus_number::exact::Exact;
use std::alloc::{AllocError, Global};

/// A write on a fluent.
#[derive(Clone, Copy)]
pub struct Written<Q> {
    pub fluent: FluentId,
    pub update: Update<Q>,
}

// Notes the write if it is one on a fluent.
fn note<Q: Exact>(into: &mut Vec<Written<Q>>, write: &Due<Q>) -> Result<(), AllocError>
    ensures { IfOk result (λ _. write_list Q.value into.new.items ≡ write_list Q.value into.old.items ++ set_of (due_of Q.value write.now)) }
{
    match write {
        Due::Put(_, _) => Ok(()),
        Due::Set(fluent, update) => {
            into.push(Written {
                fluent: *fluent,
                update: *update,
            })?;
            Ok(())
        }
    }
}

/// The writes on fluents by their fluents, those on one fluent in the order added.
#[inline(always)]
pub fn sorted_writes<Q: Exact>(alloc: Global, due: &[Due<Q>]) -> Result<Vec<Written<Q>>, AllocError>
    ensures { IfOk result (λ w. Sorts (sets (map (due_of Q.value) due.now)) (write_list Q.value w.items)) }
{
    let mut all: Vec<Written<Q>> = Vec::new(alloc);
    'each: for write in due {
        note(&mut all, write)?;
    }
    all.sort_by_key(|w| w.fluent.0)?;
    Ok(all)
}

fn is_move(op: AssignOp) -> bool
    ensures { result ≡ is_move_of op }
{
    match op {
        AssignOp::Assign => false,
        AssignOp::Increase => true,
        AssignOp::Decrease => true,
        AssignOp::ScaleUp => false,
        AssignOp::ScaleDown => false,
    }
}

// Whether a write clashes with the one before it.
fn clashes<Q: Exact>(before: Option<Written<Q>>, next: Written<Q>) -> bool
    ensures { result ≡ clashes_of (option_map (written Q.value) before) (written Q.value next) }
{
    match before {
        None => false,
        Some(b) => {
            b.fluent.0 == next.fluent.0 && !(is_move(b.update.op) && is_move(next.update.op))
        }
    }
}

/// The first write, among writes by their fluents, that clashes with the one before it.
pub fn first_clash<Q: Exact>(writes: &[Written<Q>]) -> Option<FluentId>
    ensures { option_map (λ f. f.0) result ≡ clash_after None (write_list Q.value writes.now) }
{
    let mut before: Option<Written<Q>> = None;
    'each: for next in writes {
        if clashes(before, *next) {
            return Some(next.fluent);
        }
        before = Some(*next);
    }
    None
}
