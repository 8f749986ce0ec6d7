//! All roots of a condition's live comparisons.
ghost use Rattle.std.specs.Prelude.{◌≡◌, ◌<◌, ◌+◌, ◌^◌, ◌++◌, length, map, option_map, IfOk};
ghost use Rattle.plus_state.specs.View.{expression_of, condition_of};
ghost use Rattle.plus_state.specs.Fits.{IsIn, Fits, comparisons as comparisons_of};
ghost use Rattle.plus_state.specs.Stops.{as_list};
ghost use Rattle.plus_crossing.specs.Listed.{SidesTell, RootsTell};

use crate::counts::comparisons;
use crate::node::{CondStop, PieceStop, at};
use crate::pieces::piece;
use crate::rates::Rates;
use crate::roots::root;
use plus_number::exact::Exact;
use plus_state::states::State;
use plus_state::term::{Cond, Expr};
use plus_state::truth::decided;
use std::alloc::AllocError;
use std::fmt::Debug;
use thiserror::Error;

/// Why the roots of a condition cannot be listed.
#[derive(Clone, Copy, Debug, Error)]
#[error_bound(Q: Debug)]
pub enum RootsStop<Q> {
    #[error(transparent)]
    Condition(CondStop<Q>),
    #[error("out of memory")]
    Memory,
}

// The root of two sides, if they have one.
#[tactic(auto, using(crate::proofs::RootLists::sides))]
fn compare_root<Q: Exact>(
    left: &Expr<Q>,
    right: &Expr<Q>,
    state: &State<Q>,
    rates: &Rates<Q>,
) -> Result<Option<Q>, PieceStop<Q>>
    requires left_in { IsIn (length (state.now.fluents)) (expression_of Q.value left.now) }
    requires right_in { IsIn (length (state.now.fluents)) (expression_of Q.value right.now) }
    requires rates { length rates.now ≡ length (state.now.fluents) }
    ensures { SidesTell Q.value Q.fits (expression_of Q.value left.now) (expression_of Q.value right.now) state.now rates.now result }
{
    match piece(left, state, rates)? {
        None => Ok(None),
        Some(x) => match piece(right, state, rates)? {
            None => Ok(None),
            Some(y) => Ok(root(x, y)?),
        },
    }
}

fn append<Q: Exact>(into: &mut Vec<Q>, root: Option<Q>) -> Result<(), AllocError>
    ensures { IfOk result (λ _. map Q.value into.new.items ≡ map Q.value into.old.items ++ as_list (option_map Q.value root)) }
{
    match root {
        None => Ok(()),
        Some(r) => {
            into.push(r)?;
            Ok(())
        }
    }
}

// The roots of a condition behind others, or the first test that fails. So many comparisons stand before it.
#[cycle(roots)]
#[tactic(auto, using(crate::proofs::RootLists::listing))]
fn roots_from<Q: Exact>(
    cond: &Cond<Q>,
    state: &State<Q>,
    rates: &Rates<Q>,
    before: u32,
    into: &mut Vec<Q>,
) -> Result<(), RootsStop<Q>>
    requires fits { Fits (length (state.now.atoms)) (length (state.now.fluents)) (condition_of Q.value cond.now) }
    requires rates { length rates.now ≡ length (state.now.fluents) }
    requires few { before + comparisons_of (condition_of Q.value cond.now) < 2 ^ 32 }
    ensures { RootsTell Q.value Q.fits before (condition_of Q.value cond.now) state.now rates.now into.old.items into.new.items result }
{
    if let Some(_) = decided(cond, state) {
        return Ok(());
    }
    match cond {
        Cond::All(members) => {
            let mut number = before;
            'all: for member in members {
                roots_of(member, state, rates, number, into)?;
                number += comparisons(member);
            }
            Ok(())
        }
        Cond::Any(members) => {
            let mut number = before;
            'any: for member in members {
                roots_of(member, state, rates, number, into)?;
                number += comparisons(member);
            }
            Ok(())
        }
        Cond::Atom { .. } => Ok(()),
        Cond::Compare { left, right, .. } => match compare_root(left, right, state, rates) {
            Err(stop) => Err(RootsStop::Condition(at(stop, before + 1))),
            Ok(root) => match append(into, root) {
                Err(_) => Err(RootsStop::Memory),
                Ok(()) => Ok(()),
            },
        },
    }
}

// The same, where an atom and a lone comparison need no look at what atoms decide.
#[cycle(roots)]
#[tactic(auto, using(crate::proofs::RootLists::listing))]
fn roots_of<Q: Exact>(
    cond: &Cond<Q>,
    state: &State<Q>,
    rates: &Rates<Q>,
    before: u32,
    into: &mut Vec<Q>,
) -> Result<(), RootsStop<Q>>
    requires fits { Fits (length (state.now.atoms)) (length (state.now.fluents)) (condition_of Q.value cond.now) }
    requires rates { length rates.now ≡ length (state.now.fluents) }
    requires few { before + comparisons_of (condition_of Q.value cond.now) < 2 ^ 32 }
    ensures { RootsTell Q.value Q.fits before (condition_of Q.value cond.now) state.now rates.now into.old.items into.new.items result }
{
    match cond {
        Cond::Compare { left, right, .. } => match compare_root(left, right, state, rates) {
            Err(stop) => Err(RootsStop::Condition(at(stop, before + 1))),
            Ok(root) => match append(into, root) {
                Err(_) => Err(RootsStop::Memory),
                Ok(()) => Ok(()),
            },
        },
        Cond::Atom { .. } => Ok(()),
        Cond::All(_) | Cond::Any(_) => roots_from(cond, state, rates, before, into),
    }
}

/// Appends the moments above 0 at which the sides of a live comparison meet, when the fluents move at
/// these rates: one for each such comparison, in the order of the text. The refusal is the first test
/// that fails: the live comparisons in the order of the text, of each the pieces of its sides and then
/// its root; or want of memory. Then more than before may stand in the list.
pub fn roots_into<Q: Exact>(
    cond: &Cond<Q>,
    state: &State<Q>,
    rates: &Rates<Q>,
    into: &mut Vec<Q>,
) -> Result<(), RootsStop<Q>>
    requires fits { Fits (length (state.now.atoms)) (length (state.now.fluents)) (condition_of Q.value cond.now) }
    requires rates { length rates.now ≡ length (state.now.fluents) }
    requires few { comparisons_of (condition_of Q.value cond.now) < 2 ^ 32 }
    ensures { RootsTell Q.value Q.fits 0 (condition_of Q.value cond.now) state.now rates.now into.old.items into.new.items result }
{
    roots_of(cond, state, rates, 0, into)
}
