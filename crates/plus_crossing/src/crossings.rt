//! The next root of a condition's live comparisons.
ghost use Rattle.std.specs.Prelude.{◌≡◌, ◌<◌, ◌+◌, ◌^◌, length, option_map, pos};
ghost use Rattle.plus_fraction.specs.Fraction.{whole, ◌≤ℚ◌};
ghost use Rattle.plus_state.specs.View.{expression_of, condition_of};
ghost use Rattle.plus_state.specs.Fits.{IsIn, Fits, comparisons as comparisons_of};
ghost use Rattle.plus_crossing.specs.Next.{NextSides, NextAnswers, is_below as is_below_in, lesser as lesser_of};

use crate::counts::comparisons;
use crate::node::{CondStop, PieceStop, at};
use crate::pieces::piece;
use crate::rates::Rates;
use crate::roots::root;
use plus_number::exact::Exact;
use plus_state::states::State;
use plus_state::term::{Cond, Expr};
use plus_state::truth::decided;
use std::cmp::Ordering;

pub fn is_below<Q: Exact>(x: Q, y: Q) -> bool
    ensures { result ≡ is_below_in (Q.value x) (Q.value y) }
{
    match x.order(y) {
        Ordering::Less => true,
        _ => false,
    }
}

fn lesser<Q: Exact>(x: Option<Q>, y: Option<Q>) -> Option<Q>
    ensures { option_map Q.value result ≡ lesser_of (option_map Q.value x) (option_map Q.value y) }
{
    match x {
        None => y,
        Some(r) => match y {
            None => Some(r),
            Some(q) => { if is_below(q, r) { Some(q) } else { Some(r) } }
        },
    }
}

// The root of two sides strictly between two moments.
#[tactic(auto, using(crate::proofs::NextRoot::sides))]
fn compare_next<Q: Exact>(
    left: &Expr<Q>,
    right: &Expr<Q>,
    state: &State<Q>,
    rates: &Rates<Q>,
    after: Q,
    until: Q,
) -> Result<Option<Q>, PieceStop<Q>>
    requires left_in { IsIn (length (state.now.fluents)) (expression_of Q.value left.now) }
    requires right_in { IsIn (length (state.now.fluents)) (expression_of Q.value right.now) }
    requires rates { length rates.now ≡ length (state.now.fluents) }
    ensures { NextSides Q.value Q.fits (expression_of Q.value left.now) (expression_of Q.value right.now) state.now rates.now (Q.value after) (Q.value until) result }
{
    match piece(left, state, rates)? {
        None => Ok(None),
        Some(x) => match piece(right, state, rates)? {
            None => Ok(None),
            Some(y) => match root(x, y)? {
                None => Ok(None),
                Some(r) => {
                    if is_below(after, r) {
                        if is_below(r, until) {
                            return Ok(Some(r));
                        }
                    }
                    Ok(None)
                }
            },
        },
    }
}

// The least root of a live comparison strictly between two moments, or the first test that fails. So many
// comparisons stand before the condition.
#[tactic(auto, using(crate::proofs::Walking::nexts))]
fn crossing_from<Q: Exact>(
    cond: &Cond<Q>,
    state: &State<Q>,
    rates: &Rates<Q>,
    after: Q,
    until: Q,
    before: u32,
) -> Result<Option<Q>, CondStop<Q>>
    requires fits { Fits (length (state.now.atoms)) (length (state.now.fluents)) (condition_of Q.value cond.now) }
    requires rates { length rates.now ≡ length (state.now.fluents) }
    requires few { before + comparisons_of (condition_of Q.value cond.now) < 2 ^ 32 }
    ensures { NextAnswers Q.value Q.fits before (condition_of Q.value cond.now) state.now rates.now (Q.value after) (Q.value until) result }
{
    if let Some(_) = decided(cond, state) {
        return Ok(None);
    }
    match cond {
        Cond::All(members) => {
            let mut least = None;
            let mut number = before;
            'all: for member in members {
                least = lesser(
                    least,
                    crossing_from(member, state, rates, after, until, number)?,
                );
                number += comparisons(member);
            }
            Ok(least)
        }
        Cond::Any(members) => {
            let mut least = None;
            let mut number = before;
            'any: for member in members {
                least = lesser(
                    least,
                    crossing_from(member, state, rates, after, until, number)?,
                );
                number += comparisons(member);
            }
            Ok(least)
        }
        Cond::Atom { .. } => Ok(None),
        Cond::Compare { left, right, .. } => match compare_next(
            left, right, state, rates, after, until,
        ) {
            Ok(root) => Ok(root),
            Err(stop) => Err(at(stop, before + 1)),
        },
    }
}

/// The least moment strictly between two others at which the sides of a live comparison meet, when the
/// fluents move at these rates. The refusal is the first test that fails: the live comparisons in the
/// order of the text, of each the pieces of its sides and then its root, also one that is not between.
pub fn next_crossing<Q: Exact>(
    cond: &Cond<Q>,
    state: &State<Q>,
    rates: &Rates<Q>,
    after: Q,
    until: Q,
) -> Result<Option<Q>, CondStop<Q>>
    requires fits { Fits (length (state.now.atoms)) (length (state.now.fluents)) (condition_of Q.value cond.now) }
    requires rates { length rates.now ≡ length (state.now.fluents) }
    requires few { comparisons_of (condition_of Q.value cond.now) < 2 ^ 32 }
    requires after { whole (pos 0) ≤ℚ Q.value after }
    ensures { NextAnswers Q.value Q.fits 0 (condition_of Q.value cond.now) state.now rates.now (Q.value after) (Q.value until) result }
{
    crossing_from(cond, state, rates, after, until, 0)
}
