//! What holds just after a state.
ghost use Rattle.std.specs.Prelude.{◌≡◌, ◌↔◌, ◌<◌, ◌+◌, ◌^◌, true, false, length, MatchResult};
ghost use Rattle.plus_fraction.specs.Fraction.{compared};
ghost use Rattle.plus_model.specs.Terms.{Compare};
ghost use Rattle.plus_model.specs.Piece.{then_slopes};
ghost use Rattle.plus_model.specs.Running.{JustAfter};
ghost use Rattle.plus_state.specs.View.{expression_of, condition_of, test_of};
ghost use Rattle.plus_state.specs.Fits.{IsIn, Fits, comparisons as comparisons_of};
ghost use Rattle.plus_crossing.specs.Conds.{AfterSides, AfterAnswers, JustAfterAnswers};

use crate::counts::comparisons;
use crate::node::{CondStop, PieceStop, at};
use crate::pieces::{Linear, piece};
use crate::rates::Rates;
use plus_number::exact::Exact;
use plus_state::states::State;
use plus_state::term::{Cond, Expr, Test};
use plus_state::truth::{decided, join, passes, signed};
use std::cmp::Ordering;

fn order_after<Q: Exact>(x: Linear<Q>, y: Linear<Q>) -> Ordering
    ensures { result ≡ then_slopes (compared (Q.value x.value) (Q.value y.value)) (compared (Q.value x.slope) (Q.value y.slope)) }
{
    match x.value.order(y.value) {
        Ordering::Less => Ordering::Less,
        Ordering::Greater => Ordering::Greater,
        Ordering::Equal => x.slope.order(y.slope),
    }
}

// Whether two sides stand in the relation just after.
#[tactic(auto, using(crate::proofs::TruthAfter::compares))]
fn compare_after<Q: Exact>(
    relation: Test,
    left: &Expr<Q>,
    right: &Expr<Q>,
    positive: bool,
    state: &State<Q>,
    rates: &Rates<Q>,
) -> Result<bool, PieceStop<Q>>
    requires left_in { IsIn (length (state.now.fluents)) (expression_of Q.value left.now) }
    requires right_in { IsIn (length (state.now.fluents)) (expression_of Q.value right.now) }
    requires rates { length rates.now ≡ length (state.now.fluents) }
    ensures { AfterSides Q.value Q.fits (test_of relation) (expression_of Q.value left.now) (expression_of Q.value right.now) positive state.now rates.now result }
{
    match piece(left, state, rates)? {
        None => Ok(signed(positive, false)),
        Some(x) => match piece(right, state, rates)? {
            None => Ok(signed(positive, false)),
            Some(y) => Ok(signed(positive, passes(relation, order_after(x, y)))),
        },
    }
}

// The truth of a condition just after, or the first test that fails. So many comparisons stand before it.
#[cycle(after)]
#[tactic(auto, using(crate::proofs::Walking::afters))]
fn truth_after<Q: Exact>(
    cond: &Cond<Q>,
    state: &State<Q>,
    rates: &Rates<Q>,
    before: u32,
) -> Result<bool, CondStop<Q>>
    requires fits { Fits (length (state.now.atoms)) (length (state.now.fluents)) (condition_of Q.value cond.now) }
    requires rates { length rates.now ≡ length (state.now.fluents) }
    requires few { before + comparisons_of (condition_of Q.value cond.now) < 2 ^ 32 }
    ensures { AfterAnswers Q.value Q.fits before (condition_of Q.value cond.now) state.now rates.now result }
{
    if let Some(truth) = decided(cond, state) {
        return Ok(truth);
    }
    match cond {
        Cond::All(members) => {
            let mut truth = true;
            let mut number = before;
            'all: for member in members {
                truth = join(true, truth, soon(member, state, rates, number)?);
                number += comparisons(member);
            }
            Ok(truth)
        }
        Cond::Any(members) => {
            let mut truth = false;
            let mut number = before;
            'any: for member in members {
                truth = join(false, truth, soon(member, state, rates, number)?);
                number += comparisons(member);
            }
            Ok(truth)
        }
        Cond::Atom { atom, positive } => Ok(signed(*positive, state.atom(*atom))),
        Cond::Compare {
            test,
            left,
            right,
            positive,
        } => match compare_after(*test, left, right, *positive, state, rates) {
            Ok(truth) => Ok(truth),
            Err(stop) => Err(at(stop, before + 1)),
        },
    }
}

// The same, where an atom and a lone comparison need no look at what atoms decide.
#[cycle(after)]
#[tactic(auto, using(crate::proofs::Walking::afters))]
fn soon<Q: Exact>(
    cond: &Cond<Q>,
    state: &State<Q>,
    rates: &Rates<Q>,
    before: u32,
) -> Result<bool, CondStop<Q>>
    requires fits { Fits (length (state.now.atoms)) (length (state.now.fluents)) (condition_of Q.value cond.now) }
    requires rates { length rates.now ≡ length (state.now.fluents) }
    requires few { before + comparisons_of (condition_of Q.value cond.now) < 2 ^ 32 }
    ensures { AfterAnswers Q.value Q.fits before (condition_of Q.value cond.now) state.now rates.now result }
{
    match cond {
        Cond::Compare {
            test,
            left,
            right,
            positive,
        } => match compare_after(*test, left, right, *positive, state, rates) {
            Ok(truth) => Ok(truth),
            Err(stop) => Err(at(stop, before + 1)),
        },
        Cond::Atom { atom, positive } => Ok(signed(*positive, state.atom(*atom))),
        Cond::All(_) | Cond::Any(_) => truth_after(cond, state, rates, before),
    }
}

/// Whether a condition holds just after a state: at every moment soon enough after it, when the fluents
/// move at these rates. The refusal is the first test that fails: the live comparisons in the order of
/// the text, of each the piece of the left side and, where that has a value, of the right.
pub fn just_after<Q: Exact>(
    cond: &Cond<Q>,
    state: &State<Q>,
    rates: &Rates<Q>,
) -> Result<bool, CondStop<Q>>
    requires fits { Fits (length (state.now.atoms)) (length (state.now.fluents)) (condition_of Q.value cond.now) }
    requires rates { length rates.now ≡ length (state.now.fluents) }
    requires few { comparisons_of (condition_of Q.value cond.now) < 2 ^ 32 }
    ensures { JustAfterAnswers Q.value Q.fits (condition_of Q.value cond.now) state.now rates.now result }
{
    let truth = soon(cond, state, rates, 0)?;
    Ok(truth)
}
