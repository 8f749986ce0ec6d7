//! Value and slope of an expression along rates.
ghost use Rattle.std.specs.Prelude.{◌≡◌, ◌<◌, ◌||◌, true, length, pos};
ghost use Rattle.plus_fraction.specs.Fraction.{whole, ◌+ℚ◌, ◌-ℚ◌};
ghost use Rattle.plus_model.specs.Value.{is_zero as is_zero_of};
ghost use Rattle.plus_model.specs.Piece.{Straight, product_piece, quotient_piece, piece as piece_in};
ghost use Rattle.plus_state.specs.View.{expression_of};
ghost use Rattle.plus_state.specs.Fits.{IsIn};
ghost use Rattle.plus_crossing.specs.Asked.{NodeAnswers};
ghost use Rattle.plus_crossing.specs.Pieces.{Worked, op_piece, op_asks, piece_asks};

use crate::node::{PieceStop, minus, over, plus, times};
use crate::rates::Rates;
use plus_number::consts::zero;
use plus_number::exact::Exact;
use plus_state::evaluation::is_zero;
use plus_state::states::State;
use plus_state::term::{Expr, Sign};

/// A value, and what it gains in each unit of time.
#[derive(Clone, Copy)]
pub struct Linear<Q> {
    pub value: Q,
    pub slope: Q,
}

#[tactic(auto, using(crate::proofs::Ops::ops), unfolding(plus_state::specs::Tested::AllPass, plus_state::specs::Tested::FirstFailing, plus_state::specs::Asked::NodeFits, crate::specs::Asked::Passes, crate::specs::Pieces::op_asks, crate::specs::Pieces::op_piece))]
fn sum<Q: Exact>(x: Linear<Q>, y: Linear<Q>) -> Result<Option<Linear<Q>>, PieceStop<Q>>
    ensures { Worked Q.value Q.fits
        (op_piece Sign.Plus (Q.value x.value) (Q.value x.slope) (Q.value y.value) (Q.value y.slope))
        (op_asks Sign.Plus (Q.value x.value) (Q.value x.slope) (Q.value y.value) (Q.value y.slope))
        result }
{
    let value = plus(x.value, y.value)?;
    let slope = plus(x.slope, y.slope)?;
    Ok(Some(Linear { value, slope }))
}

#[tactic(auto, using(crate::proofs::Ops::ops), unfolding(plus_state::specs::Tested::AllPass, plus_state::specs::Tested::FirstFailing, plus_state::specs::Asked::NodeFits, crate::specs::Asked::Passes, crate::specs::Pieces::op_asks, crate::specs::Pieces::op_piece))]
fn difference<Q: Exact>(x: Linear<Q>, y: Linear<Q>) -> Result<Option<Linear<Q>>, PieceStop<Q>>
    ensures { Worked Q.value Q.fits
        (op_piece Sign.Minus (Q.value x.value) (Q.value x.slope) (Q.value y.value) (Q.value y.slope))
        (op_asks Sign.Minus (Q.value x.value) (Q.value x.slope) (Q.value y.value) (Q.value y.slope))
        result }
{
    let value = minus(x.value, y.value)?;
    let slope = minus(x.slope, y.slope)?;
    Ok(Some(Linear { value, slope }))
}

#[tactic(auto, using(crate::proofs::Ops::ops), unfolding(plus_state::specs::Tested::AllPass, plus_state::specs::Tested::FirstFailing, plus_state::specs::Asked::NodeFits, crate::specs::Asked::Passes, crate::specs::Pieces::op_asks, crate::specs::Pieces::op_piece))]
fn product<Q: Exact>(x: Linear<Q>, y: Linear<Q>) -> Result<Option<Linear<Q>>, PieceStop<Q>>
    ensures { Worked Q.value Q.fits
        (op_piece Sign.Times (Q.value x.value) (Q.value x.slope) (Q.value y.value) (Q.value y.slope))
        (op_asks Sign.Times (Q.value x.value) (Q.value x.slope) (Q.value y.value) (Q.value y.slope))
        result }
{
    if is_zero(x.slope) {
        let value = times(x.value, y.value)?;
        if is_zero(y.slope) {
            return Ok(Some(Linear {
                value,
                slope: zero(),
            }));
        }
        let slope = times(x.value, y.slope)?;
        return Ok(Some(Linear { value, slope }));
    }
    if is_zero(y.slope) {
        let value = times(x.value, y.value)?;
        let slope = times(x.slope, y.value)?;
        return Ok(Some(Linear { value, slope }));
    }
    Err(PieceStop::Nonlinear)
}

#[tactic(auto, using(crate::proofs::Ops::ops), unfolding(plus_state::specs::Tested::AllPass, plus_state::specs::Tested::FirstFailing, plus_state::specs::Asked::NodeFits, crate::specs::Asked::Passes, crate::specs::Pieces::op_asks, crate::specs::Pieces::op_piece))]
fn quotient<Q: Exact>(x: Linear<Q>, y: Linear<Q>) -> Result<Option<Linear<Q>>, PieceStop<Q>>
    ensures { Worked Q.value Q.fits
        (op_piece Sign.Divide (Q.value x.value) (Q.value x.slope) (Q.value y.value) (Q.value y.slope))
        (op_asks Sign.Divide (Q.value x.value) (Q.value x.slope) (Q.value y.value) (Q.value y.slope))
        result }
{
    if !is_zero(y.slope) {
        return Err(PieceStop::Nonlinear);
    }
    if is_zero(y.value) {
        return Ok(None);
    }
    let value = over(x.value, y.value)?;
    if is_zero(x.slope) {
        return Ok(Some(Linear {
            value,
            slope: zero(),
        }));
    }
    let slope = over(x.slope, y.value)?;
    Ok(Some(Linear { value, slope }))
}

// The piece of an expression, whose operands are worked from the left.
#[tactic(auto, using(crate::proofs::Joins::joins))]
fn calculated<Q: Exact>(
    expr: &Expr<Q>,
    state: &State<Q>,
    rates: &Rates<Q>,
) -> Result<Option<Linear<Q>>, PieceStop<Q>>
    requires fits { IsIn (length (state.now.fluents)) (expression_of Q.value expr.now) }
    requires rates { length rates.now ≡ length (state.now.fluents) }
    ensures { Worked Q.value Q.fits
        (piece_in (expression_of Q.value expr.now) state.now rates.now)
        (piece_asks (expression_of Q.value expr.now) state.now rates.now) result }
{
    match expr {
        Expr::Number(x) => Ok(Some(Linear {
            value: *x,
            slope: zero(),
        })),
        Expr::Fluent(f) => match state.fluent(*f) {
            None => Ok(None),
            Some(v) => Ok(Some(Linear {
                value: v,
                slope: rates.get(*f),
            })),
        },
        Expr::Add(a, b) => match calculated(a, state, rates)? {
            None => Ok(None),
            Some(x) => match calculated(b, state, rates)? {
                None => Ok(None),
                Some(y) => Ok(sum(x, y)?),
            },
        },
        Expr::Sub(a, b) => match calculated(a, state, rates)? {
            None => Ok(None),
            Some(x) => match calculated(b, state, rates)? {
                None => Ok(None),
                Some(y) => Ok(difference(x, y)?),
            },
        },
        Expr::Mul(a, b) => match calculated(a, state, rates)? {
            None => Ok(None),
            Some(x) => match calculated(b, state, rates)? {
                None => Ok(None),
                Some(y) => Ok(product(x, y)?),
            },
        },
        Expr::Div(a, b) => match calculated(a, state, rates)? {
            None => Ok(None),
            Some(x) => match calculated(b, state, rates)? {
                None => Ok(None),
                Some(y) => Ok(quotient(x, y)?),
            },
        },
    }
}

/// Value and slope of an expression in a state, along these rates; none where it has no value. The
/// refusal is the first test that fails, operands from the left.
#[inline(always)]
#[tactic(auto, using(crate::proofs::Joins::joins))]
pub fn piece<Q: Exact>(
    expr: &Expr<Q>,
    state: &State<Q>,
    rates: &Rates<Q>,
) -> Result<Option<Linear<Q>>, PieceStop<Q>>
    requires fits { IsIn (length (state.now.fluents)) (expression_of Q.value expr.now) }
    requires rates { length rates.now ≡ length (state.now.fluents) }
    ensures { Worked Q.value Q.fits
        (piece_in (expression_of Q.value expr.now) state.now rates.now)
        (piece_asks (expression_of Q.value expr.now) state.now rates.now) result }
{
    match expr {
        Expr::Number(x) => Ok(Some(Linear {
            value: *x,
            slope: zero(),
        })),
        Expr::Fluent(f) => match state.fluent(*f) {
            None => Ok(None),
            Some(v) => Ok(Some(Linear {
                value: v,
                slope: rates.get(*f),
            })),
        },
        Expr::Add(_, _) => Ok(calculated(expr, state, rates)?),
        Expr::Sub(_, _) => Ok(calculated(expr, state, rates)?),
        Expr::Mul(_, _) => Ok(calculated(expr, state, rates)?),
        Expr::Div(_, _) => Ok(calculated(expr, state, rates)?),
    }
}
