//! Values of expressions.
ghost use Rattle.std.specs.Prelude.{◌≡◌, ◌<◌, length, option_map, MatchResult, true, false, Some, [], ◌∷◌};
ghost use Rattle.plus_fraction.specs.Fraction.{whole, ◌+ℚ◌};
ghost use Rattle.plus_number.specs.Exact.{Answers};
ghost use Rattle.plus_model.specs.Value.{is_zero, value as value_of};
ghost use Rattle.plus_state.specs.View.{expression_of, overflow_of};
ghost use Rattle.plus_state.specs.Tells.{Tells};
ghost use Rattle.plus_state.specs.Asked.{nodes, node, node_of, result_of, outcome, AllFit, FirstUnfit};
ghost use Rattle.plus_state.specs.Fits.{IsIn};

use crate::states::State;
use crate::term::{Expr, Overflow, Sign};
use plus_number::consts::zero;
use plus_number::exact::{Exact, Outside};
use std::cmp::Ordering;

// Whether a value is zero.
pub fn is_zero<Q: Exact>(x: Q) -> bool
    ensures { result ≡ is_zero (Q.value x) }
{
    match x.order(zero()) {
        Ordering::Equal => true,
        _ => false,
    }
}

// What an operation comes to whose exact result is asked here.
#[tactic(auto, using(crate::proofs::AskedLemmas::calculating))]
fn done<Q: Exact>(
    sign: Sign,
    left: Q,
    right: Q,
    answer: Result<Q, Outside>,
) -> Result<Option<Q>, Overflow<Q>>
    requires { Answers Q.value Q.fits (result_of sign (Q.value left) (Q.value right)) answer }
    ensures { MatchResult result (λ o. AllFit Q.fits (node sign (Q.value left) (Q.value right) ∷ []) × (option_map Q.value o ≡ Some (result_of sign (Q.value left) (Q.value right)))) (λ w. FirstUnfit Q.fits (node sign (Q.value left) (Q.value right) ∷ []) (overflow_of Q.value w)) }
{
    match answer {
        Ok(x) => Ok(Some(x)),
        Err(_) => Err(Overflow { sign, left, right }),
    }
}

// The operation on two values, or the node that it asks.
#[tactic(auto, using(crate::proofs::AskedLemmas::calculating), unfolding(crate::specs::Asked::node_of))]
pub fn calculate<Q: Exact>(sign: Sign, left: Q, right: Q) -> Result<Option<Q>, Overflow<Q>>
    ensures { MatchResult result (λ o. AllFit Q.fits (node_of sign (Q.value left) (Q.value right)) × (option_map Q.value o ≡ outcome sign (Q.value left) (Q.value right))) (λ w. FirstUnfit Q.fits (node_of sign (Q.value left) (Q.value right)) (overflow_of Q.value w)) }
{
    match sign {
        Sign::Plus => done(Sign::Plus, left, right, left.add(right)),
        Sign::Minus => done(Sign::Minus, left, right, left.sub(right)),
        Sign::Times => done(Sign::Times, left, right, left.mul(right)),
        Sign::Divide => {
            if is_zero(right) {
                return Ok(None);
            }
            done(Sign::Divide, left, right, left.div(right))
        }
    }
}

// The same, also of a calculation.
#[tactic(auto, using(crate::proofs::AskedLemmas::asked))]
fn calculated<Q: Exact>(expr: &Expr<Q>, state: &State<Q>) -> Result<Option<Q>, Overflow<Q>>
    requires { IsIn (length (state.now.fluents)) (expression_of Q.value expr.now) }
    ensures { Tells Q.value Q.fits (nodes (expression_of Q.value expr.now) state.now) (λ o. option_map Q.value o ≡ value_of (expression_of Q.value expr.now) state.now) result }
{
    let (sign, left, right) = match expr {
        Expr::Number(x) => return Ok(Some(*x)),
        Expr::Fluent(f) => return Ok(state.fluent(*f)),
        Expr::Add(a, b) => (Sign::Plus, a, b),
        Expr::Sub(a, b) => (Sign::Minus, a, b),
        Expr::Mul(a, b) => (Sign::Times, a, b),
        Expr::Div(a, b) => (Sign::Divide, a, b),
    };
    match calculated(left, state)? {
        None => Ok(None),
        Some(x) => match calculated(right, state)? {
            None => Ok(None),
            Some(y) => calculate(sign, x, y),
        },
    }
}

// The value of an expression, or the first node that is no value of the type.
#[tactic(auto, using(crate::proofs::AskedLemmas::asked))]
pub fn value<Q: Exact>(expr: &Expr<Q>, state: &State<Q>) -> Result<Option<Q>, Overflow<Q>>
    requires { IsIn (length (state.now.fluents)) (expression_of Q.value expr.now) }
    ensures { Tells Q.value Q.fits (nodes (expression_of Q.value expr.now) state.now) (λ o. option_map Q.value o ≡ value_of (expression_of Q.value expr.now) state.now) result }
{
    match expr {
        Expr::Number(x) => Ok(Some(*x)),
        Expr::Fluent(f) => Ok(state.fluent(*f)),
        Expr::Add(_, _) | Expr::Sub(_, _) | Expr::Mul(_, _) | Expr::Div(_, _) => {
            calculated(expr, state)
        }
    }
}
