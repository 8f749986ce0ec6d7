//! One operation on two values, or the node that it asks.
ghost use Rattle.std.specs.Prelude.{◌≡◌, ◌↔◌, MatchResult, pos};
ghost use Rattle.plus_fraction.specs.Fraction.{whole};
ghost use Rattle.plus_number.specs.Exact.{Answers};
ghost use Rattle.plus_state.specs.Asked.{result_of};
ghost use Rattle.plus_crossing.specs.Asked.{NodeTells, NodeAnswers, stop_of, cond_stop_of, number};

use plus_number::exact::{Exact, Outside};
use plus_state::term::{Overflow, Sign};
use std::fmt::Debug;
use thiserror::Error;

/// Why an expression has no piece.
#[derive(Clone, Copy, Debug, Error)]
#[error_bound(Q: Debug)]
pub enum PieceStop<Q> {
    #[error(transparent)]
    Number(Overflow<Q>),
    /// It has a product of two moving factors, or a moving divisor.
    #[error("the value moves nonlinearly")]
    Nonlinear,
}

/// Why a condition cannot be followed.
#[derive(Clone, Copy, Debug, Error)]
#[error_bound(Q: Debug)]
pub enum CondStop<Q> {
    #[error(transparent)]
    Number(Overflow<Q>),
    /// A live comparison moves nonlinearly. Its number counts the comparisons of the condition, in the
    /// order of the text and from 1.
    #[error("comparison {comparison} moves nonlinearly")]
    Nonlinear { comparison: u32 },
}

// The stop of a side of the comparison with this number.
pub fn at<Q: Exact>(stop: PieceStop<Q>, comparison: u32) -> CondStop<Q>
    ensures { cond_stop_of Q.value result ≡ number comparison (stop_of Q.value stop) }
{
    match stop {
        PieceStop::Number(overflow) => CondStop::Number(overflow),
        PieceStop::Nonlinear => CondStop::Nonlinear { comparison },
    }
}

// The result of an operation whose exact result is asked here.
pub fn exact<Q: Exact>(
    sign: Sign,
    left: Q,
    right: Q,
    answer: Result<Q, Outside>,
) -> Result<Q, Overflow<Q>>
    requires { Answers Q.value Q.fits (result_of sign (Q.value left) (Q.value right)) answer }
    ensures { NodeTells Q.value Q.fits sign left right result }
{
    match answer {
        Ok(x) => Ok(x),
        Err(_) => Err(Overflow { sign, left, right }),
    }
}

pub fn plus<Q: Exact>(x: Q, y: Q) -> Result<Q, PieceStop<Q>>
    ensures { NodeAnswers Q.value Q.fits Sign.Plus x y result }
{
    match exact(Sign::Plus, x, y, x.add(y)) {
        Ok(z) => Ok(z),
        Err(overflow) => Err(PieceStop::Number(overflow)),
    }
}

pub fn minus<Q: Exact>(x: Q, y: Q) -> Result<Q, PieceStop<Q>>
    ensures { NodeAnswers Q.value Q.fits Sign.Minus x y result }
{
    match exact(Sign::Minus, x, y, x.sub(y)) {
        Ok(z) => Ok(z),
        Err(overflow) => Err(PieceStop::Number(overflow)),
    }
}

pub fn times<Q: Exact>(x: Q, y: Q) -> Result<Q, PieceStop<Q>>
    ensures { NodeAnswers Q.value Q.fits Sign.Times x y result }
{
    match exact(Sign::Times, x, y, x.mul(y)) {
        Ok(z) => Ok(z),
        Err(overflow) => Err(PieceStop::Number(overflow)),
    }
}

pub fn over<Q: Exact>(x: Q, y: Q) -> Result<Q, PieceStop<Q>>
    requires { Q.value y ≡ whole (pos 0) → ⊥ }
    ensures { NodeAnswers Q.value Q.fits Sign.Divide x y result }
{
    match exact(Sign::Divide, x, y, x.div(y)) {
        Ok(z) => Ok(z),
        Err(overflow) => Err(PieceStop::Number(overflow)),
    }
}
