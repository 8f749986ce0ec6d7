//! The ground forms of expressions.

ghost use Rattle.std.specs.Prelude.{◌≡◌, All, IfOk, pos, option_map};
ghost use Rattle.plus_fraction.specs.Fraction.{whole};
ghost use Rattle.plus_numbering.specs.Numbered.{context};
ghost use Rattle.plus_literal.specs.Value.{LiteralFits, literal_value};
ghost use Rattle.plus_state.specs.View.{expression_of};
ghost use Rattle.plus_expansion.specs.Literals.{expression_literals};
ghost use Rattle.plus_expansion.specs.Expansion.{expression_meant};
ghost use Rattle.plus_ground.specs.Chains.{operation, link, total_or_zero};

use crate::environments::{Environment, fluent};
use plus_literal::{FromParts, literal};
use plus_numbering::Numbering;
use plus_state::{Expr, Sign};
use plus_tree::{ExprNode, ExprTree, Literal};
use std::alloc::{AllocError, Global};

/// The number that a literal means, which is a value of the type.
#[inline(always)]
pub fn number<Q: FromParts>(number: &Literal) -> Q
    requires { LiteralFits Q.fits number.now }
    ensures { Q.value result ≡ literal_value number.now }
{
    literal::<Q>(number).unwrap()
}

/// The number 0.
pub fn zero<Q: FromParts>() -> Q
    ensures { Q.value result ≡ whole (pos 0) }
{
    Q::ratio(0, 1).unwrap()
}

fn one<Q: FromParts>() -> Q
    ensures { Q.value result ≡ whole (pos 1) }
{
    Q::ratio(1, 1).unwrap()
}

// The operation on two expressions.
fn operate<Q: FromParts>(
    alloc: Global,
    sign: Sign,
    left: Expr<Q>,
    right: Expr<Q>,
) -> Result<Expr<Q>, AllocError>
    ensures { IfOk result (λ e. expression_of Q.value e ≡ operation sign (expression_of Q.value left) (expression_of Q.value right)) }
{
    let left = Box::new(alloc, left)?;
    let right = Box::new(alloc, right)?;
    Ok(match sign {
        Sign::Plus => Expr::Add(left, right),
        Sign::Minus => Expr::Sub(left, right),
        Sign::Times => Expr::Mul(left, right),
        Sign::Divide => Expr::Div(left, right),
    })
}

// The first operand of a chain, or one more after those before it.
fn chain<Q: FromParts>(
    alloc: Global,
    sign: Sign,
    total: Option<Expr<Q>>,
    next: Expr<Q>,
) -> Result<Expr<Q>, AllocError>
    ensures { IfOk result (λ e. expression_of Q.value e
        ≡ link (operation sign) (option_map (expression_of Q.value) total) (expression_of Q.value next)) }
{
    match total {
        None => Ok(next),
        Some(total) => operate(alloc, sign, total, next),
    }
}

// The total of a chain, or 0 where it has no operand.
fn total_or_zero<Q: FromParts>(total: Option<Expr<Q>>) -> Expr<Q>
    ensures { expression_of Q.value result ≡ total_or_zero (option_map (expression_of Q.value) total) }
{
    match total {
        None => Expr::Number(zero()),
        Some(total) => total,
    }
}

/// The ground form of an expression, in which sums and products of several operands are grouped to
/// the left.
#[tactic(auto, using(crate::proofs::ExpressionsLemmas::chaining))]
pub fn expression<Q: FromParts>(
    alloc: Global,
    numbering: &Numbering,
    env: &Environment,
    expr: &ExprTree,
) -> Result<Expr<Q>, AllocError>
    requires { All (LiteralFits Q.fits) (expression_literals expr.now) }
    ensures { IfOk result (λ e. expression_of Q.value e
        ≡ expression_meant (context numbering.now) env.now expr.now) }
{
    match &expr.node {
        ExprNode::Number(literal) => Ok(Expr::Number(number(literal))),
        ExprNode::Clock => Ok(Expr::Number(one())),
        ExprNode::Fluent(used) => Ok(Expr::Fluent(fluent(alloc, numbering, env, used)?)),
        ExprNode::Sum(members) => {
            let mut total = None;
            'terms: for member in members {
                let next = expression(alloc, numbering, env, member)?;
                total = Some(chain(alloc, Sign::Plus, total, next)?);
            }
            Ok(total_or_zero(total))
        }
        ExprNode::Product(members) => {
            let mut total = None;
            'factors: for member in members {
                let next = expression(alloc, numbering, env, member)?;
                total = Some(chain(alloc, Sign::Times, total, next)?);
            }
            Ok(total_or_zero(total))
        }
        ExprNode::Minus(operand) => {
            let operand = expression(alloc, numbering, env, operand)?;
            operate(alloc, Sign::Minus, Expr::Number(zero()), operand)
        }
        ExprNode::Difference(left, right) => {
            let left = expression(alloc, numbering, env, left)?;
            let right = expression(alloc, numbering, env, right)?;
            operate(alloc, Sign::Minus, left, right)
        }
        ExprNode::Quotient(left, right) => {
            let left = expression(alloc, numbering, env, left)?;
            let right = expression(alloc, numbering, env, right)?;
            operate(alloc, Sign::Divide, left, right)
        }
    }
}
