//! Conditions that ask the same at each moment along rates.
ghost use Rattle.std.specs.Prelude.{◌≡◌, ◌&&◌, length};
ghost use Rattle.plus_state.specs.View.{expression_of, condition_of};
ghost use Rattle.plus_state.specs.Fits.{IsIn};
ghost use Rattle.plus_settle.specs.Still.Simple.{is_still as is_still_in, is_plain as is_plain_in, is_simple as is_simple_in, HaveRates};

use plus_crossing::rates::Rates;
use plus_number::exact::Exact;
use plus_state::evaluation::is_zero;
use plus_state::term::{Cond, Expr};

fn both(x: bool, y: bool) -> bool
    ensures { result ≡ x && y }
{
    x && y
}

// No fluent in the expression moves.
fn is_still<Q: Exact>(expr: &Expr<Q>, rates: &Rates<Q>) -> bool
    requires { IsIn (length rates.now) (expression_of Q.value expr.now) }
    ensures { result ≡ is_still_in (expression_of Q.value expr.now) rates.now }
{
    match expr {
        Expr::Number(_) => true,
        Expr::Fluent(fluent) => is_zero(rates.get(*fluent)),
        Expr::Add(a, b) => both(is_still(a, rates), is_still(b, rates)),
        Expr::Sub(a, b) => both(is_still(a, rates), is_still(b, rates)),
        Expr::Mul(a, b) => both(is_still(a, rates), is_still(b, rates)),
        Expr::Div(a, b) => both(is_still(a, rates), is_still(b, rates)),
    }
}

// It is a number or a fluent, or no fluent in it moves.
fn is_plain<Q: Exact>(expr: &Expr<Q>, rates: &Rates<Q>) -> bool
    requires { IsIn (length rates.now) (expression_of Q.value expr.now) }
    ensures { result ≡ is_plain_in (expression_of Q.value expr.now) rates.now }
{
    match expr {
        Expr::Number(_) => true,
        Expr::Fluent(_) => true,
        Expr::Add(_, _) => is_still(expr, rates),
        Expr::Sub(_, _) => is_still(expr, rates),
        Expr::Mul(_, _) => is_still(expr, rates),
        Expr::Div(_, _) => is_still(expr, rates),
    }
}

/// Whether each side of each comparison of a condition is a number, a fluent, or an expression that
/// reads no fluent that moves. Such a condition asks the same at each moment along the rates.
pub fn is_simple<Q: Exact>(cond: &Cond<Q>, rates: &Rates<Q>) -> bool
    requires { HaveRates (length rates.now) (condition_of Q.value cond.now) }
    ensures { result ≡ is_simple_in (condition_of Q.value cond.now) rates.now }
{
    match cond {
        Cond::All(members) => {
            let mut simple = true;
            'all: for member in members {
                simple = both(simple, is_simple(member, rates));
            }
            simple
        }
        Cond::Any(members) => {
            let mut simple = true;
            'any: for member in members {
                simple = both(simple, is_simple(member, rates));
            }
            simple
        }
        Cond::Atom { .. } => true,
        Cond::Compare { left, right, .. } => both(is_plain(left, rates), is_plain(right, rates)),
    }
}
