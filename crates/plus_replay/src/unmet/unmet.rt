//! What is not met in a state.

ghost use Rattle.std.specs.Prelude.{length};
ghost use Rattle.plus_state.specs.View.{condition_of, expression_of};
ghost use Rattle.plus_state.specs.Fits.{Fits, IsIn};

use crate::unmet::member::first_failing;
use crate::unmet::text::{append_condition, append_fraction, append_opening};
use plus_number::exact::Exact;
use plus_state::{Cond, Expr, Ground, State, Test, value};
use std::alloc::AllocError;

// Appends the value of an expression in a state, or that it has none.
fn append_value<Q: Exact>(
    into: &mut Vec<u8>,
    expr: &Expr<Q>,
    state: &State<Q>,
) -> Result<(), AllocError>
    requires { IsIn (length state.now.fluents) (expression_of Q.value expr.now) }
{
    match value(expr, state) {
        Ok(Some(x)) => append_fraction(into, x),
        _ => into.extend_from_slice(b"none"),
    }
}

// Appends a comparison once more, with the values of its sides.
fn append_values<Q: Exact>(
    into: &mut Vec<u8>,
    test: Test,
    left: &Expr<Q>,
    right: &Expr<Q>,
    state: &State<Q>,
) -> Result<(), AllocError>
    requires left { IsIn (length state.now.fluents) (expression_of Q.value left.now) }
    requires right { IsIn (length state.now.fluents) (expression_of Q.value right.now) }
{
    into.extend_from_slice(b", where it is ")?;
    append_opening(into, test)?;
    append_value(into, left, state)?;
    into.push(b' ')?;
    append_value(into, right, state)?;
    into.push(b')')?;
    Ok(())
}

/// Appends the first member of a condition that does not hold in a state, in its canonical form, and of a comparison
/// the values of its sides too. It appends nothing where all hold, or where that is beyond the numbers of the program.
pub fn append_failing<Q: Exact>(
    into: &mut Vec<u8>,
    cond: &Cond<Q>,
    state: &State<Q>,
    ground: &Ground<Q>,
) -> Result<(), AllocError>
    requires { Fits (length state.now.atoms) (length state.now.fluents) (condition_of Q.value cond.now) }
{
    let Ok(Some(member)) = first_failing(cond, state) else {
        return Ok(());
    };
    into.extend_from_slice(b"does not hold: ")?;
    append_condition(into, member, ground)?;
    if let Cond::Compare {
        test,
        left,
        right,
        ..
    } = member
    {
        append_values(into, *test, left, right, state)?;
    }
    into.push(b'\n')?;
    Ok(())
}
