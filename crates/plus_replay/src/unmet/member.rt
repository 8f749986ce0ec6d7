//! The member of a condition that does not hold.

ghost use Rattle.std.specs.Prelude.{◌≡◌, length, not, if◌then◌else◌, Some, None, option_map, IfOk, IfErr, IfSome};
ghost use Rattle.plus_model.specs.Value.{holds as truth_of};
ghost use Rattle.plus_state.specs.View.{condition_of, overflow_of};
ghost use Rattle.plus_state.specs.Fits.{Fits};
ghost use Rattle.plus_state.specs.Asked.{FirstUnfit};
ghost use Rattle.plus_state.specs.Tests.{tests_of};
ghost use Rattle.plus_replay.specs.Member.{first_failing as first_of, IsUntold};

use plus_number::exact::Exact;
use plus_state::{Cond, Overflow, State, holds};

// A condition, where it does not hold.
fn itself<'a, Q: Exact>(
    cond: &'a Cond<Q>,
    state: &State<Q>,
) -> Result<Option<&'a Cond<Q>>, Overflow<Q>>
    requires { Fits (length state.now.atoms) (length state.now.fluents) (condition_of Q.value cond.now) }
    ensures told { IfOk result (λ o. option_map (λ m. condition_of Q.value m.now) o
        ≡ (if truth_of (condition_of Q.value cond.now) state.now then None else Some (condition_of Q.value cond.now))) }
    ensures same { IfOk result (λ o. IfSome o (λ m. m.now ≡ cond.now)) }
    ensures untold { IfErr result (λ w.
        FirstUnfit Q.fits (tests_of (condition_of Q.value cond.now) state.now) (overflow_of Q.value w)) }
{
    match holds(cond, state) {
        Ok(true) => Ok(None),
        Ok(false) => Ok(Some(cond)),
        Err(overflow) => Err(overflow),
    }
}

/// The first member of a condition that does not hold in a state, if there is one: of an `and` a member, or a
/// member of that, and else the condition itself. Or an operation of a member whose result is no value of the type.
pub fn first_failing<'a, Q: Exact>(
    cond: &'a Cond<Q>,
    state: &State<Q>,
) -> Result<Option<&'a Cond<Q>>, Overflow<Q>>
    requires { Fits (length state.now.atoms) (length state.now.fluents) (condition_of Q.value cond.now) }
    ensures first { IfOk result (λ o. option_map (λ m. condition_of Q.value m.now) o
        ≡ first_of (condition_of Q.value cond.now) state.now) }
    ensures fits { IfOk result (λ o. IfSome o (λ m.
        Fits (length state.now.atoms) (length state.now.fluents) (condition_of Q.value m.now))) }
    ensures untold { IfErr result (λ w.
        IsUntold Q.fits (condition_of Q.value cond.now) state.now (overflow_of Q.value w)) }
{
    match cond {
        Cond::All(members) => {
            'members: for member in members {
                match first_failing(member, state) {
                    Ok(Some(found)) => return Ok(Some(found)),
                    Ok(None) => {}
                    Err(overflow) => return Err(overflow),
                }
            }
            Ok(None)
        }
        Cond::Any(_) => itself(cond, state),
        Cond::Atom { .. } => itself(cond, state),
        Cond::Compare { .. } => itself(cond, state),
    }
}
