//! Writes that are due: what an effect of a joint effect comes to in the state before it.
ghost use Rattle.std.specs.Prelude.{◌≡◌, ◌<◌, length, option_map, Some, [], ◌∷◌};
ghost use Rattle.plus_model.specs.Value.{value as value_of, fluent_of};
ghost use Rattle.plus_state.specs.View.{expression_of, write_of, effect_of};
ghost use Rattle.plus_state.specs.Fits.{IsIn, WriteFits, EffectFits};
ghost use Rattle.plus_state.specs.Due.{due_write, due_effect, updates};
ghost use Rattle.plus_state.specs.Steps.{need, amount_steps, write_steps, effect_steps};
ghost use Rattle.plus_state.specs.Stops.{Does, due_of, as_list};

use crate::evaluation::{is_zero, value};
use crate::states::State;
use crate::term::{AssignOp, AtomId, Effect, Expr, FluentId, Overflow, Write};
use crate::truth::holds;
use plus_number::exact::Exact;
use std::fmt::Debug;
use thiserror::Error;

/// A change of a fluent by an evaluated amount.
#[derive(Clone, Copy)]
pub struct Update<Q> {
    pub op: AssignOp,
    pub amount: Q,
}

/// A write that is due.
#[derive(Drop)]
pub enum Due<Q> {
    /// The atom becomes true, or false.
    Put(AtomId, bool),
    Set(FluentId, Update<Q>),
}

/// Why an effect has no write that is due.
#[derive(Debug, Drop, Error)]
#[error_bound(Q: Debug)]
pub enum WriteStop<Q> {
    #[error("a write on fluent {} lacks a value", .0.0)]
    NoValue(FluentId),
    #[error(transparent)]
    Number(Overflow<Q>),
}

// The amount of a write on a fluent.
#[tactic(auto, using(crate::proofs::StepsLemmas::stepping))]
fn amount<Q: Exact>(fluent: FluentId, expr: &Expr<Q>, state: &State<Q>) -> Result<Q, WriteStop<Q>>
    requires { IsIn (length (state.now.fluents)) (expression_of Q.value expr.now) }
    ensures { Does Q.value Q.fits (amount_steps fluent.0 (expression_of Q.value expr.now) state.now)
        (λ x. Some (Q.value x) ≡ value_of (expression_of Q.value expr.now) state.now) result }
{
    match value(expr, state) {
        Ok(Some(x)) => Ok(x),
        Ok(None) => Err(WriteStop::NoValue(fluent)),
        Err(w) => Err(WriteStop::Number(w)),
    }
}

// The present value of a fluent that a write needs.
#[tactic(auto, using(crate::proofs::StepsLemmas::stepping))]
fn present<Q: Exact>(fluent: FluentId, state: &State<Q>) -> Result<Q, WriteStop<Q>>
    requires { fluent.0 < length (state.now.fluents) }
    ensures { Does Q.value Q.fits (need fluent.0 (fluent_of state.now fluent.0))
        (λ x. Some (Q.value x) ≡ fluent_of state.now fluent.0) result }
{
    match state.fluent(fluent) {
        Some(x) => Ok(x),
        None => Err(WriteStop::NoValue(fluent)),
    }
}

fn set<Q: Exact>(fluent: FluentId, op: AssignOp, amount: Q) -> Due<Q>
    ensures { due_of Q.value result ≡ updates fluent.0 (record { op = op; amount = Q.value amount }) }
{
    Due::Set(fluent, Update { op, amount })
}

// The write that is due, or what stops it.
#[inline(always)]
#[tactic(auto, using(crate::proofs::StepsLemmas::stepping))]
pub fn write_due<Q: Exact>(write: &Write<Q>, state: &State<Q>) -> Result<Due<Q>, WriteStop<Q>>
    requires { WriteFits (length (state.now.atoms)) (length (state.now.fluents)) (write_of Q.value write.now) }
    ensures { Does Q.value Q.fits (write_steps (write_of Q.value write.now) state.now)
        (λ d. due_of Q.value d ∷ [] ≡ due_write (write_of Q.value write.now) state.now) result }
{
    match write {
        Write::Add(a) => Ok(Due::Put(*a, true)),
        Write::Delete(a) => Ok(Due::Put(*a, false)),
        Write::Assign(f, e) => {
            let x = amount(*f, e, state)?;
            Ok(set(*f, AssignOp::Assign, x))
        }
        Write::Increase(f, e) => {
            let x = amount(*f, e, state)?;
            let _present = present(*f, state)?;
            Ok(set(*f, AssignOp::Increase, x))
        }
        Write::Decrease(f, e) => {
            let x = amount(*f, e, state)?;
            let _present = present(*f, state)?;
            Ok(set(*f, AssignOp::Decrease, x))
        }
        Write::ScaleUp(f, e) => {
            let x = amount(*f, e, state)?;
            let _present = present(*f, state)?;
            Ok(set(*f, AssignOp::ScaleUp, x))
        }
        Write::ScaleDown(f, e) => {
            let x = amount(*f, e, state)?;
            let _present = present(*f, state)?;
            if is_zero(x) {
                return Err(WriteStop::NoValue(*f));
            }
            Ok(set(*f, AssignOp::ScaleDown, x))
        }
    }
}

// The write that is due by an effect, if its guard holds, or what stops it.
#[inline(always)]
#[tactic(auto, using(crate::proofs::StepsLemmas::guarding))]
pub fn effect_due<Q: Exact>(
    effect: &Effect<Q>,
    state: &State<Q>,
) -> Result<Option<Due<Q>>, WriteStop<Q>>
    requires { EffectFits (length (state.now.atoms)) (length (state.now.fluents)) (effect_of Q.value effect.now) }
    ensures { Does Q.value Q.fits (effect_steps (effect_of Q.value effect.now) state.now)
        (λ d. as_list (option_map (due_of Q.value) d) ≡ due_effect (effect_of Q.value effect.now) state.now) result }
{
    match holds(&effect.guard, state) {
        Err(w) => Err(WriteStop::Number(w)),
        Ok(false) => Ok(None),
        Ok(true) => Ok(Some(write_due(&effect.write, state)?)),
    }
}
