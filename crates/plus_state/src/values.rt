//! The values of fluents after writes that stand fluent by fluent.
ghost use Rattle.std.specs.Prelude.{◌≡◌, ◌<◌, ◌++◌, length, map, option_map, Some, IfOk, MatchResult};
ghost use Rattle.plus_model.specs.Value.{fluent_of};
ghost use Rattle.plus_state.specs.Tells.{Tells};
ghost use Rattle.plus_state.specs.Due.{combined, updated as updated_of};
ghost use Rattle.plus_state.specs.Steps.{combined_nodes, updated_nodes};
ghost use Rattle.plus_state.specs.View.{overflow_of};
ghost use Rattle.plus_state.specs.Asked.{AllFit, FirstUnfit};
ghost use Rattle.plus_state.specs.Changes.{patched_list, AreIn, Rises};
ghost use Rattle.plus_state.specs.ChangesView.{fluent_change, fluent_changes};
ghost use Rattle.plus_state.specs.Writes.{Ordered, walk, after, shut, at_open};
ghost use Rattle.plus_state.specs.WritesView.{write_list, StopsValues};

use crate::changes::FluentChange;
use crate::evaluation::calculate;
use crate::states::State;
use crate::term::{AssignOp, FluentId, Overflow, Sign};
use crate::writes::Written;
use plus_number::exact::Exact;
use std::alloc::{AllocError, Global};

/// Why there are no values.
#[derive(Drop)]
pub enum ValuesStop<Q> {
    Number(Overflow<Q>),
    Memory,
}

// The value plus, minus, times or divided by the amount.
#[tactic(auto, using(crate::proofs::AskedLemmas::calculating))]
fn combine<Q: Exact>(sign: Sign, value: Option<Q>, amount: Q) -> Result<Option<Q>, Overflow<Q>>
    ensures { Tells Q.value Q.fits (combined_nodes sign (option_map Q.value value) (Q.value amount))
        (λ o. option_map Q.value o ≡ combined sign (option_map Q.value value) (Q.value amount)) result }
{
    match value {
        None => Ok(None),
        Some(w) => calculate(sign, w, amount),
    }
}

// What a write makes of the value before it.
#[inline(always)]
#[tactic(auto, using(crate::proofs::AskedLemmas::calculating))]
pub fn updated<Q: Exact>(
    op: AssignOp,
    amount: Q,
    value: Option<Q>,
) -> Result<Option<Q>, Overflow<Q>>
    ensures { Tells Q.value Q.fits (updated_nodes op (Q.value amount) (option_map Q.value value))
        (λ o. option_map Q.value o ≡ updated_of op (Q.value amount) (option_map Q.value value)) result }
{
    match op {
        AssignOp::Assign => Ok(Some(amount)),
        AssignOp::Increase => combine(Sign::Plus, value, amount),
        AssignOp::Decrease => combine(Sign::Minus, value, amount),
        AssignOp::ScaleUp => combine(Sign::Times, value, amount),
        AssignOp::ScaleDown => combine(Sign::Divide, value, amount),
    }
}

// The value of a fluent where the change that is open may be one of it.
fn current<Q: Exact>(last: Option<FluentChange<Q>>, fluent: FluentId, state: &State<Q>) -> Option<Q>
    requires { fluent.0 < length state.now.fluents }
    ensures { option_map Q.value result ≡ at_open (option_map (fluent_change Q.value) last) fluent.0 (fluent_of state.now fluent.0) }
{
    match last {
        None => state.fluent(fluent),
        Some(c) => {
            if c.fluent.0 == fluent.0 {
                c.value
            } else {
                state.fluent(fluent)
            }
        }
    }
}

// Ends the change that is open, unless it is one of this fluent.
fn shut<Q: Exact>(
    changes: &mut Vec<FluentChange<Q>>,
    last: Option<FluentChange<Q>>,
    fluent: FluentId,
) -> Result<(), AllocError>
    ensures { IfOk result (λ _. fluent_changes Q.value changes.new.items
        ≡ fluent_changes Q.value changes.old.items ++ shut (option_map (fluent_change Q.value) last) fluent.0) }
{
    match last {
        None => Ok(()),
        Some(c) => {
            if c.fluent.0 != fluent.0 {
                changes.push(c)?;
            }
            Ok(())
        }
    }
}

/// What the writes make of the fluents, or the first node that is no value.
pub fn values<Q: Exact>(
    alloc: Global,
    writes: &[Written<Q>],
    state: &State<Q>,
) -> Result<Vec<FluentChange<Q>>, ValuesStop<Q>>
    requires order { Ordered (write_list Q.value writes.now) }
    requires inside { AreIn (length state.now.fluents) (write_list Q.value writes.now) }
    ensures { MatchResult result (λ c. AllFit Q.fits (walk (write_list Q.value writes.now) state.now.fluents)
        × (patched_list (fluent_changes Q.value c.items) state.now.fluents ≡ after (write_list Q.value writes.now) state.now.fluents)
        × Rises (fluent_changes Q.value c.items)
        × AreIn (length state.now.fluents) (fluent_changes Q.value c.items))
        (StopsValues Q.value Q.fits (walk (write_list Q.value writes.now) state.now.fluents)) }
{
    let mut changes: Vec<FluentChange<Q>> = Vec::new(alloc);
    let mut last: Option<FluentChange<Q>> = None;
    'each: for write in writes {
        let fluent = write.fluent;
        match updated(
            write.update.op,
            write.update.amount,
            current(last, fluent, state),
        ) {
            Err(w) => return Err(ValuesStop::Number(w)),
            Ok(value) => {
                match shut(&mut changes, last, fluent) {
                    Err(_) => return Err(ValuesStop::Memory),
                    Ok(()) => {}
                }
                last = Some(FluentChange { fluent, value });
            }
        }
    }
    match last {
        None => Ok(changes),
        Some(c) => match changes.push(c) {
            Err(_) => Err(ValuesStop::Memory),
            Ok(()) => Ok(changes),
        },
    }
}
