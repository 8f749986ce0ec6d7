//! The lines of a timed plan.
ghost use Rattle.std.specs.Prelude.{◌≡◌, ◌++◌, codes};
ghost use Rattle.std.specs.List.{flat_map};
ghost use Rattle.plus_report.specs.Puts.{Puts};
ghost use Rattle.plus_report.specs.Wrote.{Wrote};
ghost use Rattle.plus_report.specs.Text.{newline, fraction_text};
ghost use Rattle.plus_report.specs.Plans.{acts_of, act_line, end_line, plan_text};

use crate::put::{Waiting, flush, put, put_fraction, put_three};
use plus_io::{Failed, Sink};
use plus_number::exact::Exact;
use plus_state::{Label, TimedPlan};

// The line of an action.
fn put_act<Q: Exact, O: Sink>(
    out: &mut O,
    waiting: &mut Waiting,
    time: Q,
    label: &[u8],
) -> Result<(), Failed>
    ensures { Puts O.taken O.faults out.old out.new waiting.old.items waiting.new.items
        (act_line (Q.value time, label.now)) result }
{
    put_fraction(out, waiting, time)?;
    put_three(out, waiting, b": ", label, b"\n")
}

// The lines of the actions.
fn put_acts<Q: Exact, O: Sink>(
    out: &mut O,
    waiting: &mut Waiting,
    acts: &[(Q, Label)],
) -> Result<(), Failed>
    ensures { Puts O.taken O.faults out.old out.new waiting.old.items waiting.new.items
        (flat_map act_line (acts_of Q.value acts.now)) result }
{
    'each: for act in acts {
        put_act(out, waiting, act.0, act.1.bytes())?;
    }
    Ok(())
}

// The line of the end.
fn put_last<Q: Exact, O: Sink>(out: &mut O, waiting: &mut Waiting, end: Q) -> Result<(), Failed>
    ensures { Puts O.taken O.faults out.old out.new waiting.old.items waiting.new.items
        (end_line (Q.value end)) result }
{
    put_fraction(out, waiting, end)?;
    put(out, waiting, b": @end\n")
}

/// Writes a timed plan: a line for each action with its time, and one for the end.
pub fn write_plan<Q: Exact, O: Sink>(out: &mut O, plan: &TimedPlan<Q>) -> Result<(), Failed>
    ensures { Wrote O.taken O.faults out.old out.new
        (plan_text (acts_of Q.value plan.now.acts.items) (Q.value plan.now.«end»)) result }
{
    let mut waiting = Waiting::new();
    put_acts(out, &mut waiting, &plan.acts)?;
    put_last(out, &mut waiting, plan.end)?;
    flush(out, &mut waiting)
}
