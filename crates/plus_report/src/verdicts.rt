//! Verdicts on a plan, and the line of each.
ghost use Rattle.std.specs.Prelude.{◌≡◌, ◌<◌, ◌++◌, codes, decimal, length};
ghost use Rattle.plus_state.specs.View.{labels_of, problem_of};
ghost use Rattle.plus_report.specs.Puts.{Puts};
ghost use Rattle.plus_report.specs.Wrote.{Wrote};
ghost use Rattle.plus_report.specs.Text.{newline, fraction_text};
ghost use Rattle.plus_report.specs.Verdicts.{sign_text, operation_text, line_text, breach_text, owner_label, limit_text, verdict_text, OwnerFits, BreachFits, LimitFits, VerdictFits};

use crate::labels::{event_label_of, fluent_label, process_label_of};
use crate::put::{
    Waiting, flush, put, put_end, put_fraction, put_fraction_end, put_numbered, put_three,
};
use crate::refusals::{Early, put_early};
use plus_io::{Failed, Sink};
use plus_number::exact::Exact;
use plus_state::{Breach, EventId, FluentId, Ground, Limit, Overflow, Owner, ProcessId, Sign};

/// What is said of a plan in the end.
#[derive(Drop)]
pub enum Verdict<Q> {
    /// The plan has a trajectory that reaches the goal.
    Valid,
    /// The plan breaks a rule.
    Invalid(Breach<Q>),
    /// A limit of the program is reached before the plan can be judged.
    Beyond(Limit<Q>),
    /// A text, a line or the grounding is refused.
    Other(Early),
}

fn sign_of(sign: Sign) -> &'static [u8]
    ensures { result.now ≡ sign_text sign }
{
    match sign {
        Sign::Plus => b" + ",
        Sign::Minus => b" - ",
        Sign::Times => b" * ",
        Sign::Divide => b" / ",
    }
}

/// Puts an operation that gives no value of the number type, as `A + B`, and the end of its line.
pub fn put_operation<Q: Exact, O: Sink>(
    out: &mut O,
    waiting: &mut Waiting,
    operation: &Overflow<Q>,
) -> Result<(), Failed>
    ensures { Puts O.taken O.faults out.old out.new waiting.old.items waiting.new.items
        (operation_text Q.value operation.now) result }
{
    put_fraction(out, waiting, operation.left)?;
    put(out, waiting, sign_of(operation.sign))?;
    put_fraction_end(out, waiting, operation.right)
}

fn put_of_line<O: Sink>(
    out: &mut O,
    waiting: &mut Waiting,
    line: u32,
    what: &[u8],
    whose: &[u8],
) -> Result<(), Failed>
    ensures { Puts O.taken O.faults out.old out.new waiting.old.items waiting.new.items
        (line_text line what.now whose.now) result }
{
    put_numbered(out, waiting, b"invalid: line ", line as u64, what)?;
    put_end(out, waiting, whose)
}

fn put_coupled<Q: Exact, O: Sink>(
    out: &mut O,
    waiting: &mut Waiting,
    ground: &Ground<Q>,
    process: ProcessId,
    fluent: FluentId,
) -> Result<(), Failed>
    requires process { process.0 < length ground.now.processes.items }
    requires fluent { fluent.0 < length ground.now.fluents.items }
    ensures { Puts O.taken O.faults out.old out.new waiting.old.items waiting.new.items
        (breach_text Q.value (labels_of ground.now) (problem_of Q.value ground.now)
        (Breach.Coupled process fluent)) result }
{
    put_three(
        out,
        waiting,
        b"invalid: ",
        process_label_of(ground, process),
        b" reads moving ",
    )?;
    put_end(out, waiting, fluent_label(ground, fluent))
}

fn put_no_first_moment<Q: Exact, O: Sink>(
    out: &mut O,
    waiting: &mut Waiting,
    ground: &Ground<Q>,
    event: EventId,
    time: Q,
) -> Result<(), Failed>
    requires { event.0 < length ground.now.events.items }
    ensures { Puts O.taken O.faults out.old out.new waiting.old.items waiting.new.items
        (breach_text Q.value (labels_of ground.now) (problem_of Q.value ground.now)
        (Breach.NoFirstMoment event time)) result }
{
    put_three(
        out,
        waiting,
        b"invalid: ",
        event_label_of(ground, event),
        b" has no first moment at ",
    )?;
    put_fraction_end(out, waiting, time)
}

fn put_breach<Q: Exact, O: Sink>(
    out: &mut O,
    waiting: &mut Waiting,
    ground: &Ground<Q>,
    breach: &Breach<Q>,
) -> Result<(), Failed>
    requires { BreachFits (problem_of Q.value ground.now) breach.now }
    ensures { Puts O.taken O.faults out.old out.new waiting.old.items waiting.new.items
        (breach_text Q.value (labels_of ground.now) (problem_of Q.value ground.now) breach.now)
        result }
{
    match breach {
        Breach::UnknownAction { line, name } => put_of_line(
            out,
            waiting,
            *line,
            b": unknown action ",
            name.bytes(),
        ),
        Breach::WrongArguments { line, name } => put_of_line(
            out,
            waiting,
            *line,
            b": wrong arguments of ",
            name.bytes(),
        ),
        Breach::Precondition { line, label } => put_of_line(
            out,
            waiting,
            *line,
            b": precondition of ",
            label.bytes(),
        ),
        Breach::TimeGoesBack { line } => put_of_line(out, waiting, *line, b": time goes back", b""),
        Breach::AfterEnd { line } => put_of_line(out, waiting, *line, b": after the end", b""),
        Breach::Conflict { fluent } => put_three(
            out,
            waiting,
            b"invalid: conflict on ",
            fluent_label(ground, *fluent),
            b"\n",
        ),
        Breach::NoValue { fluent } => put_three(
            out,
            waiting,
            b"invalid: no value for ",
            fluent_label(ground, *fluent),
            b"\n",
        ),
        Breach::Repeats { event } => put_three(
            out,
            waiting,
            b"invalid: ",
            event_label_of(ground, *event),
            b" repeats\n",
        ),
        Breach::Unsettled { process } => put_three(
            out,
            waiting,
            b"invalid: ",
            process_label_of(ground, *process),
            b" is unsettled\n",
        ),
        Breach::Coupled { process, fluent } => put_coupled(out, waiting, ground, *process, *fluent),
        Breach::NoFirstMoment { event, time } => put_no_first_moment(
            out, waiting, ground, *event, *time,
        ),
        Breach::Goal => put(out, waiting, b"invalid: goal\n"),
    }
}

fn owner_of<Q: Exact>(ground: &Ground<Q>, owner: Owner) -> &[u8]
    requires { OwnerFits (problem_of Q.value ground.now) owner }
    ensures { result.now ≡ owner_label (problem_of Q.value ground.now) owner }
{
    match owner {
        Owner::Event(event) => event_label_of(ground, event),
        Owner::Process(process) => process_label_of(ground, process),
    }
}

fn put_nonlinear<Q: Exact, O: Sink>(
    out: &mut O,
    waiting: &mut Waiting,
    ground: &Ground<Q>,
    owner: Owner,
    comparison: u32,
) -> Result<(), Failed>
    requires { OwnerFits (problem_of Q.value ground.now) owner }
    ensures { Puts O.taken O.faults out.old out.new waiting.old.items waiting.new.items
        (limit_text Q.value (problem_of Q.value ground.now) (Limit.Nonlinear owner comparison))
        result }
{
    put_three(
        out,
        waiting,
        b"beyond: nonlinear in ",
        owner_of(ground, owner),
        b", comparison ",
    )?;
    put_numbered(out, waiting, b"", comparison as u64, b"\n")
}

fn put_number<Q: Exact, O: Sink>(
    out: &mut O,
    waiting: &mut Waiting,
    operation: &Overflow<Q>,
) -> Result<(), Failed>
    ensures { Puts O.taken O.faults out.old out.new waiting.old.items waiting.new.items
        (codes "beyond: number " ++ operation_text Q.value operation.now) result }
{
    put(out, waiting, b"beyond: number ")?;
    put_operation(out, waiting, operation)
}

fn put_limit<Q: Exact, O: Sink>(
    out: &mut O,
    waiting: &mut Waiting,
    ground: &Ground<Q>,
    limit: &Limit<Q>,
) -> Result<(), Failed>
    requires { LimitFits (problem_of Q.value ground.now) limit.now }
    ensures { Puts O.taken O.faults out.old out.new waiting.old.items waiting.new.items
        (limit_text Q.value (problem_of Q.value ground.now) limit.now) result }
{
    match limit {
        Limit::Happenings(count) => put_numbered(
            out,
            waiting,
            b"beyond: happenings ",
            *count,
            b"\n",
        ),
        Limit::Number(operation) => put_number(out, waiting, operation),
        Limit::Nonlinear { owner, comparison } => put_nonlinear(
            out,
            waiting,
            ground,
            *owner,
            *comparison,
        ),
    }
}

fn put_verdict<Q: Exact, O: Sink>(
    out: &mut O,
    waiting: &mut Waiting,
    ground: &Ground<Q>,
    verdict: &Verdict<Q>,
) -> Result<(), Failed>
    requires { VerdictFits (problem_of Q.value ground.now) verdict.now }
    ensures { Puts O.taken O.faults out.old out.new waiting.old.items waiting.new.items
        (verdict_text Q.value (labels_of ground.now) (problem_of Q.value ground.now) verdict.now)
        result }
{
    match verdict {
        Verdict::Valid => put(out, waiting, b"valid\n"),
        Verdict::Invalid(breach) => put_breach(out, waiting, ground, breach),
        Verdict::Beyond(limit) => put_limit(out, waiting, ground, limit),
        Verdict::Other(early) => put_early(out, waiting, early),
    }
}

/// Writes the line of a verdict.
pub fn write_verdict<Q: Exact, O: Sink>(
    out: &mut O,
    ground: &Ground<Q>,
    verdict: &Verdict<Q>,
) -> Result<(), Failed>
    requires { VerdictFits (problem_of Q.value ground.now) verdict.now }
    ensures { Wrote O.taken O.faults out.old out.new
        (verdict_text Q.value (labels_of ground.now) (problem_of Q.value ground.now) verdict.now)
        result }
{
    let mut waiting = Waiting::new();
    put_verdict(out, &mut waiting, ground, verdict)?;
    flush(out, &mut waiting)
}
