//! The printed texts, and what a fault leaves of one.
ghost use Rattle.std.specs.Prelude.{◌≡◌, ◌<◌, ◌^◌, ◌<ℤ◌, pos, IfOk, length, All};
ghost use Rattle.plus_model.specs.Terms.{Problem};
ghost use Rattle.plus_state.specs.View.{condition_of, event_of, process_of, problem_of};
ghost use Rattle.plus_state.specs.Fits.{Fits, EventFits, ProcessFits, StateFits, comparisons};
ghost use Rattle.plus_report.specs.Verdicts.{VerdictFits};

use plus_io::{Failed, MemSink};
use plus_number::consts::zero;
use plus_number::exact::Exact;
use plus_number::frac::Frac64;
use plus_report::{Early, Kinds, Text, Verdict, Word, write_early, write_verdict};
use plus_state::{
    Breach, Cond, Event, EventId, FluentId, Ground, Label, Limit, Overflow, Owner, Process,
    ProcessId, Sign, State,
};
use std::alloc::{AllocError, Global};
use std::test::Fail;

fn fraction(n: i64, d: i64) -> Frac64
    requires { pos 0 <ℤ d }
{
    Frac64::ratio(n, d).unwrap_or(zero())
}

// A condition that always holds.
fn always(alloc: Global) -> Cond<Frac64>
    ensures fits { Fits 2 1 (condition_of ⟦<Frac64 as Exact>⟧.value result) }
    ensures few { comparisons (condition_of ⟦<Frac64 as Exact>⟧.value result) ≡ 0 }
{
    Cond::All(Vec::new(alloc))
}

fn process(alloc: Global) -> Result<Process<Frac64>, AllocError>
    ensures { IfOk result (λ p. ProcessFits 2 1 (process_of ⟦<Frac64 as Exact>⟧.value p)) }
{
    Ok(Process {
        label: Label::new(alloc, b"(fill)")?,
        condition: always(alloc),
        rates: Vec::new(alloc),
    })
}

fn event(alloc: Global) -> Result<Event<Frac64>, AllocError>
    ensures { IfOk result (λ e. EventFits 2 1 (event_of ⟦<Frac64 as Exact>⟧.value e)) }
{
    Ok(Event {
        label: Label::new(alloc, b"(full)")?,
        condition: always(alloc),
        effects: Vec::new(alloc),
    })
}

fn initial(alloc: Global) -> Result<State<Frac64>, AllocError>
    ensures { IfOk result (λ s. StateFits 2 1 s) }
{
    Ok(State::new(alloc, 2, 1)?)
}

// A ground problem with two atoms and one fluent.
fn ground(
    alloc: Global,
    processes: Vec<Process<Frac64>>,
    events: Vec<Event<Frac64>>,
) -> Result<Ground<Frac64>, AllocError>
    requires processes_fit { All (λ p. ProcessFits 2 1 (process_of ⟦<Frac64 as Exact>⟧.value p)) processes.items }
    requires events_fit { All (λ e. EventFits 2 1 (event_of ⟦<Frac64 as Exact>⟧.value e)) events.items }
    requires few_processes { length processes.items < 2 ^ 32 }
    requires few_events { length events.items < 2 ^ 32 }
    ensures fluents { IfOk result (λ g. length g.fluents.items ≡ 1) }
    ensures processes { IfOk result (λ g. length g.processes.items ≡ length processes.items) }
    ensures events { IfOk result (λ g. length g.events.items ≡ length events.items) }
{
    let mut atoms = Vec::new(alloc);
    atoms.push(Label::new(alloc, b"(open)")?)?;
    atoms.push(Label::new(alloc, b"(shut)")?)?;
    let mut fluents = Vec::new(alloc);
    fluents.push(Label::new(alloc, b"(level)")?)?;
    Ok(Ground {
        atoms,
        fluents,
        processes,
        events,
        timed: Vec::new(alloc),
        initial: initial(alloc)?,
        goal: always(alloc),
    })
}

// a ground problem with two atoms, and one fluent, event and process
fn tank(alloc: Global) -> Result<Ground<Frac64>, AllocError>
    ensures fluents { IfOk result (λ g. length g.fluents.items ≡ 1) }
    ensures processes { IfOk result (λ g. length g.processes.items ≡ 1) }
    ensures events { IfOk result (λ g. length g.events.items ≡ 1) }
{
    let mut processes = Vec::new(alloc);
    processes.push(process(alloc)?)?;
    let mut events = Vec::new(alloc);
    events.push(event(alloc)?)?;
    Ok(ground(alloc, processes, events)?)
}

static REFUSALS: [(Early, &str); 8] = [
    (
        Early::BadLine {
            line: 1,
            start: 14,
            end: 14,
        },
        "bad text: plan line 1, bytes 14-14\n",
    ),
    (
        Early::TooLong {
            text: Text::TranslatedProblem,
        },
        "beyond: translated problem text over 1048576 bytes\n",
    ),
    (
        Early::Depth {
            text: Text::Domain,
            at: 700,
        },
        "beyond: depth 64 in domain at 700\n",
    ),
    (Early::DepthOut, "beyond: depth 64 in translation\n"),
    (
        Early::LineTooLong { line: 3 },
        "beyond: line 3 over 4096 bytes\n",
    ),
    (
        Early::Literal {
            text: Text::Problem,
            start: 46,
            end: 65,
        },
        "beyond: literal in problem 46-65\n",
    ),
    (
        Early::BadText {
            text: Text::Problem,
            start: 18,
            end: 20,
            word: Word::Twice,
        },
        "bad text: problem 18-20: twice\n",
    ),
    (
        Early::TooMany {
            kind: Kinds::Objects,
            most: 1000000,
        },
        "beyond: more than 1000000 objects\n",
    ),
];

#[test]
fn each_form_of_refusal_has_its_line(rt: HostRuntime) -> Result<(), Fail> {
    let alloc = rt.alloc();
    for (early, line) in &REFUSALS {
        let mut out = MemSink::new(alloc, 8);
        assert_eq!(rt; write_early(&mut out, early), Ok(()));
        assert_eq!(rt; out.bytes(), line.as_bytes());
    }
    Ok(())
}

// Whether a verdict on the tank is written as this line.
fn writes(alloc: Global, verdict: Verdict<Frac64>, line: &str) -> Result<bool, Fail>
    requires { (P : Problem) → P.fluents ≡ 1 → length P.processes ≡ 1 → length P.events ≡ 1 → VerdictFits P verdict }
{
    let ground = tank(alloc)?;
    let mut out = MemSink::new(alloc, 8);
    Ok(write_verdict(&mut out, &ground, &verdict).is_ok() && out.bytes() == line.as_bytes())
}

#[test]
fn a_breach_has_its_line(rt: HostRuntime) -> Result<(), Fail> {
    let alloc = rt.alloc();
    let name = Label::new(alloc, b"shut")?;
    let unknown = Verdict::Invalid(Breach::UnknownAction { line: 1, name });
    assert!(rt; writes(alloc, unknown, "invalid: line 1: unknown action shut\n")?);
    let label = Label::new(alloc, b"(shut)")?;
    let early = Verdict::Invalid(Breach::Precondition { line: 10, label });
    assert!(rt; writes(alloc, early, "invalid: line 10: precondition of (shut)\n")?);
    let goal = Verdict::Invalid(Breach::Goal);
    assert!(rt; writes(alloc, goal, "invalid: goal\n")?);
    Ok(())
}

#[test]
fn a_breach_of_a_ground_thing_has_its_line(rt: HostRuntime) -> Result<(), Fail> {
    let alloc = rt.alloc();
    let fluent = FluentId(0);
    let process = ProcessId(0);
    let event = EventId(0);
    let conflict = Verdict::Invalid(Breach::Conflict { fluent });
    assert!(rt; writes(alloc, conflict, "invalid: conflict on (level)\n")?);
    let coupled = Verdict::Invalid(Breach::Coupled { process, fluent });
    assert!(rt; writes(alloc, coupled, "invalid: (fill) reads moving (level)\n")?);
    let time = fraction(-7, 2);
    let late = Verdict::Invalid(Breach::NoFirstMoment { event, time });
    assert!(rt; writes(alloc, late, "invalid: (full) has no first moment at -7/2\n")?);
    Ok(())
}

#[test]
fn a_number_has_its_line(rt: HostRuntime) -> Result<(), Fail> {
    let left = fraction(1, 9223372036854775806);
    let right = fraction(9223372036854775807, 1);
    for (sign, line) in [
        (
            Sign::Plus,
            "beyond: number 1/9223372036854775806 + 9223372036854775807\n",
        ),
        (
            Sign::Divide,
            "beyond: number 1/9223372036854775806 / 9223372036854775807\n",
        ),
    ] {
        let number = Verdict::Beyond(Limit::Number(Overflow { sign, left, right }));
        assert!(rt; writes(rt.alloc(), number, line)?);
    }
    Ok(())
}

#[test]
fn a_limit_has_its_line(rt: HostRuntime) -> Result<(), Fail> {
    let alloc = rt.alloc();
    let event = Verdict::Beyond(Limit::Nonlinear {
        owner: Owner::Event(EventId(0)),
        comparison: 1,
    });
    assert!(rt; writes(alloc, event, "beyond: nonlinear in (full), comparison 1\n")?);
    assert!(rt; writes(alloc, Verdict::Valid, "valid\n")?);
    let out = Verdict::Other(Early::DepthOut);
    assert!(rt; writes(alloc, out, "beyond: depth 64 in translation\n")?);
    Ok(())
}

#[test]
fn a_fault_leaves_the_bytes_before_it(rt: HostRuntime) -> Result<(), Fail> {
    let alloc = rt.alloc();
    // the write that fails, and what comes before it
    for (call, before) in [(1, ""), (2, "beyond: "), (4, "beyond: depth 64 in tran")] {
        let mut out = MemSink::new(alloc, 8);
        out.fail(call)?;
        assert_eq!(rt; write_early(&mut out, &Early::DepthOut), Err(Failed));
        assert_eq!(rt; out.bytes(), before.as_bytes());
    }
    Ok(())
}

// An action that may not be done, whose label has 600 bytes.
fn unmet(alloc: Global) -> Result<Verdict<Frac64>, Fail>
    ensures { IfOk result (λ verdict. (P : Problem) → VerdictFits P verdict) }
{
    let bytes = vec![in alloc; b'a'; 600]?;
    let label = Label::new(alloc, &bytes)?;
    Ok(Verdict::Invalid(Breach::Precondition { line: 1, label }))
}

// How that is written over a sink that takes 100 bytes at once, and how many it has then.
fn written_of_unmet(alloc: Global) -> Result<(Result<(), Failed>, usize), Fail> {
    let unmet = unmet(alloc)?;
    let ground = tank(alloc)?;
    let mut out = MemSink::new(alloc, 100);
    let done = write_verdict(&mut out, &ground, &unmet);
    Ok((done, out.bytes().len()))
}

#[test]
fn a_long_label_is_written_whole(rt: HostRuntime) -> Result<(), Fail> {
    assert_eq!(rt; written_of_unmet(rt.alloc())?, (Ok(()), 634));
    Ok(())
}
