//! A worked row of `plus_stepped`, played by its calls: a tank that overfills in steps of 2.
//! There is no code here beside the tests.

ghost use Rattle.std.specs.Prelude.{◌≡◌, ◌<◌, ◌^◌, [], length, map, All, IfOk};
ghost use Rattle.plus_state.specs.View.{action_of, condition_of, effect_of, event_of, process_of, write_of};
ghost use Rattle.plus_state.specs.Fits.{ActionFits, AllEffectsFit, EventFits, Fits, ProcessFits, StateFits, WriteFits, comparisons};

use plus_number::consts::zero;
use plus_number::exact::Exact;
use plus_number::frac::Frac64;
use plus_state::{
    Action, AtomId, Cond, Effect, Event, Expr, FluentId, Ground, Label, Process, Rate, State, Test,
    Write,
};
use plus_stepped::{StepStop, Stepped};
use plus_words::interval::Interval;
use std::alloc::{AllocError, Global};
use std::test::*;

fn number(n: i64) -> Frac64 {
    Frac64::ratio(n, 1).unwrap_or(zero())
}

// Whether the tank is open, or is not.
fn is_open(positive: bool) -> Cond<Frac64>
    ensures fits { Fits 1 1 (condition_of ⟦<Frac64 as Exact>⟧.value result) }
    ensures few { comparisons (condition_of ⟦<Frac64 as Exact>⟧.value result) < 2 }
{
    Cond::Atom {
        atom: AtomId(0),
        positive,
    }
}

// The comparison of the level with a number.
fn level(test: Test, with: i64) -> Cond<Frac64>
    ensures fits { Fits 1 1 (condition_of ⟦<Frac64 as Exact>⟧.value result) }
    ensures few { comparisons (condition_of ⟦<Frac64 as Exact>⟧.value result) < 2 }
{
    Cond::Compare {
        test,
        left: Expr::Fluent(FluentId(0)),
        right: Expr::Number(number(with)),
        positive: true,
    }
}

// Both conditions.
fn both(
    alloc: Global,
    first: Cond<Frac64>,
    second: Cond<Frac64>,
) -> Result<Cond<Frac64>, AllocError>
    requires first { Fits 1 1 (condition_of ⟦<Frac64 as Exact>⟧.value first) }
    requires second { Fits 1 1 (condition_of ⟦<Frac64 as Exact>⟧.value second) }
    requires few_first { comparisons (condition_of ⟦<Frac64 as Exact>⟧.value first) < 2 }
    requires few_second { comparisons (condition_of ⟦<Frac64 as Exact>⟧.value second) < 2 }
    ensures fits { IfOk result (λ c. Fits 1 1 (condition_of ⟦<Frac64 as Exact>⟧.value c)) }
    ensures few { IfOk result (λ c. comparisons (condition_of ⟦<Frac64 as Exact>⟧.value c) < 2 ^ 32) }
{
    let mut members = Vec::new(alloc);
    members.push(first)?;
    members.push(second)?;
    Ok(Cond::All(members))
}

// One effect, without a condition of its own.
fn writes(alloc: Global, write: Write<Frac64>) -> Result<Vec<Effect<Frac64>>, AllocError>
    requires { WriteFits 1 1 (write_of ⟦<Frac64 as Exact>⟧.value write) }
    ensures { IfOk result (λ es. AllEffectsFit 1 1 (map (effect_of ⟦<Frac64 as Exact>⟧.value) es.items)) }
{
    let mut effects = Vec::new(alloc);
    effects.push(Effect {
        guard: Cond::All(Vec::new(alloc)),
        write,
    })?;
    Ok(effects)
}

// Opens the tank where it is closed.
fn open_valve(alloc: Global) -> Result<Action<Frac64>, AllocError>
    ensures { IfOk result (λ a. ActionFits 1 1 (action_of ⟦<Frac64 as Exact>⟧.value a)) }
{
    Ok(Action {
        label: Label::new(alloc, b"(open-valve)")?,
        condition: is_open(false),
        effects: writes(alloc, Write::Add(AtomId(0)))?,
    })
}

fn fill(alloc: Global) -> Result<Process<Frac64>, AllocError>
    ensures { IfOk result (λ p. ProcessFits 1 1 (process_of ⟦<Frac64 as Exact>⟧.value p)) }
{
    let mut rates = Vec::new(alloc);
    rates.push(Rate {
        fluent: FluentId(0),
        up: true,
        amount: Expr::Number(number(2)),
    })?;
    Ok(Process {
        label: Label::new(alloc, b"(fill)")?,
        condition: is_open(true),
        rates,
    })
}

fn full(alloc: Global) -> Result<Event<Frac64>, AllocError>
    ensures { IfOk result (λ e. EventFits 1 1 (event_of ⟦<Frac64 as Exact>⟧.value e)) }
{
    Ok(Event {
        label: Label::new(alloc, b"(full)")?,
        condition: both(alloc, is_open(true), level(Test::AtLeast, 5))?,
        effects: writes(alloc, Write::Delete(AtomId(0)))?,
    })
}

// The tank is closed, and empty.
fn empty(alloc: Global) -> Result<State<Frac64>, AllocError>
    ensures { IfOk result (λ s. StateFits 1 1 s) }
{
    let mut state = State::new(alloc, 1, 1)?;
    state.give(FluentId(0), Some(zero()));
    Ok(state)
}

// The tank, in which a level is wanted at the end.
fn tank(alloc: Global, wanted: i64) -> Result<Ground<Frac64>, AllocError>
    ensures atoms { IfOk result (λ g. length g.atoms.items ≡ 1) }
    ensures fluents { IfOk result (λ g. length g.fluents.items ≡ 1) }
    ensures timed { IfOk result (λ g. g.timed.items ≡ []) }
{
    let mut atoms = Vec::new(alloc);
    atoms.push(Label::new(alloc, b"(open)")?)?;
    let mut fluents = Vec::new(alloc);
    fluents.push(Label::new(alloc, b"(level)")?)?;
    let mut processes = Vec::new(alloc);
    processes.push(fill(alloc)?)?;
    let mut events = Vec::new(alloc);
    events.push(full(alloc)?)?;
    Ok(Ground {
        atoms,
        fluents,
        processes,
        events,
        timed: Vec::new(alloc),
        initial: empty(alloc)?,
        goal: level(Test::Equal, wanted),
    })
}

// The level after so many steps, which begin with the tank's opening, and whether the wanted level is reached.
fn filled(
    alloc: Global,
    ground: &Ground<Frac64>,
    interval: Interval,
    steps: u32,
) -> Result<(Option<(i64, i64)>, bool), StepStop<Frac64>>
    requires atoms { length ground.now.atoms.items ≡ 1 }
    requires fluents { length ground.now.fluents.items ≡ 1 }
    requires timed { ground.now.timed.items ≡ [] }
{
    let mut plan = Stepped::begin(alloc, ground, interval.value)?;
    plan.act(ground, &open_valve(alloc)?)?;
    for _step in 0..steps {
        plan.tick(ground)?;
    }
    let level = plan.state().fluent(FluentId(0)).map(|value| value.parts());
    Ok((level, plan.goal(ground).is_ok()))
}

// In steps of 2 the level goes to 8, where the tank is closed, and not to 5, where it would be closed in time that flows.
#[test]
fn a_tank_that_overfills(rt: HostRuntime) -> Result<(), Fail> {
    let alloc = rt.alloc();
    let interval = Interval::parse("2").ok_or("an interval")?;
    let ground = tank(alloc, 8)?;
    let rows = [(0, 0, false), (1, 4, false), (2, 8, true), (3, 8, true)];
    for (steps, wanted, reached) in rows {
        let (level, is_reached) = filled(alloc, &ground, interval, steps)
            .ok()
            .ok_or("a plan")?;
        assert_eq!(&rt; level, Some((wanted, 1)), "after {steps}");
        assert_eq!(&rt; is_reached, reached, "after {steps}");
    }
    Ok(())
}
