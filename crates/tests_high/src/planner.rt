//! Tests of the planner. They stand here, above what they test, since a crate with tests is proved twice.

// A small world: (x) is 0 and rises by 1 in each unit of time while it is below 9. What is wanted can be taken
// where (x) is 2 or more. From 1 on (burst) can be done, and its sum is no number.
ghost use Rattle.std.specs.Prelude.{◌≡◌, ◌<◌, ◌≤◌, ◌^◌, length, All};
ghost use Rattle.plus_state.specs.View.{condition_of, effect_of, action_of, process_of};
ghost use Rattle.plus_state.specs.Fits.{Fits, EffectFits, ActionFits, ProcessFits, StateFits, comparisons};

use plus_number::consts::{one, zero};
use plus_number::exact::Exact;
use plus_number::frac::Frac64;
use plus_planner::{Answer, Guide, Planner};
use plus_state::{
    Action, AtomId, Cond, Effect, Expr, FluentId, Ground, Label, Process, Rate, State, Test, Write,
};
use std::alloc::Global;
use std::mem::forget;
use std::process::Abort;
use std::test::*;

// A guide that answers the same of every state.
#[derive(Clone, Copy)]
struct Constant(u64);

impl Guide<Frac64> for Constant {
    fn number(&self, _problem: &Ground<Frac64>, _state: &State<Frac64>) -> u64 {
        self.0
    }
}

fn number(n: i64) -> Frac64 {
    Frac64::ratio(n, 1).unwrap_or(zero())
}

fn compare(test: Test, with: i64) -> Cond<Frac64>
    ensures fits { Fits 1 1 (condition_of ⟦<Frac64 as Exact>⟧.value result) }
    ensures few { comparisons (condition_of ⟦<Frac64 as Exact>⟧.value result) < 2 ^ 32 }
{
    Cond::Compare {
        test,
        left: Expr::Fluent(FluentId(0)),
        right: Expr::Number(number(with)),
        positive: true,
    }
}

fn rising<R: Abort>(rt: &R, alloc: Global) -> Process<Frac64>
    ensures { ProcessFits 1 1 (process_of ⟦<Frac64 as Exact>⟧.value result) }
{
    let mut rates = Vec::new(alloc);
    rates
        .push(Rate {
            fluent: FluentId(0),
            up: true,
            amount: Expr::Number(one()),
        })
        .expect(rt, "memory");
    Process {
        label: Label::new(alloc, b"(rise)").expect(rt, "memory"),
        condition: compare(Test::Less, 9),
        rates,
    }
}

fn initial<R: Abort>(rt: &R, alloc: Global) -> State<Frac64>
    ensures { StateFits 1 1 result }
{
    let mut state = State::new(alloc, 1, 1).expect(rt, "memory");
    state.give(FluentId(0), Some(zero()));
    state
}

fn problem<R: Abort>(rt: &R, alloc: Global) -> Ground<Frac64>
    ensures atoms { length result.atoms.items ≡ 1 }
    ensures fluents { length result.fluents.items ≡ 1 }
{
    let mut atoms = Vec::new(alloc);
    atoms
        .push(Label::new(alloc, b"(taken)").expect(rt, "memory"))
        .expect(rt, "memory");
    let mut fluents = Vec::new(alloc);
    fluents
        .push(Label::new(alloc, b"(x)").expect(rt, "memory"))
        .expect(rt, "memory");
    let mut processes = Vec::new(alloc);
    processes.push(rising(rt, alloc)).expect(rt, "memory");
    Ground {
        atoms,
        fluents,
        processes,
        events: Vec::new(alloc),
        timed: Vec::new(alloc),
        initial: initial(rt, alloc),
        goal: Cond::Atom {
            atom: AtomId(0),
            positive: true,
        },
    }
}

// An action with one effect.
fn action<R: Abort>(
    rt: &R,
    alloc: Global,
    label: &[u8],
    condition: Cond<Frac64>,
    effect: Effect<Frac64>,
) -> Action<Frac64>
    requires condition { Fits 1 1 (condition_of ⟦<Frac64 as Exact>⟧.value condition) }
    requires effect { EffectFits 1 1 (effect_of ⟦<Frac64 as Exact>⟧.value effect) }
    ensures { ActionFits 1 1 (action_of ⟦<Frac64 as Exact>⟧.value result) }
{
    let mut effects = Vec::new(alloc);
    effects.push(effect).expect(rt, "memory");
    Action {
        label: Label::new(alloc, label).expect(rt, "memory"),
        condition,
        effects,
    }
}

fn actions<R: Abort>(rt: &R, alloc: Global) -> Vec<Action<Frac64>>
    ensures few { length result.items ≡ 2 }
    ensures fit { All (λ a. ActionFits 1 1 (action_of ⟦<Frac64 as Exact>⟧.value a)) result.items }
{
    let take = Effect {
        guard: compare(Test::AtLeast, 0),
        write: Write::Add(AtomId(0)),
    };
    let burst = Effect {
        guard: compare(Test::AtLeast, 0),
        write: Write::Increase(FluentId(0), Expr::Number(number(i64::MAX))),
    };
    let mut actions = Vec::new(alloc);
    actions
        .push(action(rt, alloc, b"(take)", compare(Test::AtLeast, 2), take))
        .expect(rt, "memory");
    actions
        .push(action(rt, alloc, b"(burst)", compare(Test::AtLeast, 1), burst))
        .expect(rt, "memory");
    actions
}

// What a search comes to, as numbers: how many actions a plan has, and its end.
#[derive(Clone, Copy, PartialEq, Eq, Debug)]
enum Told {
    Plan(usize, (i64, i64)),
    NoPlan(u64),
    Spent(u64),
}

fn tells<R: Abort>(rt: &R, alloc: Global, guide: u64, decisions: u32, tries: u64) -> Told
    requires few { decisions ≤ 64 }
    requires tries { tries < u64.MAX }
{
    let planner = Planner::new(
        alloc,
        problem(rt, alloc),
        actions(rt, alloc),
        one(),
        Constant(guide),
    );
    let answer = planner.search(decisions, tries).expect(rt, "memory");
    forget(planner);
    match answer {
        Answer::Plan(plan) => {
            let told = Told::Plan(plan.acts.len(), plan.end.parts());
            forget(plan);
            told
        }
        Answer::NoPlan { beyond } => Told::NoPlan(beyond),
        Answer::Spent { tried } => Told::Spent(tried),
    }
}

// The one list of two decisions that ends in a limit is a wait and (burst). A plan waits twice, and at three places each
// of three decisions is tried: nine tries suffice for it. Whatever number a guide has for all states, it is the same.
#[test]
fn guides_that_say_nothing(rt: HostRuntime) {
    let alloc = rt.alloc();
    for guide in [0, 7, u64::MAX] {
        assert_eq!(rt; tells(&rt, alloc, guide, 2, 1000), Told::NoPlan(1));
        assert_eq!(rt; tells(&rt, alloc, guide, 3, 9), Told::Plan(1, (2, 1)));
        assert_eq!(rt; tells(&rt, alloc, guide, 3, 8), Told::Spent(8));
    }
}
