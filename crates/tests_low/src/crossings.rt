//! Outside vectors, with one fluent (x) at the value and rate given.
ghost use Rattle.std.specs.Prelude.{◌≡◌, ◌<◌, ◌^◌, ◌<ℤ◌, length, pos, IfOk};
ghost use Rattle.plus_fraction.specs.Fraction.{whole, ◌≤ℚ◌};
ghost use Rattle.plus_state.specs.View.{condition_of, expression_of};
ghost use Rattle.plus_state.specs.Fits.{Fits, IsIn, comparisons};

use plus_crossing::{
    CondStop, PieceStop, Rates, just_after, moved, moved_changes, next_crossing, piece,
};
use plus_number::consts::{one, zero};
use plus_number::exact::Exact;
use plus_number::frac::Frac64;
use plus_state::changes::{Changes, FluentChange};
use plus_state::{Cond, Expr, FluentId, State, Test};
use std::alloc::{AllocError, Global};
use std::cmp::Ordering;
use std::test::*;

fn fraction(n: i64, d: i64) -> Frac64
    requires { pos 0 <ℤ d }
{
    Frac64::ratio(n, d).unwrap_or(zero())
}

// A state with one fluent, which is (x), and its rate.
#[derive(Drop)]
struct World {
    state: State<Frac64>,
    rates: Rates<Frac64>,
}

// The world in which (x) has this value, and moves at this rate.
fn moving(alloc: Global, value: Frac64, rate: i64) -> Result<World, AllocError>
    ensures atoms { IfOk result (λ w. length w.state.atoms ≡ 0) }
    ensures fluents { IfOk result (λ w. length w.state.fluents ≡ 1) }
    ensures rates { IfOk result (λ w. length w.rates ≡ 1) }
{
    let mut rates = Rates::zero(alloc, 1);
    rates.set(FluentId(0), fraction(rate, 1))?;
    let mut state = State::new(alloc, 0, 1)?;
    state.give(FluentId(0), Some(value));
    Ok(World { state, rates })
}

fn x() -> Expr<Frac64>
    ensures { IsIn 1 (expression_of ⟦<Frac64 as Exact>⟧.value result) }
{
    Expr::Fluent(FluentId(0))
}

fn number(n: i64) -> Expr<Frac64>
    ensures { IsIn 1 (expression_of ⟦<Frac64 as Exact>⟧.value result) }
{
    Expr::Number(fraction(n, 1))
}

fn product(alloc: Global, a: Expr<Frac64>, b: Expr<Frac64>) -> Result<Expr<Frac64>, AllocError>
    requires a { IsIn 1 (expression_of ⟦<Frac64 as Exact>⟧.value a) }
    requires b { IsIn 1 (expression_of ⟦<Frac64 as Exact>⟧.value b) }
    ensures { IfOk result (λ e. IsIn 1 (expression_of ⟦<Frac64 as Exact>⟧.value e)) }
{
    Ok(Expr::Mul(Box::new(alloc, a)?, Box::new(alloc, b)?))
}

fn sum(alloc: Global, a: Expr<Frac64>, b: Expr<Frac64>) -> Result<Expr<Frac64>, AllocError>
    requires a { IsIn 1 (expression_of ⟦<Frac64 as Exact>⟧.value a) }
    requires b { IsIn 1 (expression_of ⟦<Frac64 as Exact>⟧.value b) }
    ensures { IfOk result (λ e. IsIn 1 (expression_of ⟦<Frac64 as Exact>⟧.value e)) }
{
    Ok(Expr::Add(Box::new(alloc, a)?, Box::new(alloc, b)?))
}

fn compare(test: Test, left: Expr<Frac64>, right: Expr<Frac64>, positive: bool) -> Cond<Frac64>
    requires left { IsIn 1 (expression_of ⟦<Frac64 as Exact>⟧.value left) }
    requires right { IsIn 1 (expression_of ⟦<Frac64 as Exact>⟧.value right) }
    ensures fits { Fits 0 1 (condition_of ⟦<Frac64 as Exact>⟧.value result) }
    ensures few { comparisons (condition_of ⟦<Frac64 as Exact>⟧.value result) < 2 ^ 32 }
{
    Cond::Compare {
        test,
        left,
        right,
        positive,
    }
}

// 1/3.
fn third() -> Frac64
    ensures { whole (pos 0) ≤ℚ ⟦<Frac64 as Exact>⟧.value result }
{
    let third = fraction(1, 3);
    let none: Frac64 = zero();
    match none.order(third) {
        Ordering::Less => third,
        _ => none,
    }
}

// The parts of a root, if there is one.
fn parts_of(root: Result<Option<Frac64>, CondStop<Frac64>>) -> Result<Option<(i64, i64)>, Fail> {
    match root {
        Err(_) => Err(Fail::new("refused")),
        Ok(None) => Ok(None),
        Ok(Some(root)) => Ok(Some(root.parts())),
    }
}

// The root of a comparison between two moments, where (x) has the value 0 and moves at this rate.
fn root_between(
    alloc: Global,
    cond: &Cond<Frac64>,
    rate: i64,
    after: Frac64,
    until: i64,
) -> Result<Option<(i64, i64)>, Fail>
    requires cond { Fits 0 1 (condition_of ⟦<Frac64 as Exact>⟧.value cond.now) }
    requires few { comparisons (condition_of ⟦<Frac64 as Exact>⟧.value cond.now) < 2 ^ 32 }
    requires after { whole (pos 0) ≤ℚ ⟦<Frac64 as Exact>⟧.value after }
{
    let world = moving(alloc, zero(), rate)?;
    parts_of(next_crossing(cond, &world.state, &world.rates, after, fraction(until, 1)))
}

// When (x) reaches 1 after a moment and not after 1, from 0 at the rate 3.
fn reaches_one(alloc: Global, after: Frac64) -> Result<Option<(i64, i64)>, Fail>
    requires { whole (pos 0) ≤ℚ ⟦<Frac64 as Exact>⟧.value after }
{
    let cond = compare(Test::AtLeast, x(), number(1), true);
    root_between(alloc, &cond, 3, after, 1)
}

#[test]
fn a_root_is_met_once(rt: HostRuntime) -> Result<(), Fail> {
    assert_eq!(rt; reaches_one(rt.alloc(), zero())?, Some((1, 3)));
    assert_eq!(rt; reaches_one(rt.alloc(), third())?, None);
    Ok(())
}

// The condition that twice (x) is (x) and 5.
fn meets(alloc: Global) -> Result<Cond<Frac64>, AllocError>
    ensures fits { IfOk result (λ c. Fits 0 1 (condition_of ⟦<Frac64 as Exact>⟧.value c)) }
    ensures few { IfOk result (λ c. comparisons (condition_of ⟦<Frac64 as Exact>⟧.value c) < 2 ^ 32) }
{
    let twice = product(alloc, number(2), x())?;
    let more = sum(alloc, x(), number(5))?;
    Ok(compare(Test::Equal, twice, more, true))
}

#[test]
fn both_sides_move(rt: HostRuntime) -> Result<(), Fail> {
    let meets = meets(rt.alloc())?;
    let root = root_between(rt.alloc(), &meets, 1, zero(), 8)?;
    assert_eq!(rt; root, Some((5, 1)));
    Ok(())
}

// Whether (x) compares so with 5 just after, where it has the value 5 and moves at this rate; none where it is refused.
fn holds_after_five(
    alloc: Global,
    test: Test,
    positive: bool,
    rate: i64,
) -> Result<Option<bool>, Fail> {
    let world = moving(alloc, fraction(5, 1), rate)?;
    let cond = compare(test, x(), number(5), positive);
    Ok(just_after(&cond, &world.state, &world.rates).ok())
}

#[test]
fn a_limit_is_left(rt: HostRuntime) -> Result<(), Fail> {
    // the comparison with 5, whether it is positive, the rate, whether it holds just after
    for (test, positive, rate, holds) in [
        (Test::AtMost, true, 1, false),
        (Test::AtMost, true, 0, true),
        (Test::AtLeast, false, -1, true),
    ] {
        let after = holds_after_five(rt.alloc(), test, positive, rate)?;
        assert_eq!(rt; after, Some(holds));
    }
    Ok(())
}

// The value and the slope of the square of (x), where (x) is 2 and moves at this rate; none where it is no line.
fn square_from_two(alloc: Global, rate: i64) -> Result<Option<((i64, i64), (i64, i64))>, Fail> {
    let square = product(alloc, x(), x())?;
    let world = moving(alloc, fraction(2, 1), rate)?;
    match piece(&square, &world.state, &world.rates) {
        Ok(Some(line)) => Ok(Some((line.value.parts(), line.slope.parts()))),
        Err(PieceStop::Nonlinear) => Ok(None),
        _ => Err(Fail::new("refused")),
    }
}

#[test]
fn a_square_is_no_line_while_it_moves(rt: HostRuntime) -> Result<(), Fail> {
    assert_eq!(rt; square_from_two(rt.alloc(), 1)?, None);
    assert_eq!(rt; square_from_two(rt.alloc(), 0)?, Some(((4, 1), (0, 1))));
    Ok(())
}

// The value of (x).
fn value_of(state: &State<Frac64>) -> Option<(i64, i64)>
    requires { length state.now.fluents ≡ 1 }
{
    match state.fluent(FluentId(0)) {
        None => None,
        Some(value) => Some(value.parts()),
    }
}

// The value that (x) has, from 0, after so much time at this rate.
fn moved_from_zero(alloc: Global, rate: i64, delay: Frac64) -> Result<Option<(i64, i64)>, Fail> {
    let world = moving(alloc, zero(), rate)?;
    match &moved(alloc, &world.state, &world.rates, delay) {
        Err(_) => Err(Fail::new("refused")),
        Ok(later) => Ok(value_of(later)),
    }
}

#[test]
fn a_value_moves(rt: HostRuntime) -> Result<(), Fail> {
    let value = moved_from_zero(rt.alloc(), 2, fraction(5, 2))?;
    assert_eq!(rt; value, Some((5, 1)));
    Ok(())
}

// The rates of four fluents: the last is given one first, then the first, and the second one that is 0.
fn rates_of_four(alloc: Global) -> Result<Rates<Frac64>, AllocError>
    ensures { IfOk result (λ r. length r ≡ 4) }
{
    let mut rates = Rates::zero(alloc, 4);
    rates.set(FluentId(3), fraction(1, 2))?;
    rates.set(FluentId(0), fraction(7, 1))?;
    rates.set(FluentId(3), fraction(3, 2))?;
    rates.set(FluentId(1), zero())?;
    Ok(rates)
}

#[test]
fn those_that_move(rt: HostRuntime) -> Result<(), Fail> {
    let rates = rates_of_four(rt.alloc())?;
    let mut moving = Vec::new(rt.alloc());
    rates.moving_into(&mut moving)?;
    assert_eq!(rt; moving.as_slice(), [FluentId(0), FluentId(3)].as_slice());
    assert!(rt; rates.moves_just(&moving));
    assert!(rt; !rates.moves_just(&moving[1..]) && !rates.moves_just(&moving[..1]));
    Ok(())
}

// Changes that are needed no more.
fn used_changes(alloc: Global) -> Result<Changes<Frac64>, Fail> {
    let mut changes = Changes::none(alloc);
    changes.fluents.push(FluentChange {
        fluent: FluentId(2),
        value: Some(one()),
    })?;
    Ok(changes)
}

// What these rates change in two units of time, where the last of the fluents alone has a value. The changes stand in
// place of others.
fn changes_of_four(alloc: Global) -> Result<Changes<Frac64>, Fail> {
    let rates = rates_of_four(alloc)?;
    let mut state = State::new(alloc, 0, 4)?;
    state.give(FluentId(3), Some(one()));
    let mut changes = used_changes(alloc)?;
    match moved_changes(&state, &rates, fraction(2, 1), &mut changes) {
        Err(_) => Err(Fail::new("refused")),
        Ok(()) => Ok(changes),
    }
}

// The fluent of the change at a place, and its new value.
fn change_at(changes: &Changes<Frac64>, at: usize) -> Option<(FluentId, Option<(i64, i64)>)> {
    let change = changes.fluents.get(at)?;
    match change.value {
        None => Some((change.fluent, None)),
        Some(value) => Some((change.fluent, Some(value.parts()))),
    }
}

#[test]
fn those_that_move_are_changed(rt: HostRuntime) -> Result<(), Fail> {
    let changes = changes_of_four(rt.alloc())?;
    assert_eq!(rt; change_at(&changes, 0), Some((FluentId(0), None)));
    assert_eq!(rt; change_at(&changes, 1), Some((FluentId(3), Some((4, 1)))));
    assert_eq!(rt; change_at(&changes, 2), None);
    Ok(())
}
