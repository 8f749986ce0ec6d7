//! Plans without time: what is beyond them, an action whose effects read the state before it, the translation of a tank, and what a
//! refused line leaves unread.

use crate::runs::{Files, Row, expect_rows, expect_run, shelf_of};
use plus_io::{MemShelf, MemSink};
use plus_report::Status;
use std::alloc::Global;
use std::test::Fail;

const NUMERIC: [&str; 4] = ["numeric", "d", "p", "l"];

const GOAL: &str = "(define (problem q) (:domain d) (:init) (:goal (and)))";

const MIX: &str =
    "(define (domain d) (:functions (x) (y)) (:action mix :effect (and (assign (x) (/ (y) 4)) (scale-up (y) (x)))))";

const MIXED: &str =
    "(define (problem q) (:domain d) (:init (= (x) 0.5) (= (y) 3)) (:goal (and (= (x) 0.75) (= (y) 1.5))))";

const TANK: &str =
    "(define (domain tank)\n (:requirements :adl :fluents)\n (:predicates (open) (pp-f1))\n (:functions (level))\n (:action open-valve :parameters () :precondition (and (not (open)) (not (and (open) (>= (level) 5)))) :effect (and (open) (not (pp-f1))))\n (:action pp-step :parameters () :precondition (and (not (and (open) (>= (level) 5)))) :effect (and (when (open) (increase (level) (* (/ 1 2) 2))) (not (pp-f1))))\n (:action pp-fire :parameters () :precondition (and (or (and (open) (>= (level) 5))) (not (and (and (open) (>= (level) 5)) (pp-f1)))) :effect (and (when (and (open) (>= (level) 5)) (not (open))) (when (and (open) (>= (level) 5)) (pp-f1))))\n)\n";

const FILLED: &str =
    "(define (problem tank1)\n (:domain tank)\n (:init (= (level) 0))\n (:goal (and (and (not (open)) (>= (level) 5)) (not (and (open) (>= (level) 5)))))\n)\n";

const FIVE_STEPS: &str =
    "(open-valve)\n(pp-step)\n(pp-step)\n(pp-step)\n(pp-step)\n(pp-step)\n(pp-fire)\n";

static ROWS: [Row; 12] = [
    (
        "(define (domain d) (:event e))",
        GOAL,
        "",
        Status::BadText,
        "bad text: domain 27-28: not level two\n",
    ),
    (
        "(define (domain d) (:event e) (:process p))",
        GOAL,
        "",
        Status::BadText,
        "bad text: domain 40-41: not level two\n",
    ),
    (
        "(define (domain d) (:predicates (p)))",
        "(define (problem q) (:domain d) (:init (at 2 (p))) (:goal (and)))",
        "",
        Status::BadText,
        "bad text: problem 43-44: not level two\n",
    ),
    (MIX, MIXED, "(mix)\n", Status::Valid, "valid\n"),
    (
        MIX,
        MIXED,
        "(mix)\n(mix)\n",
        Status::Invalid,
        "invalid: goal\n",
    ),
    (
        MIX,
        MIXED,
        "\n(shut)\n",
        Status::Invalid,
        "invalid: line 2: unknown action shut\n",
    ),
    (
        MIX,
        MIXED,
        "(mix a)",
        Status::Invalid,
        "invalid: line 1: wrong arguments of mix\n",
    ),
    (
        MIX,
        MIXED,
        "(mix)\n1: (mix)\n",
        Status::BadText,
        "bad text: plan line 2, bytes 0-1\n",
    ),
    (TANK, FILLED, FIVE_STEPS, Status::Valid, "valid\n"),
    (
        TANK,
        FILLED,
        "(open-valve)\n(pp-step)\n(pp-step)\n(pp-step)\n(pp-step)\n(pp-step)\n",
        Status::Invalid,
        "invalid: goal\n",
    ),
    (
        TANK,
        FILLED,
        "(open-valve)\n(open-valve)\n",
        Status::Invalid,
        "invalid: line 2: precondition of (open-valve)\n",
    ),
    (
        "(define (domain d) (:functions (x)) (:action up :effect (increase (x) 1)))",
        "(define (problem q) (:domain d) (:init (= (x) 9223372036854775807)) (:goal (and)))",
        "(up)\n",
        Status::Beyond,
        "beyond: number 9223372036854775807 + 1\n",
    ),
];

#[test]
fn plans_without_time(rt: HostRuntime) -> Result<(), Fail> {
    expect_rows(&rt, &NUMERIC, &ROWS)
}

// A shelf with the files that reads byte by byte.
fn bytewise(alloc: Global, files: Files<'_>) -> Result<MemShelf, Fail> {
    let mut shelf = shelf_of(alloc, files)?;
    shelf.pieces(1);
    Ok(shelf)
}

#[test]
fn plans_without_time_byte_by_byte(rt: HostRuntime) -> Result<(), Fail> {
    for &(domain, problem, plan, status, output) in &ROWS {
        let files = Files {
            domain,
            problem,
            plan,
        };
        let mut shelf = bytewise(rt.alloc(), files)?;
        let mut out = MemSink::new(rt.alloc(), 64);
        expect_run(&rt, &NUMERIC, &mut shelf, &mut out, status, output)?;
    }
    Ok(())
}

// A read that fails leaves nothing written; a line that is refused before it is told.
#[test]
fn a_read_that_fails(rt: HostRuntime) -> Result<(), Fail> {
    for (plan, call, status, output) in [
        ("(mix)\n", 4, Status::ReadFault, ""),
        (
            "(shut)\n(mix)\n",
            9,
            Status::Invalid,
            "invalid: line 1: unknown action shut\n",
        ),
    ] {
        let files = Files {
            domain: MIX,
            problem: MIXED,
            plan,
        };
        let mut shelf = bytewise(rt.alloc(), files)?;
        shelf.fail("l", call)?;
        let mut out = MemSink::new(rt.alloc(), 64);
        expect_run(&rt, &NUMERIC, &mut shelf, &mut out, status, output)?;
    }
    Ok(())
}
