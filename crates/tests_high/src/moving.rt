//! A world that moves: a tank that an event closes, with a valve that a timetable opens, a cascade without an end and a
//! ramp whose event has no first moment.

use crate::runs::{CHECK, Row, expect_rows, status_of};
use plus_io::{QuietShelf, QuietSink};
use plus_report::Status;
use std::alloc::Global;
use std::test::Fail;

const TANK: &str = "(define (domain tank) (:predicates (open)) (:functions (level))
 (:action open-valve :precondition (not (open)) :effect (open))
 (:process fill :precondition (open) :effect (increase (level) (* #t 2)))
 (:event full :precondition (and (open) (>= (level) 5)) :effect (not (open))))";

const EMPTY: &str =
    "(define (problem e) (:domain tank) (:init (= (level) 0)) (:goal (and (not (open)) (>= (level) 5))))";

const FILLED: &str = "1: (open-valve)\n10: @end\n";

const FILLED_REPORT: &str =
    "at 0\n  run\nat 1\n  act (open-valve)\n    + (open)\n  run (fill)\nat 7/2\n  (level) = 5\n  events (full)\n    - (open)\n  run\nat 10\nvalid\n";

const TIMETABLE: &str =
    "(define (problem t) (:domain tank) (:init (= (level) 0) (at 3 (not (open))) (at 2 (open))) (:goal (>= (level) 2)))";

const RING: &str = "(define (domain ring) (:predicates (a) (b))
 (:event there :precondition (a) :effect (and (not (a)) (b)))
 (:event back :precondition (b) :effect (and (not (b)) (a))))";

const RUNG: &str = "(define (problem r) (:domain ring) (:init (a)) (:goal ()))";

const RAMP: &str = "(define (domain ramp) (:functions (x))
 (:process up :effect (increase (x) #t)) (:event over :precondition (> (x) 5)))";

const LOW: &str = "(define (problem l) (:domain ramp) (:init (= (x) 0)) (:goal ()))";

static ROWS: [Row; 4] = [
    (TANK, EMPTY, FILLED, Status::Valid, FILLED_REPORT),
    (
        TANK,
        TIMETABLE,
        "4: @end\n",
        Status::Valid,
        "at 0\n  run\nat 2\n  literals\n    + (open)\n  run (fill)\nat 3\n  (level) = 2\n  literals\n    - (open)\n  run\nat 4\nvalid\n",
    ),
    (
        RING,
        RUNG,
        "1: @end\n",
        Status::Invalid,
        "at 0\n  events (there)\n    - (a)\n    + (b)\n  events (back)\n    - (b)\n    + (a)\ninvalid: (there) repeats\n",
    ),
    (
        RAMP,
        LOW,
        "8: @end\n",
        Status::Invalid,
        "at 0\n  run (up)\ninvalid: (over) has no first moment at 5\n",
    ),
];

#[test]
fn moving_worlds(rt: HostRuntime) -> Result<(), Fail> {
    expect_rows(&rt, &CHECK, &ROWS)
}

// The files of the tank on a shelf that tells nothing and never fails.
fn quiet_shelf(alloc: Global) -> Result<QuietShelf, Fail> {
    let mut shelf = QuietShelf::new(alloc);
    shelf.put("d", TANK.as_bytes())?;
    shelf.put("p", EMPTY.as_bytes())?;
    shelf.put("l", FILLED.as_bytes())?;
    Ok(shelf)
}

// The tank over a shelf and a sink that tell nothing and never fail.
#[test]
fn in_silence(rt: HostRuntime) -> Result<(), Fail> {
    let mut shelf = quiet_shelf(rt.alloc())?;
    let mut out = QuietSink::new();
    let answer = status_of(rt.alloc(), &CHECK, &mut shelf, &mut out)?;
    assert_eq!(rt; answer, Status::Valid);
    assert_eq!(rt; out.count(), FILLED_REPORT.len() as u64);
    Ok(())
}
