//! Rows of `plan`.

use crate::runs::{Files, USAGE, expect_check, expect_words};
use plus_report::Status;
use std::test::Fail;

const TANK: &str =
    "(define (domain tank)\n (:predicates (open))\n (:functions (level))\n (:action open-valve :parameters () :precondition (not (open)) :effect (open))\n (:process fill :parameters () :precondition (open) :effect (increase (level) (* #t 2)))\n (:event full :parameters () :precondition (and (open) (>= (level) 5)) :effect (not (open))))\n";

const TANK1: &str =
    "(define (problem tank1) (:domain tank) (:init (= (level) 0)) (:goal (and (not (open)) (>= (level) 5))))\n";

// The tank with a lock that nothing locks.
const LOCKED: &str =
    "(define (domain tank)\n (:predicates (open) (locked))\n (:functions (level))\n (:action open-valve :parameters () :precondition (not (open)) :effect (open))\n (:process fill :parameters () :precondition (open) :effect (increase (level) (* #t 2)))\n (:event full :parameters () :precondition (and (open) (>= (level) 5)) :effect (not (open))))\n";

const LOCKED1: &str =
    "(define (problem tank1) (:domain tank) (:init (= (level) 0)) (:goal (locked)))\n";

// The tank that nobody opens, and a timetable that does.
const CLOSED: &str =
    "(define (domain tank)\n (:predicates (open))\n (:functions (level))\n (:process fill :parameters () :precondition (open) :effect (increase (level) (* #t 2)))\n (:event full :parameters () :precondition (and (open) (>= (level) 5)) :effect (not (open))))\n";

const TIMETABLE: &str =
    "(define (problem tq) (:domain tank) (:init (= (level) 0) (at 2 (open)) (at 3 (not (open)))) (:goal (>= (level) 2)))\n";

// A row: the words behind `plan`, the domain, the problem, the status and what is written.
#[derive(Clone, Copy)]
struct Row {
    interval: &'static str,
    decisions: &'static str,
    tries: &'static str,
    domain: &'static str,
    problem: &'static str,
    status: Status,
    output: &'static str,
}

static ROWS: [Row; 12] = [
    Row {
        interval: "1",
        decisions: "2",
        tries: "1000",
        domain: TANK,
        problem: TANK1,
        status: Status::Invalid,
        output: "none: 2 decisions, 0 beyond\n",
    },
    Row {
        interval: "1",
        decisions: "4",
        tries: "1000",
        domain: TANK,
        problem: TANK1,
        status: Status::Valid,
        output: "0: (open-valve)\n3: @end\n",
    },
    Row {
        interval: "1",
        decisions: "4",
        tries: "1",
        domain: TANK,
        problem: TANK1,
        status: Status::Beyond,
        output: "spent: 1 tried\n",
    },
    Row {
        interval: "1",
        decisions: "4",
        tries: "1",
        domain: LOCKED,
        problem: LOCKED1,
        status: Status::Beyond,
        output: "spent: 1 tried\n",
    },
    Row {
        interval: "1",
        decisions: "3",
        tries: "100",
        domain: CLOSED,
        problem: TIMETABLE,
        status: Status::Valid,
        output: "3: @end\n",
    },
    Row {
        interval: "1",
        decisions: "2",
        tries: "100",
        domain: CLOSED,
        problem: TIMETABLE,
        status: Status::Invalid,
        output: "none: 2 decisions, 0 beyond\n",
    },
    // After the valve was opened the event comes at 5/2, and what is left of the wait is no number. Two waits are none either.
    Row {
        interval: "9223372036854775807",
        decisions: "2",
        tries: "100",
        domain: TANK,
        problem: TANK1,
        status: Status::Invalid,
        output: "none: 2 decisions, 2 beyond\n",
    },
    // Times off the whole numbers.
    Row {
        interval: "1/2",
        decisions: "6",
        tries: "10000",
        domain: TANK,
        problem: TANK1,
        status: Status::Valid,
        output: "0: (open-valve)\n5/2: @end\n",
    },
    // The goal holds at the beginning.
    Row {
        interval: "1",
        decisions: "0",
        tries: "1",
        domain: TANK,
        problem: "(define (problem q) (:domain tank) (:init (= (level) 0)) (:goal (not (open))))\n",
        status: Status::Valid,
        output: "0: @end\n",
    },
    // An action has a literal that is no number of the program: 1/10^9 and 2^63 - 1 do not go together.
    Row {
        interval: "1",
        decisions: "1",
        tries: "1",
        domain: "(define (domain d) (:functions (x)) (:action a :parameters () :effect (assign (x) 9223372036854775807.000000001)))\n",
        problem: "(define (problem q) (:domain d) (:init (= (x) 0)) (:goal (and)))\n",
        status: Status::Beyond,
        output: "beyond: literal in domain 82-111\n",
    },
    Row {
        interval: "1",
        decisions: "65",
        tries: "1",
        domain: TANK,
        problem: TANK1,
        status: Status::Usage,
        output: USAGE,
    },
    Row {
        interval: "0",
        decisions: "1",
        tries: "1",
        domain: TANK,
        problem: TANK1,
        status: Status::Usage,
        output: USAGE,
    },
];

#[test]
fn rows_of_plan(rt: HostRuntime) -> Result<(), Fail> {
    for row in &ROWS {
        let files = Files {
            domain: row.domain,
            problem: row.problem,
            plan: "",
        };
        let words = ["plan", row.interval, row.decisions, row.tries, "d", "p"];
        expect_words(&rt, &words, files, row.status, row.output)?;
    }
    Ok(())
}

// Words behind `plan` with `--cut`: the tries of 4 decisions, the domain, the problem, the status and what is written.
static CUT_ROWS: [(&str, &str, &str, Status, &str); 3] = [
    (
        "1",
        LOCKED,
        LOCKED1,
        Status::Invalid,
        "none: 4 decisions, 0 beyond\n",
    ),
    (
        "1000",
        TANK,
        TANK1,
        Status::Valid,
        "0: (open-valve)\n3: @end\n",
    ),
    ("1", TANK, TANK1, Status::Beyond, "spent: 1 tried\n"),
];

#[test]
fn rows_of_plan_with_the_cut(rt: HostRuntime) -> Result<(), Fail> {
    for &(tries, domain, problem, status, output) in &CUT_ROWS {
        let files = Files {
            domain,
            problem,
            plan: "",
        };
        let words = ["plan", "1", "4", tries, "d", "p", "--cut"];
        expect_words(&rt, &words, files, status, output)?;
    }
    Ok(())
}

// `check` accepts what `plan` writes.
#[test]
fn check_accepts_a_plan(rt: HostRuntime) -> Result<(), Fail> {
    let files = Files {
        domain: TANK,
        problem: TANK1,
        plan: "0: (open-valve)\n3: @end\n",
    };
    let output =
        "at 0\n  act (open-valve)\n    + (open)\n  run (fill)\nat 5/2\n  (level) = 5\n  events (full)\n    - (open)\n  run\nat 3\nvalid\n";
    expect_check(&rt, files, Status::Valid, output)
}
