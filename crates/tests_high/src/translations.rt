//! Rows of `translate`.

use crate::runs::{Files, expect_words};
use plus_report::Status;
use std::test::Fail;

const TANK: &str =
    "(define (domain tank)\n (:predicates (open))\n (:functions (level))\n (:action open-valve :parameters () :precondition (not (open)) :effect (open))\n (:process fill :parameters () :precondition (open) :effect (increase (level) (* #t 2)))\n (:event full :parameters () :precondition (and (open) (>= (level) 5)) :effect (not (open))))\n";

// An event whose condition has 60 forms, each in the one before it.
const DEEP: &str =
    "(define (domain d) (:predicates (p)) (:event e :precondition (not (not (not (not (not (not (not (not (not (not (not (not (not (not (not (not (not (not (not (not (not (not (not (not (not (not (not (not (not (not (not (not (not (not (not (not (not (not (not (not (not (not (not (not (not (not (not (not (not (not (not (not (not (not (not (not (not (not (not (p)))))))))))))))))))))))))))))))))))))))))))))))))))))))))))) :effect (p)))";

// A row: the half, the length of a step, the domain, the problem, the status and what is written.
#[derive(Clone, Copy)]
struct Row {
    half: &'static str,
    interval: &'static str,
    domain: &'static str,
    problem: &'static str,
    status: Status,
    output: &'static str,
}

static ROWS: [Row; 8] = [
    Row {
        half: "domain",
        interval: "1/2",
        domain: TANK,
        problem: "(define (problem tank1) (:domain tank) (:init (= (level) 0)) (:goal (and (not (open)) (>= (level) 5))))\n",
        status: Status::Valid,
        output: "(define (domain tank)\n (:requirements :adl :fluents)\n (:predicates (open) (pp-f1))\n (:functions (level))\n (:action open-valve :parameters () :precondition (and (not (open)) (not (and (open) (>= (level) 5)))) :effect (and (open) (not (pp-f1))))\n (:action pp-step :parameters () :precondition (and (not (and (open) (>= (level) 5)))) :effect (and (when (open) (increase (level) (* (/ 1 2) 2))) (not (pp-f1))))\n (:action pp-fire :parameters () :precondition (and (or (and (open) (>= (level) 5))) (not (and (and (open) (>= (level) 5)) (pp-f1)))) :effect (and (when (and (open) (>= (level) 5)) (not (open))) (when (and (open) (>= (level) 5)) (pp-f1))))\n)\n",
    },
    Row {
        half: "problem",
        interval: "1/2",
        domain: TANK,
        problem: "(define (problem tank1) (:domain tank) (:init (= (level) 0)) (:goal (and (not (open)) (>= (level) 5))))\n",
        status: Status::Valid,
        output: "(define (problem tank1)\n (:domain tank)\n (:init (= (level) 0))\n (:goal (and (and (not (open)) (>= (level) 5)) (not (and (open) (>= (level) 5)))))\n)\n",
    },
    Row {
        half: "domain",
        interval: "1",
        domain: "(define (domain d) (:predicates (pp-x)))",
        problem: "(define (problem q) (:domain d) (:init) (:goal (and)))",
        status: Status::BadText,
        output: "bad text: domain 33-37: name taken\n",
    },
    Row {
        half: "domain",
        interval: "1",
        domain: TANK,
        problem: "(define (problem tq) (:domain tank) (:init (= (level) 0) (at 2 (open)) (at 3 (not (open)))) (:goal (>= (level) 2)))\n",
        status: Status::Valid,
        output: "(define (domain tank)\n (:requirements :adl :fluents)\n (:predicates (open) (pp-f1))\n (:functions (level) (pp-clock))\n (:action open-valve :parameters () :precondition (and (not (open)) (not (and (open) (>= (level) 5)))) :effect (and (open) (not (pp-f1))))\n (:action pp-step :parameters () :precondition (and (not (and (open) (>= (level) 5)))) :effect (and (when (open) (increase (level) (* 1 2))) (increase (pp-clock) 1) (when (= (pp-clock) 1) (open)) (when (= (pp-clock) 2) (not (open))) (not (pp-f1))))\n (:action pp-fire :parameters () :precondition (and (or (and (open) (>= (level) 5))) (not (and (and (open) (>= (level) 5)) (pp-f1)))) :effect (and (when (and (open) (>= (level) 5)) (not (open))) (when (and (open) (>= (level) 5)) (pp-f1))))\n)\n",
    },
    Row {
        half: "problem",
        interval: "1",
        domain: TANK,
        problem: "(define (problem tq) (:domain tank) (:init (= (level) 0) (at 2 (open)) (at 3 (not (open)))) (:goal (>= (level) 2)))\n",
        status: Status::Valid,
        output: "(define (problem tq)\n (:domain tank)\n (:init (= (level) 0) (= (pp-clock) 0))\n (:goal (and (>= (level) 2) (not (and (open) (>= (level) 5)))))\n)\n",
    },
    Row {
        half: "domain",
        interval: "2",
        domain: TANK,
        problem: "(define (problem q) (:domain tank) (:init (= (level) 0) (at 3 (open))) (:goal (and)))",
        status: Status::BadText,
        output: "bad text: problem 60-61: off grid\n",
    },
    // A pair that is refused has no translation.
    Row {
        half: "problem",
        interval: "1",
        domain: "(define (domain d) (:predicates (p)))",
        problem: "(define (problem q) (:domain d) (:init (p d)) (:goal (and)))",
        status: Status::BadText,
        output: "bad text: problem 39-44: arity\n",
    },
    // The condition of the event stands in five forms of `pp-fire`: 65 are open at once.
    Row {
        half: "domain",
        interval: "1",
        domain: DEEP,
        problem: "(define (problem q) (:domain d) (:init) (:goal (and)))",
        status: Status::Beyond,
        output: "beyond: depth 64 in translation\n",
    },
];

#[test]
fn rows_of_translate(rt: HostRuntime) -> Result<(), Fail> {
    for row in &ROWS {
        let files = Files {
            domain: row.domain,
            problem: row.problem,
            plan: "",
        };
        let words = ["translate", row.half, row.interval, "d", "p"];
        expect_words(&rt, &words, files, row.status, row.output)?;
    }
    Ok(())
}
