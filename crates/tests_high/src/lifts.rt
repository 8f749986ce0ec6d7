//! Rows of `lift`.

use crate::runs::{Files, expect_words};
use plus_report::Status;
use std::alloc::Global;
use std::process::Abort;
use std::test::Fail;

const TANK: &str =
    "(define (domain tank)\n (:predicates (open))\n (:functions (level))\n (:action open-valve :parameters () :precondition (not (open)) :effect (open))\n (:process fill :parameters () :precondition (open) :effect (increase (level) (* #t 2)))\n (:event full :parameters () :precondition (and (open) (>= (level) 5)) :effect (not (open))))\n";

const FILLED: &str =
    "(define (problem tank1) (:domain tank) (:init (= (level) 0)) (:goal (and (not (open)) (>= (level) 5))))\n";

// A process whose condition and whose rates bind the same variable.
const SHADOWING: &str =
    "(define (domain d) (:predicates (p ?x)) (:functions (x)) (:process flow :precondition (exists (?i) (p ?i)) :effect (forall (?i) (increase (x) #t))))";

// An action with a literal that is no number of the program.
const FAR: &str =
    "(define (domain d) (:functions (x)) (:action a :effect (assign (x) 9223372036854775808)))";

const BARE: &str = "(define (problem q) (:domain d) (:init) (:goal (and)))";

// A row: the length of a step, the domain, the problem, the plan, the status and what is written.
#[derive(Clone, Copy)]
struct Row {
    interval: &'static str,
    domain: &'static str,
    problem: &'static str,
    plan: &'static str,
    status: Status,
    output: &'static str,
}

static ROWS: [Row; 12] = [
    Row {
        interval: "1/2",
        domain: TANK,
        problem: FILLED,
        plan: "(open-valve)\n(pp-step)\n(pp-step)\n(pp-step)\n(pp-step)\n(pp-step)\n(pp-fire)\n",
        status: Status::Valid,
        output: "0: (open-valve)\n5/2: @end\n; valid\n",
    },
    Row {
        interval: "2",
        domain: TANK,
        problem: FILLED,
        plan: "(open-valve)\n(pp-step)\n(pp-step)\n(pp-fire)\n",
        status: Status::Valid,
        output: "0: (open-valve)\n4: @end\n; valid\n",
    },
    // at 4 the level is 8 in steps, and 5 in time
    Row {
        interval: "2",
        domain: TANK,
        problem: "(define (problem tank1) (:domain tank) (:init (= (level) 0)) (:goal (>= (level) 8)))\n",
        plan: "(open-valve)\n(pp-step)\n(pp-step)\n(pp-fire)\n",
        status: Status::Invalid,
        output: "0: (open-valve)\n4: @end\n; invalid: goal\n",
    },
    Row {
        interval: "1/2",
        domain: TANK,
        problem: FILLED,
        plan: "(open-valve)\n(pp-fire)\n",
        status: Status::Invalid,
        output: "invalid: line 2: precondition of (pp-fire)\n",
    },
    Row {
        interval: "4611686018427387904",
        domain: TANK,
        problem: "(define (problem q) (:domain tank) (:init (= (level) 0)) (:goal (and)))\n",
        plan: "(pp-step)\n(pp-step)\n",
        status: Status::Beyond,
        output: "beyond: number 2 * 4611686018427387904\n",
    },
    Row {
        interval: "2",
        domain: TANK,
        problem: "(define (problem q) (:domain tank) (:init (= (level) 0) (at 3 (open))) (:goal (and)))",
        plan: "(pp-step)\n",
        status: Status::BadText,
        output: "bad text: problem 60-61: off grid\n",
    },
    Row {
        interval: "1",
        domain: "(define (domain d) (:predicates (pp-x)))",
        problem: BARE,
        plan: "",
        status: Status::BadText,
        output: "bad text: domain 33-37: name taken\n",
    },
    // In the translation the list around the rate is around the condition too.
    Row {
        interval: "1",
        domain: SHADOWING,
        problem: BARE,
        plan: "",
        status: Status::BadText,
        output: "bad text: translated domain 202-204: shadowed variable\n",
    },
    Row {
        interval: "1",
        domain: FAR,
        problem: BARE,
        plan: "(a)\n",
        status: Status::Beyond,
        output: "beyond: literal in translated domain 146-165\n",
    },
    Row {
        interval: "1",
        domain: TANK,
        problem: "(define (problem q) (:domain tank) (:init (= (level) 9223372036854775808)) (:goal (and)))",
        plan: "",
        status: Status::Beyond,
        output: "beyond: literal in translated problem 55-74\n",
    },
    Row {
        interval: "1",
        domain: TANK,
        problem: FILLED,
        plan: "(open-valve)\n0: (pp-step)\n",
        status: Status::BadText,
        output: "bad text: plan line 2, bytes 0-1\n",
    },
    Row {
        interval: "1",
        domain: TANK,
        problem: FILLED,
        plan: "(open-valve)\n(pp-step pp-step)\n",
        status: Status::Invalid,
        output: "invalid: line 2: wrong arguments of pp-step\n",
    },
];

#[test]
fn rows_of_lift(rt: HostRuntime) -> Result<(), Fail> {
    for row in &ROWS {
        let files = Files {
            domain: row.domain,
            problem: row.problem,
            plan: row.plan,
        };
        let words = ["lift", row.interval, "d", "p", "l"];
        expect_words(&rt, &words, files, row.status, row.output)?;
    }
    Ok(())
}

// The text, this piece so often, and the end of the text.
fn repeated(
    alloc: Global,
    front: &str,
    piece: &str,
    count: usize,
    back: &str,
) -> Result<String, Fail> {
    let mut text = String::from_str(alloc, front)?;
    for _ in 0..count {
        text.push_str(piece)?;
    }
    text.push_str(back)?;
    Ok(text)
}

// Carries out `lift` in steps of 1, without an action.
fn expect_lift(
    rt: &(impl Abort + AllocGlobal),
    domain: &str,
    problem: &str,
    status: Status,
    output: &str,
) -> Result<(), Fail> {
    let files = Files {
        domain,
        problem,
        plan: "",
    };
    expect_words(rt, &["lift", "1", "d", "p", "l"], files, status, output)
}

const NO_ACTION: &str = "0: @end\n; valid\n";

const DEEP: &str = "beyond: depth 64 in translation\n";

// The condition of the event stands in five forms of `pp-fire`, and has one more of its own for each `not`.
#[test]
fn depths_of_translations(rt: HostRuntime) -> Result<(), Fail> {
    let alloc = rt.alloc();
    for (count, status, output) in [(58, Status::Valid, NO_ACTION), (59, Status::Beyond, DEEP)] {
        let front = "(define (domain d) (:predicates (p)) (:event e :precondition ";
        let opened = repeated(alloc, front, "(not ", count, "(p)")?;
        let domain = repeated(alloc, &opened, ")", count, " :effect (p)))")?;
        expect_lift(&rt, &domain, BARE, status, output)?;
    }
    Ok(())
}

// Each `()` of a condition is `(and)` in the printed text. With a name of two letters that text has as many bytes as it may have.
#[test]
fn lengths_of_translated_domains(rt: HostRuntime) -> Result<(), Fail> {
    let long = "beyond: translated domain text over 1048576 bytes\n";
    for (front, status, output) in [
        (
            "(define (domain d) (:action aa :precondition (and",
            Status::Valid,
            NO_ACTION,
        ),
        (
            "(define (domain d) (:action aaa :precondition (and",
            Status::Beyond,
            long,
        ),
    ] {
        let domain = repeated(rt.alloc(), front, "()", 174718, ")))")?;
        expect_lift(&rt, &domain, BARE, status, output)?;
    }
    Ok(())
}

#[test]
fn lengths_of_translated_problems(rt: HostRuntime) -> Result<(), Fail> {
    let long = "beyond: translated problem text over 1048576 bytes\n";
    for (front, status, output) in [
        (
            "(define (problem qqqqqq) (:domain d) (:init) (:goal (and",
            Status::Valid,
            NO_ACTION,
        ),
        (
            "(define (problem qqqqqqq) (:domain d) (:init) (:goal (and",
            Status::Beyond,
            long,
        ),
    ] {
        let problem = repeated(rt.alloc(), front, "()", 174751, ")))")?;
        expect_lift(&rt, "(define (domain d))", &problem, status, output)?;
    }
    Ok(())
}
