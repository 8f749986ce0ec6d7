//! Both sides of each limit: a text at the limit is read, and one past it is refused, with its place.

use crate::runs::{
    CHECK, D1, DOOR, Files, OPENED, OPENED_REPORT, door, expect_check, shelf_of, status_of,
};
use plus_io::MemSink;
use plus_report::Status;
use std::alloc::Global;
use std::process::Abort;
use std::test::Fail;

pub const TEXT_LIMIT: usize = 1048576;

const LINE_LIMIT: usize = 4096;

const NAME: &str = "abcdefghijklmnopqrstuvwxyz-abcdefghijklmnopqrstuvwxyz-0123456789";

const UNLOCKED: &str = "at 0\n  run\nat 1\n  act (unlock)\n    - (locked)\ninvalid: goal\n";

// Plans of the door with times at a limit and past it, the status and what is written.
static TIMES: [(&str, Status, &str); 9] = [
    (
        "0000000000000000001.000000000: (unlock)",
        Status::Invalid,
        UNLOCKED,
    ),
    (
        "00000000000000000001: (unlock)",
        Status::BadText,
        "at 0\nbad text: plan line 1, bytes 0-1\n",
    ),
    (
        "1.0000000000: (unlock)",
        Status::BadText,
        "at 0\nbad text: plan line 1, bytes 0-1\n",
    ),
    (
        "9223372036854775807: (unlock)",
        Status::Invalid,
        "at 0\n  run\nat 9223372036854775807\n  act (unlock)\n    - (locked)\ninvalid: goal\n",
    ),
    (
        "9223372036854775808: @end",
        Status::Beyond,
        "at 0\nbeyond: literal in plan 0-19\n",
    ),
    (
        "1/9223372036854775807: (unlock)",
        Status::Invalid,
        "at 0\n  run\nat 1/9223372036854775807\n  act (unlock)\n    - (locked)\ninvalid: goal\n",
    ),
    (
        "1/9223372036854775808: @end",
        Status::Beyond,
        "at 0\nbeyond: literal in plan 0-21\n",
    ),
    (
        "9999999999999999999/9999999999999999999: (unlock)",
        Status::Invalid,
        UNLOCKED,
    ),
    (
        "1/9223372036854775807: (unlock)\n1/9223372036854775806: @end",
        Status::Beyond,
        "at 0\n  run\nat 1/9223372036854775807\n  act (unlock)\n    - (locked)\n  run\nbeyond: number 1/9223372036854775806 - 1/9223372036854775807\n",
    ),
];

// The text, and then this byte so often that it has so many.
fn filled(alloc: Global, text: &str, piece: &str, size: usize) -> Result<String, Fail> {
    let mut filled = String::from_str(alloc, text)?;
    for _ in 0..size.saturating_sub(text.len()) {
        filled.push_str(piece)?;
    }
    Ok(filled)
}

// A domain with so many parentheses open at once.
fn nested(alloc: Global, depth: usize) -> Result<String, Fail> {
    let mut text = String::from_str(alloc, "(define (domain n) (:action a :effect ")?;
    for _ in 2..depth {
        text.push_str("(and")?;
    }
    for _ in 0..depth {
        text.push_str(")")?;
    }
    Ok(text)
}

// A domain with a predicate of this name.
fn named(alloc: Global, name: &str, more: &str) -> Result<String, Fail> {
    Ok(format!(in alloc; "(define (domain n) (:predicates ({name}{more})))")?)
}

const EMPTY: &str = "(define (problem q) (:domain n) (:init) (:goal (and)))";

const ACCEPTED: &str = "at 0\nvalid\n";

// What is written of the door's plan where its text goes on until it is too long.
pub const LONG_REPORT: &str =
    "at 0\n  run\nat 1\n  act (unlock)\n    - (locked)\n  run\nat 3\n  act (open-door)\n    - (closed)\nbeyond: plan text over 1048576 bytes\n";

#[test]
fn times(rt: HostRuntime) -> Result<(), Fail> {
    for &(plan, status, output) in &TIMES {
        expect_check(&rt, door(plan), status, output)?;
    }
    Ok(())
}

#[test]
fn lengths_of_domains(rt: HostRuntime) -> Result<(), Fail> {
    for (size, status, output) in [
        (TEXT_LIMIT, Status::Valid, OPENED_REPORT),
        (
            TEXT_LIMIT + 1,
            Status::Beyond,
            "beyond: domain text over 1048576 bytes\n",
        ),
    ] {
        let domain = filled(rt.alloc(), DOOR, " ", size)?;
        let files = Files {
            domain: &domain,
            ..door(OPENED)
        };
        expect_check(&rt, files, status, output)?;
    }
    Ok(())
}

#[test]
fn lengths_of_problems(rt: HostRuntime) -> Result<(), Fail> {
    for (size, status, output) in [
        (TEXT_LIMIT, Status::Valid, OPENED_REPORT),
        (
            TEXT_LIMIT + 1,
            Status::Beyond,
            "beyond: problem text over 1048576 bytes\n",
        ),
    ] {
        let problem = filled(rt.alloc(), D1, " ", size)?;
        let files = Files {
            problem: &problem,
            ..door(OPENED)
        };
        expect_check(&rt, files, status, output)?;
    }
    Ok(())
}

// Runs `check` over the door with a plan that is filled up with a piece until it has so many bytes.
fn expect_filled(
    rt: &(impl Abort + AllocGlobal),
    plan: &str,
    piece: &str,
    size: usize,
    status: Status,
    output: &str,
) -> Result<(), Fail> {
    let plan = filled(rt.alloc(), plan, piece, size)?;
    expect_check(rt, door(&plan), status, output)
}

#[test]
fn lengths_of_plans(rt: HostRuntime) -> Result<(), Fail> {
    for (piece, size, status, output) in [
        ("\n", TEXT_LIMIT, Status::Valid, OPENED_REPORT),
        ("\n", TEXT_LIMIT + 1, Status::Beyond, LONG_REPORT),
        (
            " ",
            TEXT_LIMIT + 1,
            Status::Beyond,
            "at 0\n  run\nat 1\n  act (unlock)\n    - (locked)\n  run\nat 3\n  act (open-door)\n    - (closed)\nbeyond: line 3 over 4096 bytes\n",
        ),
    ] {
        expect_filled(&rt, OPENED, piece, size, status, output)?;
    }
    Ok(())
}

#[test]
fn lengths_of_lines(rt: HostRuntime) -> Result<(), Fail> {
    for (size, status, output) in [
        (LINE_LIMIT, Status::Invalid, UNLOCKED),
        (
            LINE_LIMIT + 1,
            Status::Beyond,
            "at 0\nbeyond: line 1 over 4096 bytes\n",
        ),
    ] {
        expect_filled(&rt, "1: (unlock)", " ", size, status, output)?;
    }
    Ok(())
}

// Runs `check` over a domain that an empty problem and an empty plan go with.
fn expect_domain(
    rt: &(impl Abort + AllocGlobal),
    domain: &str,
    status: Status,
    output: &str,
) -> Result<(), Fail> {
    let files = Files {
        domain,
        problem: EMPTY,
        plan: "",
    };
    expect_check(rt, files, status, output)
}

#[test]
fn depths(rt: HostRuntime) -> Result<(), Fail> {
    for (depth, status, output) in [
        (64, Status::Valid, ACCEPTED),
        (65, Status::Beyond, "beyond: depth 64 in domain at 286\n"),
    ] {
        let domain = nested(rt.alloc(), depth)?;
        expect_domain(&rt, &domain, status, output)?;
    }
    Ok(())
}

#[test]
fn lengths_of_names(rt: HostRuntime) -> Result<(), Fail> {
    for (more, status, output) in [
        ("", Status::Valid, ACCEPTED),
        ("x", Status::BadText, "bad text: domain 33-34: long\n"),
    ] {
        let domain = named(rt.alloc(), NAME, more)?;
        expect_domain(&rt, &domain, status, output)?;
    }
    Ok(())
}

// A plan that comes to so many moments, the one at 0 among them.
fn moments(alloc: Global, count: u32) -> Result<String, Fail> {
    let mut text = String::new(alloc);
    for time in 1..count {
        let line = format!(in alloc; "{time}: (note)\n")?;
        text.push_str(&line)?;
    }
    Ok(text)
}

// Carries out the words over a plan that comes to so many moments, and compares the status and the end
// of what was written.
fn expect_end(
    rt: &(impl Abort + AllocGlobal),
    words: &[&str],
    count: u32,
    status: Status,
    end: &str,
) -> Result<(), Fail> {
    let alloc = rt.alloc();
    let plan = moments(alloc, count)?;
    let files = Files {
        domain: "(define (domain n) (:action note))",
        problem: EMPTY,
        plan: &plan,
    };
    let mut shelf = shelf_of(alloc, files)?;
    let mut out = MemSink::new(alloc, 4096);
    let answer = status_of(alloc, words, &mut shelf, &mut out)?;
    assert_eq!(rt; answer, status);
    let from = out.bytes().len().saturating_sub(end.len());
    assert_eq!(rt; &out.bytes()[from..], end.as_bytes(), "{end}");
    Ok(())
}

#[test]
fn happenings(rt: HostRuntime) -> Result<(), Fail> {
    for (count, status, end) in [
        (10000, Status::Valid, "\nat 9999\n  act (note)\nvalid\n"),
        (
            10001,
            Status::Beyond,
            "\nat 9999\n  act (note)\nbeyond: happenings 10000\n",
        ),
    ] {
        expect_end(&rt, &CHECK, count, status, end)?;
    }
    Ok(())
}

#[test]
fn more_happenings(rt: HostRuntime) -> Result<(), Fail> {
    let words = ["check", "d", "p", "l", "--happenings", "10001"];
    let end = "\nat 10000\n  act (note)\nvalid\n";
    expect_end(&rt, &words, 10001, Status::Valid, end)
}

// The names of so many objects.
fn objects(alloc: Global, count: u32) -> Result<String, Fail> {
    let mut names = String::new(alloc);
    for number in 0..count {
        let name = format!(in alloc; " o{number}")?;
        names.push_str(&name)?;
    }
    Ok(names)
}

// A problem over so many objects.
pub fn peopled(alloc: Global, count: u32, goal: &str) -> Result<String, Fail> {
    let objects = objects(alloc, count)?;
    Ok(format!(in alloc;
        "(define (problem q) (:domain n) (:objects{objects}) (:init) (:goal {goal}))"
    )?)
}

// A goal that has 1001 nodes for each object, and one more.
pub fn wide(alloc: Global) -> Result<String, Fail> {
    let mut goal = String::from_str(alloc, "(forall (?a) (and")?;
    for _ in 0..1000 {
        goal.push_str(" (not (p))")?;
    }
    goal.push_str("))")?;
    Ok(goal)
}

// The same goal with one node more.
fn wider(alloc: Global) -> Result<String, Fail> {
    let goal = wide(alloc)?;
    Ok(format!(in alloc; "(and {goal})")?)
}

// Runs `check` over a problem of so many objects.
fn expect_peopled(
    rt: &(impl Abort + AllocGlobal),
    domain: &str,
    count: u32,
    goal: &str,
    status: Status,
    output: &str,
) -> Result<(), Fail> {
    let problem = peopled(rt.alloc(), count, goal)?;
    let files = Files {
        domain,
        problem: &problem,
        plan: "",
    };
    expect_check(rt, files, status, output)
}

const BARE: &str = "(define (domain n))";

const ATOMS: &str = "(define (domain n) (:predicates (p ?a ?b)))";

const FLUENTS: &str = "(define (domain n) (:functions (f ?a ?b)))";

// Domains, numbers of objects at a limit and past it, the status and what is written.
static COUNTS: [(&str, u32, Status, &str); 6] = [
    (BARE, 10000, Status::Valid, ACCEPTED),
    (
        BARE,
        10001,
        Status::Beyond,
        "beyond: more than 10000 objects\n",
    ),
    (ATOMS, 447, Status::Valid, ACCEPTED),
    (
        ATOMS,
        448,
        Status::Beyond,
        "beyond: more than 200000 atoms\n",
    ),
    (FLUENTS, 223, Status::Valid, ACCEPTED),
    (
        FLUENTS,
        224,
        Status::Beyond,
        "beyond: more than 50000 fluents\n",
    ),
];

#[test]
fn objects_atoms_and_fluents(rt: HostRuntime) -> Result<(), Fail> {
    for &(domain, count, status, output) in &COUNTS {
        expect_peopled(&rt, domain, count, "(and)", status, output)?;
    }
    Ok(())
}

const SWITCH: &str = "(define (domain n) (:predicates (p)))";

#[test]
fn as_many_nodes_as_a_goal_may_have(rt: HostRuntime) -> Result<(), Fail> {
    let goal = wide(rt.alloc())?;
    expect_peopled(&rt, SWITCH, 999, &goal, Status::Valid, ACCEPTED)
}

#[test]
fn more_nodes_than_a_goal_may_have(rt: HostRuntime) -> Result<(), Fail> {
    let goal = wider(rt.alloc())?;
    let output = "beyond: more than 1000000 nodes\n";
    expect_peopled(&rt, SWITCH, 999, &goal, Status::Beyond, output)
}

// A domain with one action, whose condition has more nodes than one may have.
fn wide_action(alloc: Global) -> Result<String, Fail> {
    let condition = wider(alloc)?;
    Ok(format!(in alloc;
        "(define (domain n) (:predicates (p)) (:action a :precondition {condition}))"
    )?)
}

#[test]
fn nodes_of_an_instance(rt: HostRuntime) -> Result<(), Fail> {
    let domain = wide_action(rt.alloc())?;
    let problem = peopled(rt.alloc(), 999, "(and)")?;
    let files = Files {
        domain: &domain,
        problem: &problem,
        plan: "1: (a)",
    };
    let output = "at 0\n  run\nat 1\nbeyond: more than 1000000 nodes\n";
    expect_check(&rt, files, Status::Beyond, output)
}

#[test]
fn a_literal_of_an_instance(rt: HostRuntime) -> Result<(), Fail> {
    let files = Files {
        domain: "(define (domain n) (:functions (f)) (:action a :effect (assign (f) 9223372036854775808)))",
        problem: EMPTY,
        plan: "1: (a)",
    };
    let output = "at 0\n  run\nat 1\nbeyond: literal in domain 67-86\n";
    expect_check(&rt, files, Status::Beyond, output)
}
