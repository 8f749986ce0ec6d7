//! Rows over shelves and sinks in memory: whole outputs with their statuses, worked by hand from the
//! rules of time and of the texts.

use plus_io::{Freeing, MemShelf, MemSink, Shelf, Sink};
use plus_report::Status;
use plus_run::run::run;
use std::alloc::Global;
use std::process::Abort;
use std::test::Fail;

// The texts of the files `d`, `p` and `l`.
#[derive(Clone, Copy)]
pub struct Files<'a> {
    pub domain: &'a str,
    pub problem: &'a str,
    pub plan: &'a str,
}

// A domain, a problem, a plan, the status and what is written.
pub type Row = (
    &'static str,
    &'static str,
    &'static str,
    Status,
    &'static str,
);

pub const CHECK: [&str; 4] = ["check", "d", "p", "l"];

pub const USAGE: &str = "usage: planplus COMMAND ARGUMENTS\n";

pub const DOOR: &str = "(define (domain door) (:predicates (closed) (locked))
 (:action unlock :parameters () :precondition (locked) :effect (not (locked)))
 (:action open-door :precondition (and (closed) (not (locked))) :effect (not (closed))))
";

pub const D1: &str =
    "(define (problem d1) (:domain door) (:init (closed) (locked)) (:goal (not (closed))))";

pub const OPENED: &str = "1: (unlock)\n3: (open-door)\n";

pub const OPENED_REPORT: &str =
    "at 0\n  run\nat 1\n  act (unlock)\n    - (locked)\n  run\nat 3\n  act (open-door)\n    - (closed)\nvalid\n";

// Plans for the door, the status and what is written.
static DOOR_ROWS: [(&str, Status, &str); 9] = [
    (OPENED, Status::Valid, OPENED_REPORT),
    (
        "3: (open-door)\n",
        Status::Invalid,
        "at 0\n  run\nat 3\ninvalid: line 1: precondition of (open-door)\n",
    ),
    (
        "1: (unlock)",
        Status::Invalid,
        "at 0\n  run\nat 1\n  act (unlock)\n    - (locked)\ninvalid: goal\n",
    ),
    (
        "\n0: (shut)\n",
        Status::Invalid,
        "at 0\ninvalid: line 2: unknown action shut\n",
    ),
    (
        "0: (unlock key)\n",
        Status::Invalid,
        "at 0\ninvalid: line 1: wrong arguments of unlock\n",
    ),
    (
        "2: (UNLOCK) ; now\n1: @end\n",
        Status::Invalid,
        "at 0\n  run\nat 2\n  act (unlock)\n    - (locked)\ninvalid: line 2: time goes back\n",
    ),
    (
        "1: @end\n1: (unlock)\n",
        Status::Invalid,
        "at 0\n  run\nat 1\ninvalid: line 2: after the end\n",
    ),
    (
        "1: (unlock",
        Status::BadText,
        "at 0\nbad text: plan line 1, bytes 10-10\n",
    ),
    (
        "9223372036854775808: (unlock)\n",
        Status::Beyond,
        "at 0\nbeyond: literal in plan 0-19\n",
    ),
];

// Domains and problems that are refused, the status and what is written.
static PAIR_ROWS: [(&str, &str, Status, &str); 5] = [
    (
        "(define (domain a)",
        D1,
        Status::BadText,
        "bad text: domain 18-18: unclosed\n",
    ),
    (
        "(define (domain door) (:predicates (p) (p)))",
        D1,
        Status::BadText,
        "bad text: domain 40-41: twice\n",
    ),
    (
        DOOR,
        "(define (problem q) (:domain doer) (:init) (:goal (and)))",
        Status::BadText,
        "bad text: problem 29-33: domain name\n",
    ),
    (
        DOOR,
        "(define (problem q) (:domain door) (:init (ajar)) (:goal (and)))",
        Status::BadText,
        "bad text: problem 43-47: unknown name\n",
    ),
    (
        DOOR,
        "(define (problem q) (:init) (:goal (and)))",
        Status::BadText,
        "bad text: problem 41-42: form\n",
    ),
];

const TOYS: &str =
    "(define (domain toys) (:types toy) (:predicates (lit ?x - toy)) (:functions (heat ?x - toy))
 (:action light :parameters (?x - toy) :precondition (not (lit ?x))
  :effect (and (lit ?x) (forall (?y - toy) (when (lit ?y) (increase (heat ?y) 0.5))))))
";

const LAMPS: &str =
    "(define (problem lamps) (:domain toys) (:objects a b - toy) (:init (lit b) (= (heat b) 1))
 (:goal (exists (?x - toy) (> (heat ?x) 1))))
";

const SUMS: &str =
    "(define (domain sums) (:functions (x) (y)) (:action add :effect (increase (x) 1))
 (:action copy :effect (assign (x) (y))) (:action both :effect (and (assign (x) 1) (assign (x) 2)))
 (:action far :effect (assign (x) 9223372036854775808)))
";

const GREATEST: &str =
    "(define (problem q) (:domain sums) (:init (= (x) 9223372036854775807)) (:goal (and)))";

// Domains with objects and numbers.
static WORLD_ROWS: [Row; 8] = [
    (
        TOYS,
        LAMPS,
        "0: (light a)",
        Status::Valid,
        "at 0\n  act (light a)\n    + (lit a)\n    (heat b) = 3/2\nvalid\n",
    ),
    (
        TOYS,
        LAMPS,
        "0: (light b)",
        Status::Invalid,
        "at 0\ninvalid: line 1: precondition of (light b)\n",
    ),
    (
        TOYS,
        LAMPS,
        "0: (light toys)",
        Status::Invalid,
        "at 0\ninvalid: line 1: wrong arguments of light\n",
    ),
    (
        SUMS,
        GREATEST,
        "0: (add)",
        Status::Beyond,
        "at 0\nbeyond: number 9223372036854775807 + 1\n",
    ),
    (
        SUMS,
        GREATEST,
        "0: (copy)",
        Status::Invalid,
        "at 0\ninvalid: no value for (x)\n",
    ),
    (
        SUMS,
        GREATEST,
        "0: (both)",
        Status::Invalid,
        "at 0\ninvalid: conflict on (x)\n",
    ),
    (
        SUMS,
        GREATEST,
        "0: (far)",
        Status::Beyond,
        "at 0\nbeyond: literal in domain 216-235\n",
    ),
    (
        SUMS,
        "(define (problem q) (:domain sums) (:init (= (x) 9223372036854775808)) (:goal (and)))",
        "",
        Status::Beyond,
        "beyond: literal in problem 49-68\n",
    ),
];

// The words, as a program is given them.
fn words_of(alloc: Global, words: &[&str]) -> Result<Vec<String>, Fail> {
    let mut owned = Vec::new(alloc);
    for word in words {
        owned.push(String::from_str(alloc, word)?)?;
    }
    Ok(owned)
}

// A shelf with the files.
pub fn shelf_of(alloc: Global, files: Files<'_>) -> Result<MemShelf, Fail> {
    let mut shelf = MemShelf::new(alloc);
    shelf.put("d", files.domain.as_bytes())?;
    shelf.put("p", files.problem.as_bytes())?;
    shelf.put("l", files.plan.as_bytes())?;
    Ok(shelf)
}

// The files of the door, with this plan.
pub fn door(plan: &str) -> Files<'_> {
    Files {
        domain: DOOR,
        problem: D1,
        plan,
    }
}

// Carries out the words over a shelf and a sink, and answers the status.
pub fn status_of<S: Shelf, O: Sink>(
    alloc: Global,
    words: &[&str],
    shelf: &mut S,
    out: &mut O,
) -> Result<Status, Fail> {
    let words = words_of(alloc, words)?;
    Ok(run(alloc, &words, shelf, out, Freeing::Now))
}

// Carries out the words over a shelf and a sink in memory, and compares what was written and the status.
pub fn expect_run(
    rt: &(impl Abort + AllocGlobal),
    words: &[&str],
    shelf: &mut MemShelf,
    out: &mut MemSink,
    status: Status,
    output: &str,
) -> Result<(), Fail> {
    let answer = status_of(rt.alloc(), words, shelf, out)?;
    assert_eq!(rt; out.bytes(), output.as_bytes(), "{words:?}: {output}");
    assert_eq!(rt; answer, status, "{words:?}: {output}");
    Ok(())
}

// Carries out the words over the files.
pub fn expect_words(
    rt: &(impl Abort + AllocGlobal),
    words: &[&str],
    files: Files<'_>,
    status: Status,
    output: &str,
) -> Result<(), Fail> {
    let mut shelf = shelf_of(rt.alloc(), files)?;
    let mut out = MemSink::new(rt.alloc(), 64);
    expect_run(rt, words, &mut shelf, &mut out, status, output)
}

// Runs `check` over the files.
pub fn expect_check(
    rt: &(impl Abort + AllocGlobal),
    files: Files<'_>,
    status: Status,
    output: &str,
) -> Result<(), Fail> {
    expect_words(rt, &CHECK, files, status, output)
}

// Carries out the words over the files of each row.
pub fn expect_rows(
    rt: &(impl Abort + AllocGlobal),
    words: &[&str],
    rows: &[Row],
) -> Result<(), Fail> {
    for &(domain, problem, plan, status, output) in rows {
        let files = Files {
            domain,
            problem,
            plan,
        };
        expect_words(rt, words, files, status, output)?;
    }
    Ok(())
}

// The files are read byte by byte.
#[test]
fn plans_of_the_door(rt: HostRuntime) -> Result<(), Fail> {
    for &(plan, status, output) in &DOOR_ROWS {
        let mut shelf = shelf_of(rt.alloc(), door(plan))?;
        shelf.pieces(1);
        let mut out = MemSink::new(rt.alloc(), 7);
        expect_run(&rt, &CHECK, &mut shelf, &mut out, status, output)?;
    }
    Ok(())
}

#[test]
fn refused_pairs(rt: HostRuntime) -> Result<(), Fail> {
    let plan = OPENED;
    for &(domain, problem, status, output) in &PAIR_ROWS {
        let files = Files {
            domain,
            problem,
            plan,
        };
        expect_check(&rt, files, status, output)?;
    }
    Ok(())
}

#[test]
fn objects_and_numbers(rt: HostRuntime) -> Result<(), Fail> {
    expect_rows(&rt, &CHECK, &WORLD_ROWS)
}

// A kind of text, a text of that kind, and its canonical text.
static SHOWN: [(&str, &str, &str); 2] = [
    (
        "domain",
        "(define (domain D) (:functions (X)) (:action A :effect (increase (X) 0.50)))",
        "(define (domain d)\n (:functions (x))\n (:action a :parameters () :precondition (and) :effect (increase (x) 0.5))\n)\n",
    ),
    (
        "problem",
        "(define (problem P) (:goal ()) (:domain D) (:init (AT 2.50 (not (Lit a))) (at home) (at 0 (lit ?x))))",
        "(define (problem p)\n (:domain d)\n (:init (at 2.5 (not (lit a))) (at home) (at 0 (lit ?x)))\n (:goal (and))\n)\n",
    ),
];

#[test]
fn canonical_text(rt: HostRuntime) -> Result<(), Fail> {
    for &(kind, text, canonical) in &SHOWN {
        let mut shelf = MemShelf::new(rt.alloc());
        shelf.put("file", text.as_bytes())?;
        let words = ["show", kind, "file"];
        let mut out = MemSink::new(rt.alloc(), 64);
        expect_run(&rt, &words, &mut shelf, &mut out, Status::Valid, canonical)?;
    }
    Ok(())
}

#[test]
fn faults_of_the_shelf(rt: HostRuntime) -> Result<(), Fail> {
    for (name, call, output) in [("d", 0, ""), ("p", 0, ""), ("l", 0, ""), ("l", 1, "at 0\n")] {
        let mut shelf = shelf_of(rt.alloc(), door(OPENED))?;
        shelf.fail(name, call)?;
        let mut out = MemSink::new(rt.alloc(), 64);
        expect_run(&rt, &CHECK, &mut shelf, &mut out, Status::ReadFault, output)?;
    }
    Ok(())
}

#[test]
fn a_fault_of_the_sink(rt: HostRuntime) -> Result<(), Fail> {
    let mut shelf = shelf_of(rt.alloc(), door(OPENED))?;
    let mut out = MemSink::new(rt.alloc(), 8);
    out.fail(2)?;
    expect_run(
        &rt,
        &CHECK,
        &mut shelf,
        &mut out,
        Status::WriteFault,
        "at 0\n",
    )
}

#[test]
fn no_words(rt: HostRuntime) -> Result<(), Fail> {
    let mut shelf = MemShelf::new(rt.alloc());
    let mut out = MemSink::new(rt.alloc(), 64);
    expect_run(&rt, &[], &mut shelf, &mut out, Status::Usage, USAGE)
}
