//! Each word of typing with its place, and pairs with subtypes and numbers that are played.

use crate::runs::{CHECK, Files, Row, expect_check, expect_rows};
use plus_report::Status;
use std::test::Fail;

const TRUCKS: &str = "(define (domain d) (:types van - truck truck place) (:constants home - place)
 (:predicates (at ?t - truck ?p - place) (seen ?p)) (:functions (fuel ?t - truck)))";

const THINGS: &str =
    "(define (problem q) (:domain d) (:objects v - van t - truck a - place) (:init) (:goal (and)))";

const BARE: &str = "(define (problem q) (:domain d) (:init) (:goal (and)))";

// Domains and problems that are refused, and what is written. The place is that of the form or the name.
static FAULTS: [(&str, &str, &str); 39] = [
    (
        "(define (domain d) (:durative-action))",
        BARE,
        "bad text: domain 20-36: form\n",
    ),
    (
        "(define (domain d) (:requirements :strips) (:requirements))",
        BARE,
        "bad text: domain 44-57: form\n",
    ),
    (
        "(define (domain d) (:types - t))",
        BARE,
        "bad text: domain 27-28: form\n",
    ),
    (
        "(define (domain d) ) )",
        BARE,
        "bad text: domain 21-22: form\n",
    ),
    (
        "(define (domain d) (:action a :precondition (= a 1)))",
        BARE,
        "bad text: domain 49-50: form\n",
    ),
    (
        "(define (domain d) (:action a :effect (when () (when () ()))))",
        BARE,
        "bad text: domain 48-52: form\n",
    ),
    (
        "(define (domain d)",
        BARE,
        "bad text: domain 18-18: unclosed\n",
    ),
    (
        "(define (domain d) (:predicates (p .",
        BARE,
        "bad text: domain 35-36: byte\n",
    ),
    (
        "(define (domain d))",
        "(define (problem p) (:domain d) (:init) )",
        "bad text: problem 40-41: form\n",
    ),
    (
        "(define (domain d))",
        "(define (problem p) (:domain d) (:domain d))",
        "bad text: problem 33-40: form\n",
    ),
    (
        "(define (domain d))",
        "(define (problem p) (:init (at -1 (p))))",
        "bad text: problem 31-33: form\n",
    ),
    (
        "(define (domain d))",
        "(define (problem p) (:metric (x)",
        "bad text: problem 32-32: unclosed\n",
    ),
    (
        "(define (domain d))",
        "(define (problem p) (:init (at 5 (not (not (p))))))",
        "bad text: problem 39-42: form\n",
    ),
    (
        "(define (domain d))",
        "(define (problem p) (:init)",
        "bad text: problem 27-27: unclosed\n",
    ),
    (
        "(define (domain d) (:predicates (p ?x - crate)))",
        BARE,
        "bad text: domain 40-45: unknown type\n",
    ),
    (
        "(define (domain d) (:types van) (:constants home - place))",
        BARE,
        "bad text: domain 51-56: unknown type\n",
    ),
    (
        TRUCKS,
        "(define (problem q) (:domain d) (:objects a - crate) (:init) (:goal (and)))",
        "bad text: problem 46-51: unknown type\n",
    ),
    (
        "(define (domain d) (:types van - truck truck place) (:constants home - place)
 (:predicates (at ?t - truck ?p - place) (seen ?p)) (:functions (fuel ?t - truck)) (:action go :effect (near home)))",
        THINGS,
        "bad text: domain 182-186: unknown name\n",
    ),
    (
        "(define (domain d) (:types van - truck truck place) (:constants home - place)
 (:predicates (at ?t - truck ?p - place) (seen ?p)) (:functions (fuel ?t - truck)) (:action go :precondition (seen a)))",
        THINGS,
        "bad text: domain 193-194: unknown name\n",
    ),
    (
        TRUCKS,
        "(define (problem q) (:domain d) (:objects v - van t - truck a - place) (:init) (:goal (exists (?x - van) (= (seen ?x) 1))))",
        "bad text: problem 109-113: unknown name\n",
    ),
    (
        TRUCKS,
        "(define (problem q) (:domain d) (:objects v - van t - truck a - place) (:init) (:goal (and (seen house))))",
        "bad text: problem 97-102: unknown name\n",
    ),
    (
        TRUCKS,
        "(define (problem q) (:domain d) (:objects v - van t - truck a - place) (:init (seen v) (at v)) (:goal (and)))",
        "bad text: problem 87-93: arity\n",
    ),
    (
        TRUCKS,
        "(define (problem q) (:domain d) (:objects v - van t - truck a - place) (:init) (:goal (forall (?x - van) (seen ?x a))))",
        "bad text: problem 105-116: arity\n",
    ),
    (
        "(define (domain d) (:types van - truck truck place) (:constants home - place)
 (:predicates (at ?t - truck ?p - place) (seen ?p)) (:functions (fuel ?t - truck)) (:action go :parameters (?x) :precondition (at ?x home)))",
        THINGS,
        "bad text: domain 208-210: wrong type\n",
    ),
    (
        TRUCKS,
        "(define (problem q) (:domain d) (:objects v - van t - truck a - place) (:init) (:goal (and (at v a) (at t v))))",
        "bad text: problem 106-107: wrong type\n",
    ),
    (
        "(define (domain d) (:types van - truck truck van))",
        BARE,
        "bad text: domain 45-48: twice\n",
    ),
    (
        TRUCKS,
        "(define (problem q) (:domain d) (:objects a home - place) (:init) (:goal (and)))",
        "bad text: problem 44-48: twice\n",
    ),
    (
        TRUCKS,
        "(define (problem q) (:domain d) (:objects v - van t - truck a - place) (:init (= (fuel v) 1) (= (fuel t) 1) (= (fuel v) 2)) (:goal (and)))",
        "bad text: problem 108-122: twice\n",
    ),
    (
        "(define (domain d) (:types van - truck truck place) (:constants home - place)
 (:predicates (at ?t - truck ?p - place) (seen ?p)) (:functions (fuel ?t - truck)) (:action go :parameters (?x ?y - van ?x - truck)))",
        THINGS,
        "bad text: domain 198-200: twice\n",
    ),
    (
        "(define (domain d) (:types van - truck truck place) (:constants home - place)
 (:predicates (at ?t - truck ?p - place) (seen ?p)) (:functions (fuel ?t - truck)) (:action go) (:action go))",
        THINGS,
        "bad text: domain 183-185: twice\n",
    ),
    (
        TRUCKS,
        "(define (problem q) (:domain d) (:objects v - van t - truck a - place) (:init) (:goal (and (exists (?x - van) (seen ?x)) (seen ?x))))",
        "bad text: problem 127-129: unbound variable\n",
    ),
    (
        "(define (domain d) (:types van - truck truck place) (:constants home - place)
 (:predicates (at ?t - truck ?p - place) (seen ?p)) (:functions (fuel ?t - truck)) (:action go :parameters (?x) :effect (forall (?x - van) (seen ?x))))",
        THINGS,
        "bad text: domain 207-209: shadowed variable\n",
    ),
    (
        "(define (domain d) (:types low - van van - truck truck - van))",
        BARE,
        "bad text: domain 37-40: type loop\n",
    ),
    (
        "(define (domain d) (:types van object - place))",
        BARE,
        "bad text: domain 31-37: type loop\n",
    ),
    (
        "(define (domain d) (:types van - truck truck place) (:constants home - place)
 (:predicates (at ?t - truck ?p - place) (seen ?p)) (:functions (fuel ?t - truck)) (:process burn :parameters (?t - truck) :effect (decrease (fuel ?t) 1)))",
        THINGS,
        "bad text: domain 209-231: rate form\n",
    ),
    (
        "(define (domain d) (:types van - truck truck place) (:constants home - place)
 (:predicates (at ?t - truck ?p - place) (seen ?p)) (:functions (fuel ?t - truck)) (:process burn :parameters (?t - truck) :effect (when (seen ?t) (increase (fuel ?t) #t))))",
        THINGS,
        "bad text: domain 209-249: rate form\n",
    ),
    (
        "(define (domain d) (:types van - truck truck place) (:constants home - place)
 (:predicates (at ?t - truck ?p - place) (seen ?p)) (:functions (fuel ?t - truck)) (:action burn :parameters (?t - truck) :effect (decrease (fuel ?t) (* 2 #t))))",
        THINGS,
        "bad text: domain 233-235: rate form\n",
    ),
    (
        TRUCKS,
        "(define (problem q) (:domain e) (:objects v - van t - truck a - place) (:init) (:goal (and)))",
        "bad text: problem 29-30: domain name\n",
    ),
    (
        "(define (domain d) (:types van - truck truck place) (:constants home - place)
 (:predicates (at ?t - truck ?p - place) (seen ?p)) (:functions (fuel ?t - truck)) (:event stop :precondition (halted)))",
        "(define (problem q) (:domain d) (:objects v - van t - truck a - crate) (:init) (:goal (nowhere)))",
        "bad text: domain 189-195: unknown name\n",
    ),
];

const MOVE: &str = "(define (domain move) (:types van - truck truck place)
 (:predicates (at ?t - truck ?p - place) (seen ?p - place))
 (:action drive :parameters (?t - truck ?f ?g - place) :precondition (at ?t ?f)
  :effect (and (not (at ?t ?f)) (at ?t ?g) (forall (?p - place) (when (at ?t ?p) (seen ?p))))))
";

const MOVED: &str =
    "(define (problem m) (:domain move) (:objects a b - place v - van) (:init (at v a)) (:goal (and (at v b) (exists (?p - place) (seen ?p)))))
";

static PLAYED: [Row; 3] = [
    (
        MOVE,
        MOVED,
        "0: (drive v a b)",
        Status::Valid,
        "at 0\n  act (drive v a b)\n    - (at v a)\n    + (at v b)\n    + (seen a)\nvalid\n",
    ),
    (
        MOVE,
        MOVED,
        "0: (drive v v b)",
        Status::Invalid,
        "at 0\ninvalid: line 1: wrong arguments of drive\n",
    ),
    (
        "(define (domain d) (:functions (x) (y)) (:action mix :effect (and (assign (x) (/ (y) 4)) (scale-up (y) (x)))))",
        "(define (problem q) (:domain d) (:init (= (x) 0.5) (= (y) 3)) (:goal (and (= (x) 0.75) (= (y) 1.5))))",
        "1.25: (mix)",
        Status::Valid,
        "at 0\n  run\nat 5/4\n  act (mix)\n    (x) = 3/4\n    (y) = 3/2\nvalid\n",
    ),
];

#[test]
fn words_of_typing(rt: HostRuntime) -> Result<(), Fail> {
    let plan = "";
    for &(domain, problem, output) in &FAULTS {
        let files = Files {
            domain,
            problem,
            plan,
        };
        expect_check(&rt, files, Status::BadText, output)?;
    }
    Ok(())
}

#[test]
fn subtypes_and_numbers(rt: HostRuntime) -> Result<(), Fail> {
    expect_rows(&rt, &CHECK, &PLAYED)
}
