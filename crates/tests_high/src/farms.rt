//! The texts of two tanks, and the line of three.
use plus_trial::{Summary, Word, domain_text, plan_text, problem_text, summary_text};
use std::test::Fail;

#[test]
fn two_tanks(rt: HostRuntime) -> Result<(), Fail> {
    let problem = problem_text(rt.alloc(), 2)?;
    let plan = plan_text(rt.alloc(), 2)?;
    assert_eq!(rt;
        problem.as_slice(),
        b"(define (problem farm2) (:domain farm)\n (:objects t1 t2 - tank)\n (:init\n  (= (level t1) 0) (= (rate t1) 2) (= (cap t1) 2)\n  (= (level t2) 0) (= (rate t2) 3) (= (cap t2) 3)\n )\n (:goal (forall (?t - tank) (>= (level ?t) (cap ?t)))))\n".as_slice()
    );
    assert_eq!(rt;
        plan.as_slice(),
        b"1: (open-valve t1)\n2: (open-valve t2)\n7: @end\n".as_slice()
    );
    Ok(())
}

#[test]
fn a_thousand_tanks_are_short(rt: HostRuntime) -> Result<(), Fail> {
    let domain = domain_text(rt.alloc())?;
    let problem = problem_text(rt.alloc(), 1000)?;
    let plan = plan_text(rt.alloc(), 1000)?;
    assert_eq!(rt; domain.len(), 457);
    assert!(rt; problem.len() < 100000);
    assert!(rt; plan.len() < 100000);
    Ok(())
}

#[test]
fn the_line_of_three(rt: HostRuntime) -> Result<(), Fail> {
    let summary = Summary {
        tanks: 3,
        word: Word::Valid,
        entries: 6,
        firings: 3,
    };
    let line = summary_text(rt.alloc(), summary)?;
    assert_eq!(rt;
        line.as_slice(),
        b"trial 3: valid, 6 happenings, 3 events\n".as_slice()
    );
    Ok(())
}
