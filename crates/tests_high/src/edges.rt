//! The edges of a run: each call of the shelf and of the sink that fails, in turn, and how much of a
//! file is taken.

use crate::limits::{LONG_REPORT, TEXT_LIMIT, peopled, wide};
use crate::runs::{
    CHECK, D1, DOOR, Files, OPENED, OPENED_REPORT, door, expect_check, expect_run, shelf_of,
    status_of,
};
use plus_io::{MemShelf, MemSink, Shelf};
use plus_report::Status;
use std::alloc::Global;
use std::process::Abort;
use std::test::Fail;

// How many bytes one read gives at most.
const PIECE: usize = 16;

// What is out where the pick of the plan `l` fails, at 0, or its first read, at 1, and so on: what the
// lines tell that stand whole in what was read before.
fn told_before(name: &str, call: usize) -> &'static str {
    if name != "l" {
        return "";
    }
    match call {
        1 => "at 0\n",
        2 => "at 0\n  run\nat 1\n  act (unlock)\n    - (locked)\n",
        3 =>
            "at 0\n  run\nat 1\n  act (unlock)\n    - (locked)\n  run\nat 3\n  act (open-door)\n    - (closed)\n",
        _ => "",
    }
}

// How much is out where the first write fails, or the second, and so on, and where none fails. The entry
// at the start is written alone, then what the piece of the plan tells, and then the verdict.
const TAKEN: [usize; 9] = [0, 5, 21, 37, 53, 69, 85, 90, 96];

// Runs `check` over the door, whose files are read in pieces, where a call on one of them fails.
fn expect_failing_call(
    rt: &(impl Abort + AllocGlobal),
    name: &str,
    call: usize,
    status: Status,
    output: &str,
) -> Result<(), Fail> {
    let alloc = rt.alloc();
    let mut shelf = shelf_of(alloc, door(OPENED))?;
    shelf.pieces(PIECE);
    shelf.fail(name, call as u64)?;
    let mut out = MemSink::new(alloc, 64);
    let answer = status_of(alloc, &CHECK, &mut shelf, &mut out)?;
    assert_eq!(rt; answer, status, "{name} {call}");
    assert_eq!(rt; out.bytes(), output.as_bytes(), "{name} {call}");
    Ok(())
}

// Every pick and every read of each of the three files fails in turn. Past the last read of a file
// the run is as if nothing was listed.
#[test]
fn each_pick_and_read_that_fails(rt: HostRuntime) -> Result<(), Fail> {
    for (name, length) in [("d", DOOR.len()), ("p", D1.len()), ("l", OPENED.len())] {
        // a file is read in pieces until a read gives nothing
        let reads = length.div_ceil(PIECE).saturating_add(1);
        for call in 0..reads.saturating_add(2) {
            let (status, output) = if call <= reads {
                (Status::ReadFault, told_before(name, call))
            } else {
                (Status::Valid, OPENED_REPORT)
            };
            expect_failing_call(&rt, name, call, status, output)?;
        }
    }
    Ok(())
}

// Runs `check` over the door, where a write fails and the sink took so many bytes before.
fn expect_failing_write(
    rt: &(impl Abort + AllocGlobal),
    call: usize,
    taken: usize,
) -> Result<(), Fail> {
    let report = OPENED_REPORT.as_bytes();
    let taken = &report[..taken.min(report.len())];
    let status = if taken.len() < report.len() {
        Status::WriteFault
    } else {
        Status::Valid
    };
    let mut shelf = shelf_of(rt.alloc(), door(OPENED))?;
    let mut out = MemSink::new(rt.alloc(), PIECE);
    out.fail(call as u64)?;
    let answer = status_of(rt.alloc(), &CHECK, &mut shelf, &mut out)?;
    assert_eq!(rt; answer, status, "{call}");
    assert_eq!(rt; out.bytes(), taken, "{call}");
    Ok(())
}

// Every write fails in turn, and the sink took what was written before.
#[test]
fn each_write_that_fails(rt: HostRuntime) -> Result<(), Fail> {
    for (before, taken) in TAKEN.into_iter().enumerate() {
        expect_failing_write(&rt, before.saturating_add(1), taken)?;
    }
    Ok(())
}

// One byte at a time, in and out.
#[test]
fn pieces_of_one_byte(rt: HostRuntime) -> Result<(), Fail> {
    let mut shelf = shelf_of(rt.alloc(), door(OPENED))?;
    shelf.pieces(1);
    let mut out = MemSink::new(rt.alloc(), 1);
    expect_run(
        &rt,
        &CHECK,
        &mut shelf,
        &mut out,
        Status::Valid,
        OPENED_REPORT,
    )
}

// A missing file is a fault.
#[test]
fn a_missing_file(rt: HostRuntime) -> Result<(), Fail> {
    let mut shelf = MemShelf::new(rt.alloc());
    shelf.put("d", DOOR.as_bytes())?;
    shelf.fail("p", 0)?;
    let mut out = MemSink::new(rt.alloc(), 64);
    expect_run(&rt, &CHECK, &mut shelf, &mut out, Status::ReadFault, "")
}

// A name that the shelf was not made for has no bytes.
#[test]
fn a_strange_name(rt: HostRuntime) -> Result<(), Fail> {
    let mut shelf = MemShelf::new(rt.alloc());
    let mut out = MemSink::new(rt.alloc(), 64);
    let output = "bad text: domain 0-0: unclosed\n";
    expect_run(&rt, &CHECK, &mut shelf, &mut out, Status::BadText, output)
}

// A blank line of 64 bytes.
const BLANK: &str = "                                                               \n";

// A text and then blank lines, of so many bytes in all.
fn padded(alloc: Global, text: &str, size: usize) -> Result<String, Fail> {
    let mut padded = String::from_str(alloc, text)?;
    let missing = size.saturating_sub(text.len());
    for _ in 0..missing / 64 {
        padded.push_str(BLANK)?;
    }
    for _ in 0..missing % 64 {
        padded.push_str("\n")?;
    }
    Ok(padded)
}

// How many bytes are left of the file that is picked.
fn left(rt: &impl Abort, shelf: &mut MemShelf) -> usize {
    let mut buffer = [0u8; 64];
    let count = shelf.read(&mut buffer).unwrap_or(64);
    assert!(rt; count < 64);
    count
}

// Runs `check` over the files, and compares how many bytes are left of the one that is picked then.
fn expect_left(
    rt: &(impl Abort + AllocGlobal),
    files: Files<'_>,
    status: Status,
    output: &str,
    rest: usize,
) -> Result<(), Fail> {
    let mut shelf = shelf_of(rt.alloc(), files)?;
    let mut out = MemSink::new(rt.alloc(), 64);
    expect_run(rt, &CHECK, &mut shelf, &mut out, status, output)?;
    assert_eq!(rt; left(rt, &mut shelf), rest);
    Ok(())
}

// How many bytes a text is over the limit, how many are left of it then, and whether it is refused.
const SIZES: [(usize, usize, bool); 4] = [
    (0, 0, false),
    (1, 0, true),
    (2, 1, true),
    (40, 39, true),
];

// Of a text that is too long one byte more than the limit is taken, and its rest stays picked.
#[test]
fn what_is_taken_of_a_long_plan(rt: HostRuntime) -> Result<(), Fail> {
    for (over, rest, refused) in SIZES {
        let (status, output) = if refused {
            (Status::Beyond, LONG_REPORT)
        } else {
            (Status::Valid, OPENED_REPORT)
        };
        let plan = padded(rt.alloc(), OPENED, TEXT_LIMIT.saturating_add(over))?;
        expect_left(&rt, door(&plan), status, output, rest)?;
    }
    Ok(())
}

// A domain that is too long is refused before the problem is read, whatever the problem is.
#[test]
fn what_is_taken_of_a_long_domain(rt: HostRuntime) -> Result<(), Fail> {
    for (over, rest, refused) in SIZES {
        let (status, output) = if refused {
            (Status::Beyond, "beyond: domain text over 1048576 bytes\n")
        } else {
            (Status::BadText, "bad text: problem 16-16: unclosed\n")
        };
        let domain = padded(rt.alloc(), DOOR, TEXT_LIMIT.saturating_add(over))?;
        let files = Files {
            domain: &domain,
            problem: "(define (problem",
            plan: OPENED,
        };
        expect_left(&rt, files, status, output, rest)?;
    }
    Ok(())
}

// An action with this effect, whose condition alone has as many nodes as an instance may have.
fn wide_action(alloc: Global, effect: &str) -> Result<String, Fail> {
    let condition = wide(alloc)?;
    Ok(format!(in alloc;
        "(define (domain n) (:predicates (p)) (:action many :precondition {condition}{effect}))"
    )?)
}

// An action whose condition has as many nodes as an instance may have, and one with an effect more.
#[test]
fn an_instance_over_its_nodes(rt: HostRuntime) -> Result<(), Fail> {
    let problem = peopled(rt.alloc(), 999, "(and)")?;
    for (effect, status, output) in [
        ("", Status::Valid, "at 0\n  act (many)\nvalid\n"),
        (
            " :effect (p)",
            Status::Beyond,
            "at 0\nbeyond: more than 1000000 nodes\n",
        ),
    ] {
        let domain = wide_action(rt.alloc(), effect)?;
        let files = Files {
            domain: &domain,
            problem: &problem,
            plan: "0: (many)",
        };
        expect_check(&rt, files, status, output)?;
    }
    Ok(())
}
