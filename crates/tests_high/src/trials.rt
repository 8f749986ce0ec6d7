//! Trials: farms of few tanks, one of a thousand, and words that are no number of tanks.

use crate::runs::{USAGE, expect_run};
use plus_io::{MemShelf, MemSink};
use plus_report::Status;
use std::process::Abort;
use std::test::Fail;

// Runs `trial` over no files.
fn expect_trial(
    rt: &(impl Abort + AllocGlobal),
    number: &str,
    status: Status,
    output: &str,
) -> Result<(), Fail> {
    let mut shelf = MemShelf::new(rt.alloc());
    let mut out = MemSink::new(rt.alloc(), 64);
    expect_run(rt, &["trial", number], &mut shelf, &mut out, status, output)
}

// Numbers of tanks, and what is written.
static FARMS: [(&str, &str); 4] = [
    ("1", "trial 1: valid, 4 happenings, 1 events\n"),
    ("2", "trial 2: valid, 5 happenings, 2 events\n"),
    ("3", "trial 3: valid, 6 happenings, 3 events\n"),
    ("0003", "trial 3: valid, 6 happenings, 3 events\n"),
];

// Words that are no number of tanks.
static NO_NUMBERS: [&str; 7] = ["", "0", "0000", "1001", "00003", "+3", "3.0"];

#[test]
fn farms(rt: HostRuntime) -> Result<(), Fail> {
    for &(number, output) in &FARMS {
        expect_trial(&rt, number, Status::Valid, output)?;
    }
    Ok(())
}

#[test]
fn no_numbers_of_tanks(rt: HostRuntime) -> Result<(), Fail> {
    for number in &NO_NUMBERS {
        expect_trial(&rt, number, Status::Usage, USAGE)?;
    }
    Ok(())
}

// The whole times from 0 to 1000, 467 others, and 1004 and 1005.
#[test]
fn a_thousand_tanks(rt: HostRuntime) -> Result<(), Fail> {
    expect_trial(
        &rt,
        "1000",
        Status::Valid,
        "trial 1000: valid, 1470 happenings, 1000 events\n",
    )
}
