//! Words that are a command, and words that are none.

use crate::runs::{DOOR, OPENED, OPENED_REPORT, USAGE, door, expect_run, shelf_of};
use plus_io::MemSink;
use plus_report::Status;
use std::process::Abort;
use std::test::Fail;

// Carries out the words over the files of the door.
fn expect_said(
    rt: &(impl Abort + AllocGlobal),
    words: &[&str],
    status: Status,
    output: &str,
) -> Result<(), Fail> {
    let mut shelf = shelf_of(rt.alloc(), door(OPENED))?;
    shelf.put("--happenings", DOOR.as_bytes())?;
    let mut out = MemSink::new(rt.alloc(), 64);
    expect_run(rt, words, &mut shelf, &mut out, status, output)
}

// Numbers of happenings, the status and what is written. The door's plan enters three moments.
static NUMBERS: [(&str, Status, &str); 6] = [
    ("3", Status::Valid, OPENED_REPORT),
    ("0000003", Status::Valid, OPENED_REPORT),
    ("1000000", Status::Valid, OPENED_REPORT),
    (
        "2",
        Status::Beyond,
        "at 0\n  run\nat 1\n  act (unlock)\n    - (locked)\nbeyond: happenings 2\n",
    ),
    ("1", Status::Beyond, "at 0\nbeyond: happenings 1\n"),
    ("0000001", Status::Beyond, "at 0\nbeyond: happenings 1\n"),
];

// Words that are no number of happenings.
static NO_NUMBERS: [&str; 18] = [
    "", "0", "0000000", "1000001", "9999999", "00000003", "10000000", "+3", "-3", "3.0", "3/1",
    " 3", "3 ", "3\n", "x", "0x3", "1e3", "٣",
];

#[test]
fn numbers_of_happenings(rt: HostRuntime) -> Result<(), Fail> {
    for &(number, status, output) in &NUMBERS {
        let words = ["check", "d", "p", "l", "--happenings", number];
        expect_said(&rt, &words, status, output)?;
    }
    Ok(())
}

#[test]
fn no_numbers_of_happenings(rt: HostRuntime) -> Result<(), Fail> {
    for number in &NO_NUMBERS {
        let words = ["check", "d", "p", "l", "--happenings", number];
        expect_said(&rt, &words, Status::Usage, USAGE)?;
    }
    Ok(())
}

// Lists of words that are none of the commands.
static NO_COMMANDS: [&[&str]; 18] = [
    &[],
    &["check"],
    &["check", "d", "p"],
    &["Check", "d", "p", "l"],
    &["check", "d", "p", "l", "--happenings"],
    &["check", "d", "p", "l", "--happenings=3"],
    &["check", "d", "p", "l", "3"],
    &["check", "d", "p", "l", "--happening", "3"],
    &["check", "d", "p", "l", "--Happenings", "3"],
    &["check", "d", "p", "l", "happenings", "3"],
    &["check", "d", "p", "l", "3", "--happenings"],
    &["check", "--happenings", "3", "d", "p", "l"],
    &["check", "d", "p", "l", "--happenings", "3", "3"],
    &["show", "d", "p", "l", "--happenings", "3"],
    &["show", "plan", "l"],
    &["plan", "1", "4", "9", "d", "p", "--cuts"],
    &["plan", "1", "4", "9", "d", "p", "--cut", "--cut"],
    &["check", "1", "4", "9", "d", "p", "--cut"],
];

#[test]
fn lists_of_words(rt: HostRuntime) -> Result<(), Fail> {
    for words in &NO_COMMANDS {
        expect_said(&rt, words, Status::Usage, USAGE)?;
    }
    Ok(())
}

// A file may have any name.
#[test]
fn a_file_named_as_a_word(rt: HostRuntime) -> Result<(), Fail> {
    let words = ["check", "--happenings", "p", "l"];
    expect_said(&rt, &words, Status::Valid, OPENED_REPORT)
}
