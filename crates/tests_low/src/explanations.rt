//! What is written beside an answer, as a person reads it.
ghost use Rattle.std.specs.Prelude.{◌≤◌, length};

use plus_explain::commands::{FORMS, append_commands, word_for};
use plus_explain::ending::{Ending, last_line};
use plus_explain::kept::Kept;
use plus_explain::marked::append_marked;
use plus_explain::named::{Bytes, Named};
use plus_explain::place::{Place, line_offset};
use plus_explain::reasons::{append_place, append_reasons};
use plus_io::{MemShelf, MemSink, Shelf, Sink, read_all, write_all};
use std::alloc::Global;
use std::process::Abort;
use std::test::Fail;

// The words of a command.
fn words(alloc: Global, line: &str) -> Result<Vec<String>, Fail> {
    let mut words = Vec::new(alloc);
    for word in line.split(' ') {
        words.push(String::from_str(alloc, word)?)?;
    }
    Ok(words)
}

#[test]
fn an_offset_has_a_line_and_a_column(rt: HostRuntime) {
    for (offset, line, column) in [(0, 1, 1), (2, 1, 3), (3, 2, 1), (6, 3, 3)] {
        assert_eq!(rt; Place::of(b"ab\n\ncd", offset), Place { line, column });
    }
}

#[test]
fn a_line_has_an_offset(rt: HostRuntime) {
    for (line, offset) in [(1, Some(0)), (3, Some(4)), (0, None), (4, None)] {
        assert_eq!(rt; line_offset(b"ab\n\ncd", line), offset);
    }
}

// Marks a line from one place to another, and compares what is shown.
fn expect_marked(
    rt: &(impl Abort + AllocGlobal),
    line: &[u8],
    at: usize,
    end: usize,
    shown: &[u8],
) -> Result<(), Fail>
    requires { at ≤ length line.now }
{
    let mut text = Vec::new(rt.alloc());
    append_marked(&mut text, line, at, end)?;
    assert_eq!(rt; text.as_slice(), shown);
    Ok(())
}

#[test]
fn a_line_is_shown_with_a_mark(rt: HostRuntime) -> Result<(), Fail> {
    expect_marked(&rt, b"\t(on) \xc3\xbc)", 1, 5, b" (on) ??)\n ^^^^\n")?;
    // the place is the end of the line
    expect_marked(&rt, b"(on", 3, 3, b"(on\n   ^\n")
}

#[test]
fn a_long_line_is_cut(rt: HostRuntime) -> Result<(), Fail> {
    let mut line = Vec::new(rt.alloc());
    for at in 0u8..150 {
        line.push(b'a' + at % 26)?;
    }
    assert_eq!(rt; line.len(), 150);
    expect_marked(
        &rt,
        &line,
        90,
        92,
        b"...yzabcdefghijklmnopqrstuvwxyzabcdefghijklmnopqrstuvwxyzabcdefghijklmnopqrstuvwxyzabcdefghijklmnopqrst\n                                           ^^\n",
    )
}

// Verdicts, and the places that they name.
static VERDICTS: [(&str, Option<Named<'static>>); 9] = [
    (
        "bad text: domain 20-36: unknown type",
        Some(Named {
            text: "domain",
            place: Bytes::Text { start: 20, end: 36 },
            why: "unknown type",
        }),
    ),
    (
        "bad text: plan line 2, bytes 3-4",
        Some(Named {
            text: "plan",
            place: Bytes::Line {
                line: 2,
                start: 3,
                end: 4,
            },
            why: "no line of a plan",
        }),
    ),
    (
        "invalid: line 2: precondition of (open-door)",
        Some(Named {
            text: "plan",
            place: Bytes::Whole { line: 2 },
            why: "precondition of (open-door)",
        }),
    ),
    (
        "beyond: depth 64 in problem at 64",
        Some(Named {
            text: "problem",
            place: Bytes::Text { start: 64, end: 65 },
            why: "depth 64",
        }),
    ),
    (
        "beyond: domain text over 1048576 bytes",
        Some(Named {
            text: "domain",
            place: Bytes::Text {
                start: 1048576,
                end: 1048577,
            },
            why: "over 1048576 bytes",
        }),
    ),
    (
        "beyond: line 7 over 4096 bytes",
        Some(Named {
            text: "plan",
            place: Bytes::Whole { line: 7 },
            why: "over 4096 bytes",
        }),
    ),
    ("invalid: goal", None),
    ("beyond: number 1 + 2", None),
    ("valid", None),
];

#[test]
fn a_verdict_names_a_place(rt: HostRuntime) {
    for &(verdict, named) in &VERDICTS {
        assert_eq!(rt; Named::in_verdict(verdict), named);
    }
}

// Commands, names of files, and the words that stand for them.
static FILES: [(&str, &str, Option<&str>); 6] = [
    (
        "check a.pddl b.pddl c.plan --happenings 5",
        "problem",
        Some("b.pddl"),
    ),
    (
        "check a.pddl b.pddl c.plan --happenings 5",
        "plan",
        Some("c.plan"),
    ),
    (
        "check a.pddl b.pddl c.plan --happenings 5",
        "translated domain",
        None,
    ),
    ("show domain a.pddl", "domain", Some("a.pddl")),
    ("show domain a.pddl", "problem", None),
    ("show plan a.pddl", "domain", None),
];

#[test]
fn a_word_stands_for_a_file(rt: HostRuntime) -> Result<(), Fail> {
    for &(command, name, word) in &FILES {
        let words = words(rt.alloc(), command)?;
        assert_eq!(rt; word_for(&words, name), word);
    }
    Ok(())
}

#[test]
fn the_commands_are_listed_one_on_a_line(rt: HostRuntime) -> Result<(), Fail> {
    let mut text = Vec::new(rt.alloc());
    append_commands(&mut text)?;
    assert_eq!(rt;
        text.iter().filter(|byte| **byte == b'\n').count(),
        FORMS.len() + 2
    );
    Ok(())
}

// A text that is read in pieces, and one that cannot be picked.
fn kept(alloc: Global) -> Result<Kept<MemShelf>, Fail> {
    let mut shelf = MemShelf::new(alloc);
    shelf.put("a", b"some text")?;
    shelf.pieces(2);
    shelf.fail("b", 0)?;
    Ok(Kept::new(alloc, shelf))
}

// Whether a text is read whole.
fn is_read(alloc: Global, shelf: &mut Kept<MemShelf>, name: &str) -> bool {
    let mut bytes = Vec::new(alloc);
    read_all(shelf, name, 100, &mut bytes).is_ok()
}

#[test]
fn a_text_is_kept_as_it_is_read(rt: HostRuntime) -> Result<(), Fail> {
    let mut kept = kept(rt.alloc())?;
    assert!(rt; is_read(rt.alloc(), &mut kept, "a"));
    assert!(rt; kept.text("a") == Some(b"some text".as_slice()));
    assert_eq!(rt; kept.failed(), None);
    assert!(rt; kept.pick("b").is_err());
    assert_eq!(rt; kept.failed(), Some("b"));
    Ok(())
}

#[test]
fn the_last_line_is_kept(rt: HostRuntime) -> Result<(), Fail> {
    let mut out = Ending::new(rt.alloc(), MemSink::new(rt.alloc(), 3));
    assert!(rt; write_all(&mut out, b"one\ntwo").is_ok());
    assert!(rt; out.last_line().is_none());
    assert!(rt; write_all(&mut out, b" words\n").is_ok());
    assert!(rt; out.last_line() == Some(b"two words".as_slice()));
    for _line in 0..3000 {
        assert!(rt; write_all(&mut out, b"a line of a report\n").is_ok());
    }
    assert!(rt; write_all(&mut out, b"valid\n").is_ok());
    assert!(rt; out.last_line() == Some(b"valid".as_slice()));
    assert!(rt; last_line(b"").is_none());
    assert!(rt; last_line(b"\n") == Some(b"".as_slice()));
    Ok(())
}

// What is written beside the answer to a command.
fn told(
    alloc: Global,
    command: &str,
    shelf: &Kept<MemShelf>,
    out: &Ending<MemSink>,
) -> Result<Vec<u8>, Fail> {
    let words = words(alloc, command)?;
    let mut text = Vec::new(alloc);
    append_reasons(&mut text, &words, shelf, out)?;
    Ok(text)
}

// A plan that was read.
fn kept_plan(alloc: Global) -> Result<Kept<MemShelf>, Fail> {
    let mut shelf = MemShelf::new(alloc);
    shelf.put("p", b"1: (unlock)\n; wait\n3: (open-door)")?;
    let mut kept = Kept::new(alloc, shelf);
    let _ = is_read(alloc, &mut kept, "p");
    Ok(kept)
}

// What is written beside a verdict on a plan.
fn reasons(alloc: Global, verdict: &str) -> Result<Vec<u8>, Fail> {
    let kept = kept_plan(alloc)?;
    let mut out = Ending::new(alloc, MemSink::new(alloc, 100));
    let _ = write_all(&mut out, b"at 0\n");
    let _ = write_all(&mut out, verdict.as_bytes());
    told(alloc, "check d q p", &kept, &out)
}

// Verdicts on a plan, and what is written beside them: nothing where there is no such place, of a text
// that was not read, and of a plan that is valid.
static PLANS: [(&str, &str); 5] = [
    (
        "invalid: line 3: precondition of (open-door)\n",
        "p:3:1: precondition of (open-door)\n3: (open-door)\n^^^^^^^^^^^^^^\n",
    ),
    (
        "bad text: plan line 1, bytes 3-4\n",
        "p:1:4: no line of a plan\n1: (unlock)\n   ^\n",
    ),
    ("bad text: plan line 1, bytes 300-400\n", ""),
    ("bad text: domain 3-4: form\n", ""),
    ("valid\n", ""),
];

#[test]
fn a_line_of_a_plan_is_named(rt: HostRuntime) -> Result<(), Fail> {
    for &(verdict, text) in &PLANS {
        let written = reasons(rt.alloc(), verdict)?;
        assert_eq!(rt; written.as_slice(), text.as_bytes(), "{verdict}");
    }
    Ok(())
}

// What is written where the only file of a command cannot be read.
fn unread(alloc: Global, out: &Ending<MemSink>) -> Result<Vec<u8>, Fail> {
    let mut shelf = MemShelf::new(alloc);
    shelf.fail("d", 0)?;
    let mut kept = Kept::new(alloc, shelf);
    let _ = kept.pick("d");
    told(alloc, "show domain d", &kept, out)
}

// A sink whose first write fails.
fn full(alloc: Global) -> Result<Ending<MemSink>, Fail> {
    let mut sink = MemSink::new(alloc, 100);
    sink.fail(1)?;
    Ok(Ending::new(alloc, sink))
}

#[test]
fn a_file_that_cannot_be_read_is_named(rt: HostRuntime) -> Result<(), Fail> {
    let out = full(rt.alloc())?;
    let text = unread(rt.alloc(), &out)?;
    assert_eq!(rt; text.as_slice(), b"planplus: cannot read d\n".as_slice());
    Ok(())
}

#[test]
fn an_output_that_cannot_be_written_is_named(rt: HostRuntime) -> Result<(), Fail> {
    let mut out = full(rt.alloc())?;
    assert!(rt; out.write(b"valid\n").is_err());
    let text = unread(rt.alloc(), &out)?;
    assert_eq!(rt;
        text.as_slice(),
        b"planplus: cannot write the output\n".as_slice()
    );
    Ok(())
}

#[test]
fn a_place_at_the_end_is_shown(rt: HostRuntime) -> Result<(), Fail> {
    let mut text = Vec::new(rt.alloc());
    append_place(
        &mut text,
        "d.pddl",
        b"(define\n (domain a)\n",
        20,
        20,
        "unclosed",
    )?;
    assert_eq!(rt; text.as_slice(), b"d.pddl:3:1: unclosed\n\n^\n".as_slice());
    Ok(())
}
