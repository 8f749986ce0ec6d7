//! What no clause says: that calls succeed with ample memory, over pieces of each size.

use plus_io::{
    MemShelf, MemSink, QuietShelf, QuietSink, ReadStop, Shelf, Sink, read_all, write_all,
};
use std::alloc::Global;
use std::process::Abort;
use std::test::Fail;

const TEXT: &str = "(define (domain tank))";

// Reads a text of at most so many bytes, and compares the answer and what was read.
fn expect_read<S: Shelf>(
    rt: &(impl Abort + AllocGlobal),
    shelf: &mut S,
    name: &str,
    limit: usize,
    answer: Result<(), ReadStop>,
    read: &[u8],
) {
    let mut into = Vec::new(rt.alloc());
    assert_eq!(rt; read_all(shelf, name, limit, &mut into), answer);
    assert_eq!(rt; into.as_slice(), read);
}

#[test]
fn a_text_is_read_whole_or_up_to_its_limit(rt: HostRuntime) -> Result<(), Fail> {
    // the largest piece, the limit, the answer, what is read
    let rows = [
        (1, 22, Ok(()), TEXT),
        (4096, 22, Ok(()), TEXT),
        (7, 23, Ok(()), TEXT),
        (1, 21, Err(ReadStop::TooLong), "(define (domain tank)"),
        (4096, 7, Err(ReadStop::TooLong), "(define"),
        (4096, 0, Err(ReadStop::TooLong), ""),
    ];
    for (most, limit, answer, read) in rows {
        let mut shelf = MemShelf::new(rt.alloc());
        shelf.put("domain", TEXT.as_bytes())?;
        shelf.pieces(most);
        expect_read(&rt, &mut shelf, "domain", limit, answer, read.as_bytes());
    }
    Ok(())
}

// A shelf with two texts, of which the first fails at this call.
fn failing(alloc: Global, call: u64) -> Result<MemShelf, Fail> {
    let mut shelf = MemShelf::new(alloc);
    shelf.put("domain", TEXT.as_bytes())?;
    shelf.put("problem", b"(define)")?;
    shelf.pieces(5);
    shelf.fail("domain", call)?;
    Ok(shelf)
}

#[test]
fn a_listed_failure_stops_a_read(rt: HostRuntime) -> Result<(), Fail> {
    let failed = Err(ReadStop::Failed);
    // the call that fails, what is read before it
    for (call, read) in [(0, ""), (1, ""), (2, "(defi"), (5, "(define (domain tank")] {
        let mut shelf = failing(rt.alloc(), call)?;
        expect_read(&rt, &mut shelf, "domain", 100, failed, read.as_bytes());
        expect_read(&rt, &mut shelf, "problem", 100, Ok(()), b"(define)");
    }
    Ok(())
}

#[test]
fn a_missing_file_is_a_failure_and_a_strange_name_is_none(rt: HostRuntime) -> Result<(), Fail> {
    let mut shelf = MemShelf::new(rt.alloc());
    shelf.fail("plan", 0)?;
    expect_read(&rt, &mut shelf, "plan", 100, Err(ReadStop::Failed), b"");
    expect_read(&rt, &mut shelf, "other", 100, Ok(()), b"");
    Ok(())
}

// A shelf with a text that was put in the place of another.
fn replaced(alloc: Global, text: &[u8]) -> Result<QuietShelf, Fail> {
    let mut shelf = QuietShelf::new(alloc);
    shelf.put("plan", b"0: @end")?;
    shelf.put("plan", text)?;
    Ok(shelf)
}

#[test]
fn a_long_text_comes_in_pieces(rt: HostRuntime) -> Result<(), Fail> {
    let text = vec![in rt.alloc(); b'a'; 10_000]?;
    let mut shelf = replaced(rt.alloc(), &text)?;
    expect_read(&rt, &mut shelf, "plan", 10_000, Ok(()), &text);
    shelf.pieces(4096);
    let front = &text[..9_999];
    expect_read(
        &rt,
        &mut shelf,
        "plan",
        9_999,
        Err(ReadStop::TooLong),
        front,
    );
    Ok(())
}

// Writes a line, and compares what the sink has taken of it.
fn expect_written(rt: &impl Abort, sink: &mut MemSink, taken: &str) {
    let done = write_all(sink, b"valid\n").is_ok();
    assert_eq!(rt; done, taken == "valid\n");
    assert_eq!(rt; sink.bytes(), taken.as_bytes());
}

#[test]
fn bytes_are_written_up_to_a_listed_failure(rt: HostRuntime) -> Result<(), Fail> {
    // the most that one write takes, the write that fails, what is taken
    let rows = [
        (100, 0, "valid\n"),
        (1, 0, "valid\n"),
        (2, 1, ""),
        (2, 3, "vali"),
        (2, 4, "valid\n"),
    ];
    for (most, call, taken) in rows {
        let mut sink = MemSink::new(rt.alloc(), most);
        sink.fail(call)?;
        expect_written(&rt, &mut sink, taken);
    }
    Ok(())
}

#[test]
fn a_quiet_sink_counts(rt: HostRuntime) -> Result<(), Fail> {
    let mut sink = QuietSink::new();
    assert!(rt; write_all(&mut sink, b"valid\n").is_ok());
    assert!(rt; write_all(&mut sink, b"").is_ok());
    assert_eq!(rt; sink.count(), 6);
    Ok(())
}
