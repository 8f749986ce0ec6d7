ghost use Rattle.std.specs.Prelude.{◌≤◌, length};

use plus_number::exact::Exact;
use plus_plan::{Line, PlanFault, PlanForm, PlanReader, Time, line_at, time_value};
use plus_tree::{Call, Span};
use std::alloc::Global;
use std::process::Abort;
use std::test::*;

// What a line is to give. A call is its name and its arguments.
#[derive(Clone, Copy)]
enum Want<'a> {
    Nothing,
    Blank,
    Act(u128, u128, usize, usize, &'a [&'a [u8]]),
    End(u128, u128, usize, usize),
    Step(&'a [&'a [u8]]),
    NotLine(usize, usize),
}

fn is_call(call: &Call, words: &[&[u8]]) -> bool {
    let Some((name, args)) = words.split_first() else {
        return false;
    };
    let given = call.args.as_slice();
    call.name.bytes() == *name
        && given.len() == args.len()
        && given.iter().zip(args).all(|(a, b)| a.bytes() == *b)
}

fn is_wanted(got: &Result<Option<(Line, usize)>, PlanFault>, want: Want<'_>) -> bool {
    match want {
        Want::Nothing => matches!(got, Ok(None)),
        Want::Blank => matches!(got, Ok(Some((Line::Blank, _)))),
        Want::Act(top, bottom, start, end, words) => match got {
            Ok(Some((Line::Act { line, time, call }, _))) => {
                *line == 7
                    && time.top == top
                    && time.bottom == bottom
                    && time.span.start == start
                    && time.span.end == end
                    && is_call(call, words)
            }
            _ => false,
        },
        Want::End(top, bottom, start, end) => match got {
            Ok(Some((Line::End { line, time }, _))) => {
                *line == 7
                    && time.top == top
                    && time.bottom == bottom
                    && time.span.start == start
                    && time.span.end == end
            }
            _ => false,
        },
        Want::Step(words) => match got {
            Ok(Some((Line::Step { line, call }, _))) => *line == 7 && is_call(call, words),
            _ => false,
        },
        Want::NotLine(start, end) => {
            matches!(got, Err(PlanFault::NotLine { line: 7, start: s, end: e }) if *s == start && *e == end)
        }
    }
}

// Compares what line 7 gives, where it is the whole text.
fn expect_line(rt: &(impl Abort + AllocGlobal), text: &[u8], form: PlanForm, want: Want<'_>) {
    let got = line_at(rt.alloc(), text, 0, 7, form);
    assert!(rt; is_wanted(&got, want));
}

const OPEN: &[&[u8]] = &[b"open-valve"];

const MOVE: &[&[u8]] = &[b"move", b"a", b"b_1"];

const MANY: &[&[u8]] = &[b"go", b"a", b"b", b"c", b"d", b"e"];

static TIMED: [(&[u8], Want<'static>); 51] = [
    (b"", Want::Nothing),
    (b"\n1: @end", Want::Blank),
    (b" \t\r\n", Want::Blank),
    (b"; plan found\r\n", Want::Blank),
    (b"; 1: (a)", Want::Blank),
    (b"1: (open-valve)", Want::Act(1, 1, 0, 1, OPEN)),
    (
        b"1.000: (OPEN-VALVE ) [0.001]\r\n\r\n",
        Want::Act(1000, 1000, 0, 5, OPEN),
    ),
    (
        b"  02.50:(Move A b_1)[-3];last\n",
        Want::Act(250, 100, 2, 7, MOVE),
    ),
    (b"7/2 : (go a b c d e) [ 1.5 ]", Want::Act(7, 2, 0, 3, MANY)),
    (b"3 / 06: (open-valve)", Want::Act(3, 6, 0, 6, OPEN)),
    (b"0: (open-valve)", Want::Act(0, 1, 0, 1, OPEN)),
    (b"0/1: (open-valve)", Want::Act(0, 1, 0, 3, OPEN)),
    (b"1: (and)", Want::Act(1, 1, 0, 1, &[b"and"])),
    (b"10.0: @end\n", Want::End(100, 10, 0, 4)),
    (b"1/3: @END", Want::End(1, 3, 0, 3)),
    (
        b"9999999999999999999.999999999: @end",
        Want::End(9999999999999999999999999999, 1000000000, 0, 29),
    ),
    // The line ends too early.
    (b"1", Want::NotLine(1, 1)),
    (b"1:", Want::NotLine(2, 2)),
    (b"1/", Want::NotLine(2, 2)),
    (b"1/2\n: @end", Want::NotLine(3, 3)),
    (b"1: (open-valve", Want::NotLine(14, 14)),
    (b"1: (", Want::NotLine(4, 4)),
    (b"1: (a \nb)", Want::NotLine(6, 6)),
    (b"1: (a) [", Want::NotLine(8, 8)),
    (b"1: (a) [1 ; ]", Want::NotLine(13, 13)),
    // No line goes on with this token.
    (b"1/0: @end", Want::NotLine(2, 3)),
    (b"1/00: @end", Want::NotLine(2, 4)),
    (b"1/-2: @end", Want::NotLine(2, 4)),
    (b"1/2.0: @end", Want::NotLine(2, 5)),
    (b"1.0/2: @end", Want::NotLine(3, 4)),
    (b"1/2/3: @end", Want::NotLine(3, 4)),
    (b"-0: @end", Want::NotLine(0, 2)),
    (b"-1: @end", Want::NotLine(0, 2)),
    (b"(open-valve)", Want::NotLine(0, 1)),
    (b"@end", Want::NotLine(0, 4)),
    (b"1 (a)", Want::NotLine(2, 3)),
    (b"1:end", Want::NotLine(1, 5)),
    (b"1: :", Want::NotLine(3, 4)),
    (b"1: ()", Want::NotLine(4, 5)),
    (b"1: (a (b))", Want::NotLine(6, 7)),
    (b"1: (a ?x)", Want::NotLine(6, 8)),
    (b"1: (a 2)", Want::NotLine(6, 7)),
    (b"1: (a) b", Want::NotLine(7, 8)),
    (b"1: (a) []", Want::NotLine(8, 9)),
    (b"1: (a) [1 2]", Want::NotLine(10, 11)),
    (b"1: (a) [1] 2", Want::NotLine(11, 12)),
    (b"1: @end [1]", Want::NotLine(8, 9)),
    // No token can be read.
    (b"1: (a) !", Want::NotLine(7, 8)),
    (b"1.: @end", Want::NotLine(1, 2)),
    (b"1: @endx", Want::NotLine(3, 4)),
    (b"12345678901234567890: @end", Want::NotLine(0, 1)),
];

#[test]
fn timed_lines(rt: HostRuntime) {
    for &(text, want) in &TIMED {
        expect_line(&rt, text, PlanForm::Timed, want);
    }
}

static UNTIMED: [(&[u8], Want<'static>); 8] = [
    (b"", Want::Nothing),
    (b"; none\n", Want::Blank),
    (
        b" (Move a B_1) ; go\r\n",
        Want::Step(&[b"move", b"a", b"b_1"]),
    ),
    (b"(a", Want::NotLine(2, 2)),
    (b"(a) [1]", Want::NotLine(4, 5)),
    (b"1: (a)", Want::NotLine(0, 1)),
    (b"@end", Want::NotLine(0, 4)),
    (b"(a) #", Want::NotLine(4, 5)),
];

#[test]
fn untimed_lines(rt: HostRuntime) {
    for &(text, want) in &UNTIMED {
        expect_line(&rt, text, PlanForm::Untimed, want);
    }
}

// Where the line behind a line begins: at the end of the text, where there is none, it is the offset itself.
fn offset_behind(
    got: &Result<Option<(Line, usize)>, PlanFault>,
    from: usize,
) -> Result<usize, PlanFault> {
    match got {
        Ok(Some((_, next))) => Ok(*next),
        Ok(None) => Ok(from),
        Err(fault) => Err(*fault),
    }
}

// Where the line behind the one at an offset begins, whose number is given.
fn next_offset(alloc: Global, text: &[u8], from: usize, line: u32) -> Result<usize, PlanFault>
    requires { from ≤ length text.now }
{
    offset_behind(&line_at(alloc, text, from, line, PlanForm::Timed), from)
}

#[test]
fn a_line_ends_where_the_next_begins(rt: HostRuntime) {
    let text = b"; plan found\r\n1.000: (OPEN-VALVE ) [0.001]\r\n\r\n10.0: @end";
    for (line, from, next) in [
        (1, 0, 14),
        (2, 14, 44),
        (3, 44, 46),
        (4, 46, 56),
        (5, 56, 56),
    ] {
        assert!(rt; from <= text.len());
        assert_eq!(rt; next_offset(rt.alloc(), text, from, line), Ok(next));
    }
}

#[test]
fn a_line_as_long_as_it_may_be(rt: HostRuntime) -> Result<(), Fail> {
    let mut text = vec![in rt.alloc(); b' '; 4096]?;
    expect_line(&rt, &text, PlanForm::Timed, Want::Blank);
    assert_eq!(rt; next_offset(rt.alloc(), &text, 0, 1), Ok(4096));
    text.push(b'\n')?;
    expect_line(&rt, &text, PlanForm::Timed, Want::Blank);
    assert_eq!(rt; next_offset(rt.alloc(), &text, 0, 1), Ok(4097));
    Ok(())
}

#[test]
fn a_line_that_is_too_long(rt: HostRuntime) -> Result<(), Fail> {
    let text = vec![in rt.alloc(); b' '; 4097]?;
    let too_long = PlanFault::LineTooLong { line: 3 };
    assert_eq!(rt; next_offset(rt.alloc(), &text, 0, 3), Err(too_long));
    Ok(())
}

#[test]
fn values_of_times(rt: HostRuntime) {
    let greatest = 9223372036854775807;
    let rows: [(u128, u128, Option<(i64, i64)>); 10] = [
        (1000, 1000, Some((1, 1))),
        (0, 10, Some((0, 1))),
        (250, 100, Some((5, 2))),
        (7, 3, Some((7, 3))),
        (9223372036854775807, 1, Some((greatest, 1))),
        (9223372036854775808, 1, None),
        (1, 9223372036854775807, Some((1, greatest))),
        (1, 9223372036854775808, None),
        (
            9223372036854775807000000000,
            1000000000,
            Some((greatest, 1)),
        ),
        (9223372036854775807000000001, 1000000000, None),
    ];
    for (top, bottom, want) in rows {
        let span = Span { start: 0, end: 1 };
        let got = if bottom > 0 {
            time_value(&Time { top, bottom, span })
                .ok()
                .map(|value| value.parts())
        } else {
            None
        };
        assert_eq!(rt; got, want);
    }
}

// What a reader gives: nothing, a line with its number, or why it refuses.
#[derive(Clone, Copy, Debug, PartialEq, Eq)]
enum Given {
    Nothing,
    Act(u32),
    End(u32),
    Other,
    Refused(PlanFault),
}

// The form and the number of what was given.
fn given_by(got: &Result<Option<Line>, PlanFault>) -> Given {
    match got {
        Ok(None) => Given::Nothing,
        Ok(Some(Line::Act { line, .. })) => Given::Act(*line),
        Ok(Some(Line::End { line, .. })) => Given::End(*line),
        Ok(Some(_)) => Given::Other,
        Err(fault) => Given::Refused(*fault),
    }
}

// What a reader gives next.
fn next_given(reader: &mut PlanReader) -> Given {
    given_by(&reader.next_line())
}

#[test]
fn a_line_is_fed_up_to_its_line_feed(rt: HostRuntime) -> Result<(), Fail> {
    let mut reader = PlanReader::new(rt.alloc(), PlanForm::Timed)?;
    assert_eq!(rt; reader.feed(b"1: (a"), 5);
    assert_eq!(rt; reader.feed(b") [2]\n2: @end"), 6);
    assert_eq!(rt; reader.feed(b"2: @end"), 0);
    reader.close();
    assert_eq!(rt; next_given(&mut reader), Given::Act(1));
    assert_eq!(rt; next_given(&mut reader), Given::Nothing);
    Ok(())
}

#[test]
fn the_last_line_needs_no_line_feed(rt: HostRuntime) -> Result<(), Fail> {
    let mut reader = PlanReader::new(rt.alloc(), PlanForm::Timed)?;
    assert_eq!(rt; reader.feed(b"2: @end"), 7);
    assert_eq!(rt; next_given(&mut reader), Given::Nothing);
    reader.close();
    assert_eq!(rt; next_given(&mut reader), Given::End(1));
    Ok(())
}

// A line of 4,097 bytes is too long without its LF, and that is kept.
#[test]
fn a_line_is_fed_until_it_is_too_long(rt: HostRuntime) -> Result<(), Fail> {
    let text = vec![in rt.alloc(); b' '; 5000]?;
    let mut reader = PlanReader::new(rt.alloc(), PlanForm::Timed)?;
    assert_eq!(rt; reader.feed(&text), 4097);
    let too_long = Given::Refused(PlanFault::LineTooLong { line: 1 });
    assert_eq!(rt; next_given(&mut reader), too_long);
    assert_eq!(rt; next_given(&mut reader), too_long);
    Ok(())
}
