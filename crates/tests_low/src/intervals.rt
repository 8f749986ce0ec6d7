//! Intervals, as they are named on the command line.

use plus_number::exact::Exact;
use plus_words::interval::Interval;
use std::test::*;

fn parts_of(word: &str) -> Option<(i64, i64)> {
    match Interval::parse(word) {
        Some(interval) => Some(interval.value.parts()),
        None => None,
    }
}

#[test]
fn names(rt: HostRuntime) {
    assert_eq!(&rt; parts_of("1"), Some((1, 1)));
    assert_eq!(&rt; parts_of("0.50"), Some((1, 2)));
    assert_eq!(&rt; parts_of("004/6"), Some((2, 3)));
    assert_eq!(&rt; parts_of("0"), None);
    assert_eq!(&rt; parts_of("1/0"), None);
    assert_eq!(&rt; parts_of("0.5/2"), None);
    assert_eq!(&rt; parts_of("-1"), None);
    assert_eq!(&rt; parts_of("1."), None);
    assert_eq!(&rt; parts_of("9223372036854775808"), None);
    assert_eq!(&rt;
        parts_of("9223372036854775808/2"),
        Some((4611686018427387904, 1))
    );
}
