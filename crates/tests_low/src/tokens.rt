//! Tokens as the table of the language has them: each kind, each fault, and both sides of each limit.

use plus_tokens::{Kind, LexFault, Numeral, Op, Token, Tokens, next_token, numeral_of};
use std::process::Abort;
use std::test::Fail;

// Compares the first token of a text.
fn expect_first(rt: &impl Abort, text: &str, kind: Kind, start: usize, end: usize) {
    let token = Token { kind, start, end };
    assert_eq!(rt;
        next_token(text.as_bytes(), 0),
        Ok(Some(token)),
        "in {text}"
    );
}

// Texts, the kinds of their first tokens, where these start and where they end.
static KINDS: [(&str, Kind, usize, usize); 22] = [
    ("(and", Kind::Open, 0, 1),
    (" \t\r\n)", Kind::Close, 4, 5),
    ("[", Kind::OpenSquare, 0, 1),
    ("]1", Kind::CloseSquare, 0, 1),
    ("; a ( \u{e9}\n;\n move-2_b(", Kind::Name, 12, 20),
    ("a-5", Kind::Name, 0, 3),
    ("?X-y ", Kind::Variable, 0, 4),
    (":Action", Kind::Keyword, 0, 7),
    (": a", Kind::Colon, 0, 1),
    (":5", Kind::Colon, 0, 1),
    ("#T)", Kind::Clock, 0, 2),
    ("@End", Kind::End, 0, 4),
    ("+", Kind::Op(Op::Plus), 0, 1),
    ("- 5", Kind::Op(Op::Minus), 0, 1),
    ("--5", Kind::Op(Op::Minus), 0, 1),
    ("*", Kind::Op(Op::Times), 0, 1),
    ("/", Kind::Op(Op::Divide), 0, 1),
    ("<", Kind::Op(Op::Less), 0, 1),
    ("<==", Kind::Op(Op::AtMost), 0, 2),
    ("=<", Kind::Op(Op::Equal), 0, 1),
    (">=", Kind::Op(Op::AtLeast), 0, 2),
    (">", Kind::Op(Op::Greater), 0, 1),
];

#[test]
fn each_kind_is_read(rt: HostRuntime) {
    for &(text, kind, start, end) in &KINDS {
        expect_first(&rt, text, kind, start, end);
    }
}

// Texts that begin with a number: whether it is negative, its digits, the places behind the point, and its end.
static NUMBERS: [(&str, bool, u128, u8, usize); 5] = [
    ("0", false, 0, 0, 1),
    ("-0)", true, 0, 0, 2),
    ("007.250;", false, 7250, 3, 7),
    ("3:", false, 3, 0, 1),
    ("-1.5/", true, 15, 1, 4),
];

// Compares the number that the first token of a text spells.
fn expect_numeral(rt: &impl Abort, text: &str, numeral: Numeral) {
    match Tokens::new(text.as_bytes()).next() {
        Ok(Some(token)) => assert!(rt; token.numeral() == Some(numeral), "in {text}"),
        _ => assert!(rt; false, "in {text}"),
    }
}

#[test]
fn each_number_is_read(rt: HostRuntime) {
    for &(text, negative, digits, places, end) in &NUMBERS {
        expect_first(&rt, text, Kind::Number, 0, end);
        let numeral = Numeral {
            negative,
            digits,
            places,
        };
        expect_numeral(&rt, text, numeral);
    }
}

// Words that spell no number.
static NO_NUMBERS: [&str; 11] = [
    "",
    "-",
    "--5",
    "a",
    "5a",
    ".5",
    "5.",
    "1.2.3",
    "1.-5",
    "10000000000000000000",
    "1.1234567890",
];

#[test]
fn no_number_is_read_where_none_is_spelled(rt: HostRuntime) {
    for &word in &NO_NUMBERS {
        assert!(rt; numeral_of(word.as_bytes()).is_none(), "in {word}");
    }
}

// Texts with no first token, and where the byte is that is to blame.
static FAULTS: [(&str, usize); 18] = [
    (" {", 1),
    ("\u{b}", 0),
    ("_a", 0),
    (".5", 0),
    ("5.", 1),
    ("5.x", 1),
    ("1.2.3", 3),
    ("5-3", 1),
    ("12a", 2),
    ("-7?", 2),
    ("? x", 0),
    ("?5", 0),
    ("#", 0),
    ("#tx", 0),
    ("#-", 0),
    ("@en", 0),
    ("@endx", 0),
    ("\u{e9}", 0),
];

#[test]
fn each_fault_has_its_place(rt: HostRuntime) {
    for &(text, at) in &FAULTS {
        assert_eq!(rt;
            next_token(text.as_bytes(), 0),
            Err(LexFault::BadByte { at }),
            "in {text}"
        );
    }
}

// Compares whether the first token of a text is too long, and where it begins then.
fn expect_limit(rt: &impl Abort, text: &str, too_long: Option<usize>) {
    let answer = next_token(text.as_bytes(), 0);
    match too_long {
        Some(at) => assert_eq!(rt; answer, Err(LexFault::TooLong { at }), "in {text}"),
        None => assert!(rt; answer.is_ok(), "in {text}"),
    }
}

#[test]
fn limits_of_names_are_met_and_passed(rt: HostRuntime) -> Result<(), Fail> {
    let name = "abcdefghijklmnopqrstuvwxyzabcdefghijklmnopqrstuvwxyz0123456789-_"; // 64 bytes
    // what stands before and behind that name, and where the token is too long
    for (before, behind, too_long) in [
        ("", "", None),
        ("", "x", Some(0)),
        ("?", "", None),
        ("?", "x", Some(1)),
        (" :", "", None),
        (" :", "x", Some(2)),
    ] {
        let text = format!(in rt.alloc(); "{before}{name}{behind}")?;
        expect_limit(&rt, &text, too_long);
    }
    Ok(())
}

#[test]
fn limits_of_numbers_are_met_and_passed(rt: HostRuntime) {
    expect_limit(&rt, "9999999999999999999.123456789", None);
    expect_limit(&rt, "10000000000000000000", Some(0));
    expect_limit(&rt, "-1.1234567890", Some(0));
    expect_limit(&rt, "00000000000000000000x", Some(0));
    expect_first(&rt, "9999999999999999999.123456789", Kind::Number, 0, 29);
    let longest = Numeral {
        negative: false,
        digits: 9999999999999999999123456789,
        places: 9,
    };
    expect_numeral(&rt, "9999999999999999999.123456789", longest);
}

#[test]
fn the_rest_is_read_from_an_offset(rt: HostRuntime) {
    let text = b"(a) ; end";
    let name = Token {
        kind: Kind::Name,
        start: 1,
        end: 2,
    };
    assert_eq!(rt; next_token(text, 1), Ok(Some(name)));
    assert_eq!(rt; next_token(text, 3), Ok(None));
    assert_eq!(rt; next_token(text, 9), Ok(None));
    assert_eq!(rt; next_token(b"", 0), Ok(None));
}
