//! Bytes that begin no token, and tokens that are too long.

use crate::say::append_line;
use std::alloc::AllocError;

/// Bytes with a name, and what to do.
struct Odd {
    bytes: &'static [u8],
    says: &'static str,
}

static ODD: [Odd; 11] = [
    Odd {
        bytes: b"\xef\xbb\xbf",
        says: "a byte order mark: save the file without it",
    },
    Odd {
        bytes: b"\xff\xfe",
        says: "a text in UTF-16: save the file as ASCII or UTF-8",
    },
    Odd {
        bytes: b"\xfe\xff",
        says: "a text in UTF-16: save the file as ASCII or UTF-8",
    },
    Odd {
        bytes: b"\xc2\xa0",
        says: "a no-break space: write a plain one",
    },
    Odd {
        bytes: b"\xe2\x80\x93",
        says: "a dash: write -",
    },
    Odd {
        bytes: b"\xe2\x80\x94",
        says: "a dash: write -",
    },
    Odd {
        bytes: b"\xe2\x88\x92",
        says: "a minus sign that is no -: write -",
    },
    Odd {
        bytes: b"\xe2\x89\xa4",
        says: "write <=",
    },
    Odd {
        bytes: b"\xe2\x89\xa5",
        says: "write >=",
    },
    Odd {
        bytes: b"!",
        says: "write (not (= ..)) for !=",
    },
    Odd {
        bytes: b".",
        says: "a number has a digit before its point, and one behind it",
    },
];

// The byte before an offset, where it is one of a number.
fn is_in_number(text: &[u8], at: usize) -> bool {
    match text.get(..at) {
        Some([.., last]) => last.is_ascii_digit(),
        _ => false,
    }
}

// What is said of the bytes at an offset.
fn said(text: &[u8], at: usize) -> &'static str {
    let rest = text.get(at..).unwrap_or(b"");
    for odd in &ODD {
        if rest.starts_with(odd.bytes) {
            return odd.says;
        }
    }
    match rest.first() {
        Some(b'e' | b'E') if is_in_number(text, at) => "a number has no exponent: write it out",
        Some(byte) if is_in_number(text, at) && byte.is_ascii_alphabetic() => {
            "a name begins with a letter, and a number ends with a digit"
        }
        Some(byte) if !byte.is_ascii() => "a byte beyond ASCII may stand in a comment alone",
        _ => "no name, number or sign begins with this byte",
    }
}

/// Appends which byte begins no token, or may not stand behind a number.
pub fn append_byte(into: &mut Vec<u8>, text: &[u8], at: usize) -> Result<(), AllocError> {
    append_line(into, &[said(text, at)])
}

/// Appends how long a name or a number may be.
pub fn append_long(into: &mut Vec<u8>, text: &[u8], at: usize) -> Result<(), AllocError> {
    let is_name = match text.get(at..) {
        Some([first, ..]) => first.is_ascii_alphabetic(),
        _ => false,
    };
    if is_name {
        return append_line(into, &["a name has at most 64 bytes"]);
    }
    let most = "a number has at most 19 digits before its point and 9 behind it";
    append_line(into, &[most])
}
