//! Places in a text, as editors count them.

ghost use Rattle.std.specs.Prelude.{◌≡◌, ◌+◌, ◌-◌, ◌≤◌, [], ◌++◌, length, take, drop, IfSome};
ghost use Rattle.plus_explain.specs.Place.{line_at, line_before, line_behind};

/// A place in a text: the number of its line, and the number of its byte in the line, both from 1.
#[derive(Clone, Copy, Debug, PartialEq, Eq)]
pub struct Place {
    pub line: usize,
    pub column: usize,
}

// The number of the line in which an offset stands.
fn line_number(text: &[u8], offset: usize) -> usize
    requires { offset ≤ length text.now }
    ensures { result ≡ line_at text.now offset }
{
    text[..offset].iter().filter(|byte| **byte == b'\n').count() + 1
}

/// Where the line begins in which an offset stands.
pub fn line_start(text: &[u8], offset: usize) -> usize
    requires { offset ≤ length text.now }
    ensures within { result ≤ offset }
    ensures start { drop result (take offset text.now) ≡ line_before text.now offset }
{
    let mut start = offset;
    'back: while start > 0 && text[start - 1] != b'\n' {
        start -= 1;
    }
    start
}

/// Where the line ends in which an offset stands: before its line feed, or at the end of the text.
pub fn line_end(text: &[u8], offset: usize) -> usize
    requires { offset ≤ length text.now }
    ensures behind { offset ≤ result }
    ensures within { result ≤ length text.now }
    ensures end { take (result - offset) (drop offset text.now) ≡ line_behind text.now offset }
{
    let mut end = offset;
    'on: while end < text.len() && text[end] != b'\n' {
        end += 1;
    }
    end
}

/// The line in which an offset stands.
pub fn line_around(text: &[u8], offset: usize) -> &[u8]
    requires { offset ≤ length text.now }
    ensures { result.now ≡ line_before text.now offset ++ line_behind text.now offset }
{
    &text[line_start(text, offset)..line_end(text, offset)]
}

/// Where the line of this number begins, if the text has it.
pub fn line_offset(text: &[u8], number: usize) -> Option<usize>
    ensures within { IfSome result (λ at. at ≤ length text.now) }
    ensures number { IfSome result (λ at. line_at text.now at ≡ number) }
    ensures first { IfSome result (λ at. line_before text.now at ≡ []) }
{
    let mut line = 1;
    let mut start = 0;
    for (at, byte) in text.iter().enumerate() {
        if line == number {
            return Some(start);
        }
        if *byte == b'\n' {
            line += 1;
            start = at + 1;
        }
    }
    if line == number { Some(start) } else { None }
}

impl Place {
    /// The place of an offset, which may be the end of the text.
    pub fn of(text: &[u8], offset: usize) -> Place
        requires { offset ≤ length text.now }
        ensures line { result.line ≡ line_at text.now offset }
        ensures column { result.column ≡ length (line_before text.now offset) + 1 }
    {
        Place {
            line: line_number(text, offset),
            column: offset - line_start(text, offset) + 1,
        }
    }
}
