//! Asks for a token of one kind, which is cheaper than to read whichever comes.

ghost use Rattle.std.specs.Prelude.{◌≡◌, ◌≤◌, length};
ghost use Rattle.plus_tokens.specs.Ahead.{end_if, is_close, is_colon, is_name, finds_none, is_open, place_if};
ghost use Rattle.plus_tokens.specs.First.{first_token};

use crate::lexer::{NAME_BYTES, byte_at, gap_end, is_letter, name_end};

/// Where the first token at or after an offset begins and ends, if it is a name.
pub fn name_ahead(text: &[u8], from: usize) -> Option<(usize, usize)>
    requires { from ≤ length text.now }
    ensures { result ≡ place_if is_name (first_token text.now from) }
{
    let start = gap_end(text, from);
    if !is_letter(byte_at(text, start)) {
        return None;
    }
    let end = name_end(text, start);
    if end - start > NAME_BYTES {
        return None;
    }
    Some((start, end))
}

/// Where the first token at or after an offset ends, if it is an opening parenthesis.
pub fn open_ahead(text: &[u8], from: usize) -> Option<usize>
    requires { from ≤ length text.now }
    ensures { result ≡ end_if is_open (first_token text.now from) }
{
    let start = gap_end(text, from);
    if byte_at(text, start) == b'(' {
        Some(start + 1)
    } else {
        None
    }
}

/// Where the first token at or after an offset ends, if it is a closing parenthesis.
pub fn close_ahead(text: &[u8], from: usize) -> Option<usize>
    requires { from ≤ length text.now }
    ensures { result ≡ end_if is_close (first_token text.now from) }
{
    let start = gap_end(text, from);
    if byte_at(text, start) == b')' {
        Some(start + 1)
    } else {
        None
    }
}

/// Where the first token at or after an offset ends, if it is a colon.
pub fn colon_ahead(text: &[u8], from: usize) -> Option<usize>
    requires { from ≤ length text.now }
    ensures { result ≡ end_if is_colon (first_token text.now from) }
{
    let start = gap_end(text, from);
    if byte_at(text, start) != b':' {
        return None;
    }
    if is_letter(byte_at(text, start + 1)) {
        return None;
    }
    Some(start + 1)
}

/// Whether there is no token at or after an offset, but only blanks and comments.
pub fn none_ahead(text: &[u8], from: usize) -> bool
    requires { from ≤ length text.now }
    ensures { result ≡ finds_none (first_token text.now from) }
{
    gap_end(text, from) == text.len()
}
