//! Small pieces of what is said.

use itoa::Buffer;
use std::alloc::AllocError;
use std::str;

/// Some bytes as a text; bytes that are none are left out.
pub fn text_of(bytes: &[u8]) -> &str {
    str::from_utf8(bytes).unwrap_or("?")
}

/// Appends texts, one behind the other.
pub fn append_all(into: &mut Vec<u8>, parts: &[&str]) -> Result<(), AllocError> {
    for part in parts {
        into.extend_from_slice(part.as_bytes())?;
    }
    Ok(())
}

/// Appends texts as a line.
pub fn append_line(into: &mut Vec<u8>, parts: &[&str]) -> Result<(), AllocError> {
    append_all(into, parts)?;
    into.push(b'\n')?;
    Ok(())
}

/// Appends a number.
pub fn append_number(into: &mut Vec<u8>, number: u64) -> Result<(), AllocError> {
    let mut buffer = Buffer::new();
    into.extend_from_slice(buffer.format(number).as_bytes())
}

/// Appends what comes behind so many members of a list: a comma from the second on.
pub fn append_comma(into: &mut Vec<u8>, before: usize) -> Result<(), AllocError> {
    if before > 0 {
        into.extend_from_slice(b", ")?;
    }
    Ok(())
}
