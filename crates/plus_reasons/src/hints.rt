//! What is written in place of a form that other dialects have.

use plus_expected::say::append_line;
use plus_expected::{File, Outline};
use plus_tokens::Kind;
use std::alloc::AllocError;

// What was meant by a token that is refused.
fn meant(outline: &Outline<'_>, number: usize) -> Option<&'static str> {
    let before = number.saturating_sub(1);
    let second = number.saturating_sub(2);
    if outline.is(number, "/") && outline.has_kind(before, Kind::Number) {
        return Some("a fraction is written (/ 3 2) in a domain, and :init has decimals alone");
    }
    if outline.is(number, "when") {
        return Some("a when stands in an effect, and not inside another when");
    }
    if outline.is(number, "=") && outline.opens(before) && outline.has_kind(second, Kind::Number) {
        return Some(
            "a timed literal is an atom or (not ATOM): let an event that it causes assign a number",
        );
    }
    None
}

/// Appends what is written in place of what is refused, where that is known.
pub fn append_hint(
    into: &mut Vec<u8>,
    file: File<'_>,
    word: &str,
    at: usize,
) -> Result<(), AllocError> {
    if word == "byte" && matches!(file.text.get(at), Some(b'^')) {
        return append_line(into, &["a power is written as a product, as (* (x) (x))"]);
    }
    if word != "form" {
        return Ok(());
    }
    let outline = Outline::read(*into.allocator(), file.text)?;
    match meant(&outline, outline.at(at)) {
        Some(says) => append_line(into, &[says]),
        None => Ok(()),
    }
}
