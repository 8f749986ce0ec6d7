//! Where something stands in a text.

/// A place in a text: from the byte at `start` up to the byte before `end`, counted from 0.
#[derive(Clone, Copy, Debug, PartialEq, Eq)]
pub struct Span {
    pub start: usize,
    pub end: usize,
}

/// The place of what stands in no text.
pub const NOWHERE: Span = Span { start: 0, end: 0 };
