//! Why a line is no line of a plan.

use std::error::Error;
use std::fmt;
use thiserror::Error;

/// Why a line of a text is no line of a plan.
#[derive(Clone, Copy, Debug, PartialEq, Eq, Error)]
pub enum PlanFault {
    /// The line is none of the grammar. The place, counted in bytes of the line, is the first
    /// token with which no line goes on, the byte that spells no token, or the end of the line.
    #[error("line {line}, bytes {start}-{end}: no line of a plan")]
    NotLine { line: u32, start: usize, end: usize },
    /// The line has more than 4,096 bytes without its LF.
    #[error("line {line} is too long")]
    LineTooLong { line: u32 },
    /// There was no memory for the line.
    #[error("out of memory")]
    Memory,
}
