//! What a line of a plan says.

use plus_tree::{Call, Span};

/// Which lines a plan has.
#[derive(Clone, Copy, PartialEq, Eq)]
pub enum PlanForm {
    /// Actions and an end, each with its time: `1.5: (open-valve)`, `10: @end`.
    Timed,
    /// Actions alone: `(open-valve)`.
    Untimed,
}

/// The time `top / bottom`. Its place in the line goes from its first Number to the end of its
/// last.
#[derive(Clone, Copy, Debug, PartialEq, Eq)]
pub struct Time {
    pub top: u128,
    pub bottom: u128,
    pub span: Span,
}

/// What a line says, with its number in the text, where the first line is 1 and blank lines count.
#[derive(Drop)]
pub enum Line {
    /// Nothing but blanks and comments.
    Blank,
    /// An action at a time.
    Act { line: u32, time: Time, call: Call },
    /// The end of the plan.
    End { line: u32, time: Time },
    /// An action of a plan without times.
    Step { line: u32, call: Call },
}
