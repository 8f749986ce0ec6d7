//! The lists of tests that are asked at a history, test by test in order.
ghost use Rattle.rows.specs.Tested.Entries.{ClosingRows, RoundRows, LineRows, StretchRows};

/// Where an entry is closed: the events, the count of entries, and what settling asks.
pub fn closing_rows()
    ensures { ClosingRows }
{}

/// Rounds of events, before any line: all conditions, then the effects of those that fire.
pub fn round_rows()
    ensures { RoundRows }
{}

/// An action, a call that names none, and the goal.
pub fn line_rows()
    ensures { LineRows }
{}

/// Running sets: the time that is left, the roots, and what is asked at each of them.
pub fn stretch_rows()
    ensures { StretchRows }
{}
