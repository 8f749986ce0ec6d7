//! The lines of verdicts and of refusals, each once, byte by byte.
ghost use Rattle.rows.specs.Reports.Lines.{VerdictRows, EarlyRows};

/// The line of each verdict.
pub fn verdict_rows()
    ensures { VerdictRows }
{}

/// The line of each refusal.
pub fn early_rows()
    ensures { EarlyRows }
{}
