//! Lines of plans.
ghost use Rattle.rows.specs.Texts.Lines.{LineRows, FaultRows, CutRows};

/// What a line says.
pub fn line_rows()
    ensures { LineRows }
{}

/// Where a line that is none is refused.
pub fn fault_rows()
    ensures { FaultRows }
{}

/// How a text is cut into lines.
pub fn cut_rows()
    ensures { CutRows }
{}
