//! A domain, a problem and three plans, byte by byte.
ghost use Rattle.rows.specs.Accepted.Worked.{PairRow, AcceptedRow, RefusedRow, CutOffRow};

/// The two texts spell a well-typed pair.
pub fn pair_row()
    ensures { PairRow }
{}

/// A plan of one action is accepted, with its report.
pub fn accepted_row()
    ensures { AcceptedRow }
{}

/// A plan is refused at an action that the domain has not.
pub fn refused_row()
    ensures { RefusedRow }
{}

/// A plan text that goes on behind its limit is cut off there.
pub fn cut_off_row()
    ensures { CutOffRow }
{}
