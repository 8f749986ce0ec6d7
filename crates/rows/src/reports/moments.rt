//! What moments with literals write, and what changes do.
ghost use Rattle.rows.specs.Reports.Moments.{ZeroRow, ChangesRow};

/// Literals at the beginning, and one that changes nothing.
pub fn zero_row()
    ensures { ZeroRow }
{}

/// What a round and actions change.
pub fn changes_row()
    ensures { ChangesRow }
{}
