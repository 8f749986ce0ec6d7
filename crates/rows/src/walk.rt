//! Worked rows of the walk of types, each a proved fact: in which order a pair is asked.
ghost use Rattle.rows.specs.Walk.{WalkRow, TimedRows};

/// A pair with a fault in each part: all of them, in order.
pub fn walk_row()
    ensures { WalkRow }
{}

/// Timed literals, which are walked like atoms, each in its place.
pub fn timed_rows()
    ensures { TimedRows }
{}
