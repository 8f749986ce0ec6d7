//! What holds just after a state.
ghost use Rattle.rows.specs.Time.JustAfter.{JoinedRows, SideRows, SquareRow};

/// Of an `and`, an `or` and an atom.
pub fn joined_rows()
    ensures { JoinedRows }
{}

/// Of a comparison whose side has no value, or is a product or a quotient.
pub fn side_rows()
    ensures { SideRows }
{}

/// Of a comparison that is not linear: value and slope are those of 0, and just after it differs.
pub fn square_row()
    ensures { SquareRow }
{}
