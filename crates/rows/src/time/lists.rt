//! Which fluents a rate names, which comparisons the atoms leave to decide, which lines are in order, and when a cascade
//! is over.
ghost use Rattle.rows.specs.Time.Lists.{NameRows, LiveRows, OrderRows, CascadeRows};

/// The fluents of both sides, in text order, also where they cancel out.
pub fn name_rows()
    ensures { NameRows }
{}

/// What a false atom decides in an `and`, and a true one in an `or`.
pub fn live_rows()
    ensures { LiveRows }
{}

/// A line that goes back, or that stands after an end, where other lines are before it.
pub fn order_rows()
    ensures { OrderRows }
{}

/// A cascade is over where no event holds, and not before; and no event fires twice in it.
pub fn cascade_rows()
    ensures { CascadeRows }
{}
