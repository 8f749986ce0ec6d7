//! What is asked along rates: whether a condition holds just after, where its roots are, a state that is moved.
ghost use Rattle.rows.specs.Tested.Conditions.{SoonRows, SoonStops, RootRows, RootStops, MoveRows};

/// Of a condition that holds just after or not: the nodes of values and slopes, and none where its atoms decide it.
pub fn soon_rows()
    ensures { SoonRows }
{}

/// A product of two moving factors, by the number of its comparison; a divisor that moves; a slope that does not fit.
pub fn soon_stops()
    ensures { SoonStops }
{}

/// Of the roots of a condition: three nodes where the sides meet later, none where they do not.
pub fn root_rows()
    ensures { RootRows }
{}

/// A root that does not fit, and a comparison that is not linear.
pub fn root_stops()
    ensures { RootStops }
{}

/// Of a moved state: two nodes for each fluent that moves; and the first that does not fit.
pub fn move_rows()
    ensures { MoveRows }
{}
