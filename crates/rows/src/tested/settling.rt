//! What is asked to settle a state, and to see whether a set goes on.
ghost use Rattle.rows.specs.Tested.Settling.{SettleRows, SettleStops, GoRows};

/// The rates of the processes that hold, and then those of the chosen ones; nothing where none holds.
pub fn settle_rows()
    ensures { SettleRows }
{}

/// Each kind of stop.
pub fn settle_stops()
    ensures { SettleStops }
{}

/// Whether a set goes on is asked up to the first process that differs.
pub fn go_rows()
    ensures { GoRows }
{}
