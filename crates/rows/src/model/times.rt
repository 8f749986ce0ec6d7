//! Rates, moved states, rounds of events, literals, and how far time may pass.
ghost use Rattle.rows.specs.Model.Rises.{AfterRows};
ghost use Rattle.rows.specs.Model.Times.{RateRows, RoundRows, TimeRows};

/// Which processes hold, what their rates add up to, and what a rate reads.
pub fn rate_rows()
    ensures { RateRows }
{}

/// Which events fire together, and a cascade of two rounds.
pub fn round_rows()
    ensures { RoundRows }
{}

/// What literals do, how far time may pass, and which lines are in order.
pub fn time_rows()
    ensures { TimeRows }
{}

/// Which comparisons hold just after a state, where a value rises, falls and rests.
pub fn after_rows()
    ensures { AfterRows }
{}
