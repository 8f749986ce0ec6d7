//! What a round of events asks.
ghost use Rattle.rows.specs.Tested.Rounds.{RoundRows, RoundStops};

/// Where no event holds only the conditions ask; where one holds its effects do too.
pub fn round_rows()
    ensures { RoundRows }
{}

/// A number that does not fit, of a condition and of an effect; an event that repeats, before its effects; writes that
/// clash; a fluent without value.
pub fn round_stops()
    ensures { RoundStops }
{}
