//! Histories in which events do not fire exactly where they hold, each by one part alone.
ghost use Rattle.rows.specs.Accepted.Fires.{FiresRows};

/// An event is left, or left out of a round, or fires where it does not hold; a round is empty; an action or a stretch comes while an event
/// holds, or one holds inside a stretch.
pub fn fires_rows()
    ensures { FiresRows }
{}
