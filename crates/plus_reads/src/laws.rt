//! Laws over the definitions alone.
ghost use Rattle.plus_reads.specs.Laws.{DependsOnReads, LeavesUnwritten, StillAgrees, UnchangedAgrees, QuietStays};

use plus_number::exact::Exact;

/// The truth of a condition, what it asks and what its atoms decide depend on the atoms and fluents that
/// it names alone.
pub fn depends_on_reads()
    ensures { DependsOnReads }
{}

/// A joint effect leaves the atoms and the fluents that none of its writes names.
pub fn leaves_unwritten()
    ensures { LeavesUnwritten }
{}

/// As time passes, states agree on a condition that reads no moving fluent.
pub fn still_agrees()
    ensures { StillAgrees }
{}

/// After changes, states agree on a condition that reads nothing that is changed.
pub fn unchanged_agrees()
    ensures { UnchangedAgrees }
{}

/// After changes the conditions that are not looked at are still known to be false, where those are
/// looked at that were before and those that read something changed.
pub fn quiet_stays<Q: Exact>()
    ensures { QuietStays Q.fits }
{}
