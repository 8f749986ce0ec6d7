// Laws over the definitions alone.
ghost use Rattle.plus_settle.specs.Still.Laws.{StandingStill};

use plus_number::exact::Exact;

/// Along rates at which nothing moves that a condition reads, it holds just after a state exactly where it
/// holds in it, it has no root, and it asks no test that its truth in the state has not passed.
pub fn standing_still<Q: Exact>()
    ensures { StandingStill Q.fits }
{}
