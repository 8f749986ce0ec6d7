//! Laws over the definitions alone.
ghost use Rattle.plus_trim.specs.Laws.{InsideOrFails, LimitOrBreach, BeyondOnce};

use plus_number::exact::Exact;

/// No test fails on a plan that is valid inside the limits.
pub fn inside_or_fails<Q: Exact>()
    ensures { InsideOrFails Q.fits }
{}

/// The first test that fails on a plan is not both a limit and a breach.
pub fn limit_or_breach<Q: Exact>()
    ensures { LimitOrBreach Q.fits }
{}

/// For the acts that are kept there is one number of cases in which a limit stands.
pub fn beyond_once<Q: Exact>()
    ensures { BeyondOnce Q.fits }
{}
