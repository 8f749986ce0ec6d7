//! Laws over the definitions alone.
ghost use Rattle.plus_state.specs.Tested.{OneTest};
ghost use Rattle.plus_stepped.specs.Tests.{Passes};
ghost use Rattle.plus_stepped.specs.Laws.{BreachIsNoAction, BreachIsNoCascade};

use plus_number::exact::Exact;

/// One test at most is the first that fails, and where all pass there is none.
pub fn one_test<Q: Exact>()
    ensures { OneTest (Passes Q.fits) }
{}

/// Where the first test that fails is a breach, the action cannot be done.
pub fn breach_is_no_action<Q: Exact>()
    ensures { BreachIsNoAction Q.fits }
{}

/// Where it is one of a cascade, no cascade comes to an end.
pub fn breach_is_no_cascade<Q: Exact>()
    ensures { BreachIsNoCascade Q.fits }
{}
