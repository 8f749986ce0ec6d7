//! Laws over the definitions alone.
ghost use Rattle.plus_settle.specs.Laws.{OneRunningSet};
ghost use Rattle.plus_state.specs.Tested.{OneTest};
ghost use Rattle.plus_settle.specs.Steps.{Passes};

use plus_number::exact::Exact;

/// A state has one running set at most, with one list of rates.
pub fn one_running_set()
    ensures { OneRunningSet }
{}

/// One step at most is the first that stops, and where all pass there is none.
pub fn one_step<Q: Exact>()
    ensures { OneTest (Passes Q.fits) }
{}
