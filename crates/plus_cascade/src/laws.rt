//! Laws over the definitions alone.
ghost use Rattle.plus_cascade.specs.Laws.{EmptyAtFirst, RoundsGoOn};
ghost use Rattle.plus_state.specs.Tested.{OneTest};
ghost use Rattle.plus_cascade.specs.Steps.{Passes};

use plus_number::exact::Exact;

/// No event is in the set at first.
pub fn empty_at_first()
    ensures { EmptyAtFirst }
{}

/// What fires by the set of the events that have fired is a round after those events, and afterwards the
/// set is that of those and these.
pub fn rounds_go_on()
    ensures { RoundsGoOn }
{}

/// One step at most is the first that stops, and where all pass there is none.
pub fn one_step<Q: Exact>()
    ensures { OneTest (Passes Q.fits) }
{}
