//! Laws over the definitions alone.
ghost use Rattle.plus_possible.specs.Laws.{NeverDone, AnswersForAll, KeptForFewer};

use plus_number::exact::Exact;

/// An action that is left out is refused wherever it would be tried, and by no limit.
pub fn never_done<Q: Exact>()
    ensures { NeverDone Q.fits }
{}

/// What a search answers over the actions that may be done, it answers over all.
pub fn answers_for_all<Q: Exact>()
    ensures { AnswersForAll Q.value Q.fits }
{}

/// Where no plan of all actions goes on from a yes of a cut, no plan of those that may be done does.
pub fn kept_for_fewer<Q: Exact>()
    ensures { KeptForFewer Q.fits }
{}
