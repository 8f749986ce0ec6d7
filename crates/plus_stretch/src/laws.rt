//! Laws over the definitions alone.
ghost use Rattle.plus_stretch.specs.Laws.{RootsAre, RisingAre, NothingChangesBetween, SearchSteps};

use plus_number::exact::Exact;

/// The roots of a condition are those in its list, and all lie above 0.
pub fn roots_are()
    ensures { RootsAre }
{}

/// The roots below a bound, in order, each once.
pub fn rising_are()
    ensures { RisingAre }
{}

/// With no root strictly between two moments no condition of an event or a process changes its truth there.
pub fn nothing_changes_between<Q: Exact>()
    ensures { NothingChangesBetween Q.fits }
{}

/// A search from root to root begins with all of them, and passes over none.
pub fn search_steps()
    ensures { SearchSteps }
{}
