//! Laws over the definitions alone.
ghost use Rattle.plus_crossing.specs.Laws.{PiecesTell, OneTruthUntilRoot, OneTruthUntilNext};
ghost use Rattle.plus_state.specs.Tested.{OneTest};
ghost use Rattle.plus_crossing.specs.Asked.{Passes};

use plus_number::exact::Exact;

/// A piece is a line along which the value of its expression moves; where it is none, there is no value
/// at any moment.
pub fn pieces_tell()
    ensures { PiecesTell }
{}

/// The constancy law: where the live comparisons of a condition are linear and none has a root strictly
/// between two moments, the condition has one truth at every fraction between them, also at one that
/// fits no number type.
pub fn one_truth_until_root()
    ensures { OneTruthUntilRoot }
{}

/// A condition has one truth strictly between a moment and the next root after it, or, where there is
/// none, the moment up to which it was sought.
pub fn one_truth_until_next<Q: Exact>()
    ensures { OneTruthUntilNext Q.fits }
{}

/// One test at most is the first that fails, and where all pass there is none.
pub fn one_test<Q: Exact>()
    ensures { OneTest (Passes Q.fits) }
{}
