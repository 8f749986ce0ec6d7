//! Laws over the definitions alone.
ghost use Rattle.plus_state.specs.Laws.{JointPasses, JointStops, AddingMore};
ghost use Rattle.plus_state.specs.Rows.{ConditionRows, JointRows};
ghost use Rattle.plus_state.specs.WalkLaws.{LookSuffices, LookFinds};

use plus_number::exact::Exact;

/// Where all steps of a joint effect pass, it is the state after the writes that are due.
pub fn joint_passes<Q: Exact>()
    ensures { JointPasses Q.fits }
{}

/// Where the first step that stops is a fault, there is no joint effect, because of it.
pub fn joint_stops<Q: Exact>()
    ensures { JointStops Q.fits }
{}

/// Effects that are added after others ask, and make due, what they ask and make due alone.
pub fn adding_more()
    ensures { AddingMore }
{}

/// Where nothing that the other conditions ask fails, what those that are looked at ask tells whether all
/// passes, and what fails first.
pub fn look_suffices<Q: Exact>()
    ensures { LookSuffices Q.fits }
{}

/// Where no other condition holds, those that are looked at and hold are all that hold.
pub fn look_finds()
    ensures { LookFinds }
{}

/// Worked rows of what conditions ask.
pub fn condition_rows()
    ensures { ConditionRows }
{}

/// Worked rows of what joint effects ask.
pub fn joint_rows()
    ensures { JointRows }
{}
