//! Worked rows of the definitions, each a proved fact.
ghost use Rattle.plus_steps.specs.Rows.{LiteralsRow, OverfullRow, MixRow, MixTwiceRow};

/// Timed literals open a tank at 2 and close it at 3: four steps of 1 are a stepped plan.
pub fn literals_row()
    ensures { LiteralsRow }
{}

/// In two steps of 2 an open tank is filled to 8, where its event closes it, and not to 5, where the event first holds.
pub fn overfull_row()
    ensures { OverfullRow }
{}

/// An action without time, whose effects read the state before it.
pub fn mix_row()
    ensures { MixRow }
{}

/// The same action done twice ends where the goal does not hold.
pub fn mix_twice_row()
    ensures { MixTwiceRow }
{}
