//! Events that hold at every moment after one, and not at it.
ghost use Rattle.std.specs.Prelude.{pos};
ghost use Rattle.plus_fraction.specs.Fraction.{whole};
ghost use Rattle.plus_model.specs.Breach.{Breaks, NoFirstMoment};
ghost use Rattle.rows.specs.Model.Rises.{to_eight};
ghost use Rattle.rows.specs.Time.Moments.{negated_world, negated_history, bell_world, bell_history, bell_at_five_history};

/// The second of two events waits for `(not (>= (x) 5))`, and x falls.
pub fn negated_row()
    ensures { Breaks negated_world to_eight negated_history (NoFirstMoment 1 (whole (pos 1))) }
{}

/// A process holds at one moment before, which is quiet; and a literal comes later.
pub fn later_bell_row()
    ensures { Breaks (bell_world 6) to_eight bell_history (NoFirstMoment 0 (whole (pos 5))) }
{}

/// A literal makes a moment where the event does not hold yet, and the breach stands after it.
pub fn bell_at_five_row()
    ensures { Breaks (bell_world 5) to_eight bell_at_five_history (NoFirstMoment 0 (whole (pos 5))) }
{}
