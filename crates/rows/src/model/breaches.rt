//! Plans that are refused: each row's history is the longest prefix, and its breach stands there.
ghost use Rattle.std.specs.Prelude.{[], ◌∷◌, pos};
ghost use Rattle.plus_fraction.specs.Fraction.{whole};
ghost use Rattle.plus_model.specs.Breach.{Breaks, NoFirstMoment, Repeats, Conflict};
ghost use Rattle.plus_model.specs.Breach.{Unsettled, Coupled, NoValue, Precondition, Goal};
ghost use Rattle.plus_model.specs.Breach.{UnknownAction, WrongArguments};
ghost use Rattle.plus_model.specs.Breach.{BreaksBy, TimeGoesBack, AfterEnd};
ghost use Rattle.rows.specs.Model.Door.{door, shut, end_at, empty_plan, start_history};
ghost use Rattle.rows.specs.Model.Door.{locked_plan, locked_history};
ghost use Rattle.rows.specs.Model.Door.{closed_plan, closed_history};
ghost use Rattle.rows.specs.Model.Door.{unknown_plan, wrong_plan, lines_to_one};
ghost use Rattle.rows.specs.Model.Door.{ended_at_one, ended_history};
ghost use Rattle.rows.specs.Model.Token.{loop_world, loop_plan, loop_history};
ghost use Rattle.rows.specs.Model.Mixed.{missing, copy_plan, missing_history};
ghost use Rattle.rows.specs.Model.Rises.{to_eight, values, enter, over_world, over_history};
ghost use Rattle.rows.specs.Model.Rises.{again_world, again_history, clash_world, clash_history};
ghost use Rattle.rows.specs.Model.Rises.{at_once_world, starting_world};
ghost use Rattle.rows.specs.Model.Rises.{grow_world, grow_history, coupled_world, lacking_world};

/// An event holds at every moment after 5, and not at 5.
pub fn over_row()
    ensures { Breaks over_world to_eight over_history (NoFirstMoment 0 (whole (pos 5))) }
{}

/// An event holds again after it fired.
pub fn again_row()
    ensures { Breaks again_world to_eight again_history (Repeats 0) }
{}

/// Two events fire together and give one fluent two values.
pub fn clash_row()
    ensures { Breaks clash_world to_eight clash_history (Conflict 1) }
{}

/// A process ends at 5 by what it does itself.
pub fn grow_row()
    ensures { Breaks grow_world to_eight grow_history (Unsettled 0) }
{}

/// The rate of one process reads what another moves.
pub fn coupled_row()
    ensures { Breaks coupled_world to_eight (enter 0 (values 0 0) ∷ []) (Coupled 0 1) }
{}

/// A rate on a fluent without value.
pub fn lacking_row()
    ensures { Breaks lacking_world to_eight (enter 0 lacking_world.initial ∷ []) (NoValue 1) }
{}

/// An effect reads a fluent without value.
pub fn copy_row()
    ensures { Breaks missing copy_plan missing_history (NoValue 1) }
{}

/// The door is opened while it is locked.
pub fn locked_row()
    ensures { Breaks door locked_plan locked_history (Precondition 0) }
{}

/// The door is left closed.
pub fn closed_row()
    ensures { Breaks door closed_plan closed_history Goal }
{}

/// Nothing is done.
pub fn empty_row()
    ensures { Breaks door empty_plan start_history Goal }
{}

/// No action has this name.
pub fn unknown_row()
    ensures { Breaks door unknown_plan start_history (UnknownAction 0 shut) }
{}

/// An argument is wrong.
pub fn wrong_row()
    ensures { Breaks door wrong_plan start_history (WrongArguments 0 shut) }
{}

/// A line has a time below that of the line before.
pub fn back_row()
    ensures { BreaksBy door lines_to_one closed_history (end_at 0) TimeGoesBack }
{}

/// A line stands after the end; that its time goes back as well is not what is named.
pub fn after_row()
    ensures { BreaksBy door ended_at_one ended_history (end_at 0) AfterEnd }
{}

/// An event holds at every moment after the beginning of a stretch, and not at it.
pub fn at_once_row()
    ensures { Breaks at_once_world to_eight over_history (NoFirstMoment 0 (whole (pos 0))) }
{}

/// A process that starts just after the moment has a rate on a fluent without value.
pub fn starting_row()
    ensures { Breaks starting_world to_eight (enter 0 starting_world.initial ∷ []) (NoValue 1) }
{}

/// Two events make each other hold: after two rounds the first would fire again.
pub fn loop_row()
    ensures { Breaks loop_world loop_plan loop_history (Repeats 0) }
{}
