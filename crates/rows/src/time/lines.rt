//! What the lines that were read allow: the line that is read next, plans whose text was not read to its end, and
//! breaches of a line that is not the first.
ghost use Rattle.std.specs.Prelude.{[], ◌∷◌};
ghost use Rattle.plus_model.specs.Plan.{Instance};
ghost use Rattle.plus_model.specs.Plan as called;
ghost use Rattle.plus_model.specs.Breach.{BreaksBy, TimeGoesBack, AfterEnd};
ghost use Rattle.plus_model.specs.Breach.{Breaks, Precondition, UnknownAction, WrongArguments};
ghost use Rattle.plus_model.specs.Trajectory.{Trajectory};
ghost use Rattle.rows.specs.Model.Door.{door, unlock, open_door, shut, call_at, lines_of, door_plan, door_history};
ghost use Rattle.rows.specs.Model.Door.{lines_to_one, closed_history, ended_at_one, ended_history};
ghost use Rattle.rows.specs.Time.Lines.{UnreadRow, OpenRow, unlocked_then, unlocked_history};

/// An action has a time below that of the line before.
pub fn back_row()
    ensures { BreaksBy door lines_to_one closed_history (call_at 0 (Instance open_door)) TimeGoesBack }
{}

/// An action stands after the end, at a later time.
pub fn after_row()
    ensures { BreaksBy door ended_at_one ended_history (call_at 2 (Instance open_door)) AfterEnd }
{}

/// Before a line is read only the first part stands, though an event holds.
pub fn unread_row()
    ensures { UnreadRow }
{}

/// Before the text was read to its end a set runs where a line waits, and none runs past the last line.
pub fn open_row()
    ensures { OpenRow }
{}

/// The second line unlocks the door again.
pub fn again_row()
    ensures { Breaks door (unlocked_then (Instance unlock)) unlocked_history (Precondition 1) }
{}

/// The second line names no action.
pub fn unknown_row()
    ensures { Breaks door (unlocked_then (called.UnknownAction shut)) unlocked_history (UnknownAction 1 shut) }
{}

/// The second line has wrong arguments.
pub fn wrong_row()
    ensures { Breaks door (unlocked_then (called.WrongArguments shut)) unlocked_history (WrongArguments 1 shut) }
{}

/// A history to the goal is no trajectory before the text was read to its end.
pub fn unclosed_row()
    ensures { Trajectory door (lines_of door_plan.lines) door_history → ⊥ }
{}
