//! Plans that are valid: each row's history is a trajectory, and by the laws the only one.
ghost use Rattle.plus_model.specs.Trajectory.{Trajectory};
ghost use Rattle.rows.specs.Model.Door.{door, door_plan, door_history};
ghost use Rattle.rows.specs.Model.Mixed.{mixed, mixed_plan, mixed_history};
ghost use Rattle.rows.specs.Model.Mixed.{missing, missing_plan, missing_history};
ghost use Rattle.rows.specs.Model.Token.{set_world, set_plan, set_history};
ghost use Rattle.rows.specs.Model.Token.{timed_world, token_plan, token_history};
ghost use Rattle.rows.specs.Model.Tank.{tank, tank_plan, tank_history};
ghost use Rattle.rows.specs.Model.Tank.{timed_tank, timed_plan, timed_history};
ghost use Rattle.rows.specs.Model.Rises.{to_eight, side_world, side_history};
ghost use Rattle.rows.specs.Model.Rises.{stick_world, stick_history, note_plan, note_history};

/// A tank is opened, fills, and closes by an event at 7/2.
pub fn tank_row()
    ensures { Trajectory tank tank_plan tank_history }
{}

/// A timed literal closes it at the moment when it is full, and the event does not fire.
pub fn timed_row()
    ensures { Trajectory timed_tank timed_plan timed_history }
{}

/// A process stops by itself at 5, and a moment stands there.
pub fn side_row()
    ensures { Trajectory side_world to_eight side_history }
{}

/// A process holds at one value of x alone, which x crosses: nothing happens.
pub fn stick_row()
    ensures { Trajectory stick_world to_eight stick_history }
{}

/// But an action at that moment makes both processes run on.
pub fn note_row()
    ensures { Trajectory stick_world note_plan note_history }
{}

/// A door is unlocked and opened.
pub fn door_row()
    ensures { Trajectory door door_plan door_history }
{}

/// Two numeric effects of one action read the state before it.
pub fn mixed_row()
    ensures { Trajectory mixed mixed_plan mixed_history }
{}

/// The empty plan, where the goal negates a comparison whose side has no value.
pub fn missing_row()
    ensures { Trajectory missing missing_plan missing_history }
{}

/// An event fires again at one moment, after an action.
pub fn set_row()
    ensures { Trajectory set_world set_plan set_history }
{}

/// An event fires at two moments, each time after a literal that sets what it waits for.
pub fn token_row()
    ensures { Trajectory timed_world token_plan token_history }
{}
