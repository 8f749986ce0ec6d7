//! Plans that are valid: each row's history is a trajectory, and by the laws the only one.
ghost use Rattle.plus_model.specs.Terms.{AtLeast, Above};
ghost use Rattle.plus_model.specs.Trajectory.{Trajectory};
ghost use Rattle.rows.specs.Model.Rises.{to_eight, over_world};
ghost use Rattle.rows.specs.Time.Histories.{starting_world, starting_history, pair_world, pair_history};
ghost use Rattle.rows.specs.Time.Histories.{touching_world, touching_history, order_world, order_plan, order_history};
ghost use Rattle.rows.specs.Time.Histories.{to_five, over_history, bell_world, bell_history, answer_plan, answer_history};

/// A running set ends at the moment where a process starts that waits for `x >= 5`.
pub fn reaching_row()
    ensures { Trajectory (starting_world AtLeast) to_eight starting_history }
{}

/// And for `x > 5`: the process does not hold at that moment, and just after it does.
pub fn passing_row()
    ensures { Trajectory (starting_world Above) to_eight starting_history }
{}

/// Two events fire together, and both read the state before.
pub fn pair_row()
    ensures { Trajectory pair_world to_eight pair_history }
{}

/// An event waits for `x > 5`, and the plan ends at the moment where x is 5.
pub fn over_row()
    ensures { Trajectory over_world to_five over_history }
{}

/// A literal makes a moment, and after it the same set goes on.
pub fn bell_row()
    ensures { Trajectory bell_world to_eight bell_history }
{}

/// An action at the time of a literal comes after it.
pub fn answer_row()
    ensures { Trajectory bell_world answer_plan answer_history }
{}

/// An event that holds at `x = 5` alone fires where x comes to 5.
pub fn touching_row()
    ensures { Trajectory touching_world to_eight touching_history }
{}

/// At one time a literal comes first, then an event that waits for it, then an action that waits for the event.
pub fn order_row()
    ensures { Trajectory order_world order_plan order_history }
{}
