//! Running sets: which process shows that a set does not confirm itself, and which rates read what moves.
ghost use Rattle.std.specs.Prelude.{[], ◌∷◌};
ghost use Rattle.plus_model.specs.Trajectory.{Trajectory};
ghost use Rattle.plus_model.specs.Breach.{Breaks, Unsettled, Coupled};
ghost use Rattle.rows.specs.Model.Rises.{to_eight, values, enter};
ghost use Rattle.rows.specs.Time.Sets.{stopping_world, second_world, times_zero_world, self_world};
ghost use Rattle.rows.specs.Time.Sets.{cancelling_world, cancelling_history, falling_world, falling_history};

/// A process of the set does not hold just after at the rates of the set itself.
pub fn stopping_row()
    ensures { Breaks stopping_world to_eight (enter 0 (values 5 0) ∷ []) (Unsettled 0) }
{}

/// The first process is no ground for the breach, and the second is.
pub fn second_row()
    ensures { Breaks second_world to_eight (enter 0 (values 5 0) ∷ []) (Unsettled 1) }
{}

/// A rate names a fluent that moves, in a product with 0.
pub fn times_zero_row()
    ensures { Breaks times_zero_world to_eight (enter 0 (values 0 0) ∷ []) (Coupled 0 1) }
{}

/// A rate of a fluent reads that fluent.
pub fn self_row()
    ensures { Breaks self_world to_eight (enter 0 (values 1 0) ∷ []) (Coupled 0 0) }
{}

/// A rate may read a fluent that two processes move against each other: its net rate is 0.
pub fn cancelling_row()
    ensures { Trajectory cancelling_world to_eight cancelling_history }
{}

/// A fluent falls, and its process ends at the bound of a strict comparison.
pub fn falling_row()
    ensures { Trajectory falling_world to_eight falling_history }
{}
