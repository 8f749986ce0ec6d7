//! Joint effects that are none, in a plan.
ghost use Rattle.std.specs.Prelude.{[], ◌∷◌};
ghost use Rattle.plus_model.specs.Breach.{Breaks, Conflict, NoValue, Repeats};
ghost use Rattle.rows.specs.Model.Rises.{to_eight, values, enter};
ghost use Rattle.rows.specs.Time.Effects.{still_world, twice_plan, lost_world, RepeatsRow};
ghost use Rattle.rows.specs.Time.Effects.{relay_world, relay_history};

/// An action assigns to a fluent and increases it.
pub fn twice_row()
    ensures { Breaks still_world twice_plan (enter 0 (values 0 0) ∷ []) (Conflict 0) }
{}

/// An event increases a fluent without value.
pub fn lost_row()
    ensures { Breaks lost_world to_eight (enter 0 lost_world.initial ∷ []) (NoValue 1) }
{}

/// An event fires again, beside one that increases a fluent without value: the event that repeats is what is named.
pub fn repeats_row()
    ensures { RepeatsRow }
{}

/// Two events fire again, the second of which fired first: the first in ground order is what is named.
pub fn relay_row()
    ensures { Breaks relay_world to_eight relay_history (Repeats 0) }
{}
