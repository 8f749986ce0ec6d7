//! What a reader of replies may rely on, over the definitions alone.

ghost use Rattle.plus_plan_command.specs.Laws.{PlanOrNone};

/// The same two texts never have a plan, and none by as many decisions on the same grid, with the cut or without.
pub fn plan_or_none()
    ensures { PlanOrNone }
{}
