//! Plans in steps, played call by call, are stepped plans. Laws alone, there is no code here.

ghost use Rattle.laws_translation.specs.Runs.{RunsAreStepped, OrderedIsInTime, ExpandedIsInTime};
ghost use Rattle.plus_steps.specs.Laws.{CallName};

/// Calls of a player in steps that lead to the goal are a stepped plan.
pub fn runs_are_stepped()
    ensures { RunsAreStepped CallName }
{}

/// Timed literals in the order of a ground form are in the order that the player asks for; so those of each pair are.
pub fn literals_are_in_time()
    ensures ordered { OrderedIsInTime }
    ensures expanded { ExpandedIsInTime }
{}
