//! The laws of the definitions, each the contract of a function with an empty body.
ghost use Rattle.plus_steps.specs.Laws.{CallName, OneStart, OneAct, OneTick, OneCall, PlansAreStepped, SteppedHasOnePlan, CallsGoOn, CallsEnd, CallsBegin};

/// From the beginning of a problem one state is reached.
pub fn one_start()
    ensures { OneStart }
{}

/// By a call one state is reached.
pub fn one_act()
    ensures { OneAct CallName }
{}

/// By a step one state is reached.
pub fn one_tick()
    ensures { OneTick }
{}

/// Without time one state is reached by a call.
pub fn one_call()
    ensures { OneCall CallName }
{}

/// Calls without time, and one more.
pub fn calls_go_on()
    ensures { CallsGoOn CallName }
{}

/// Calls that lead to the goal are a plan.
pub fn calls_end()
    ensures { CallsEnd CallName }
{}

/// A plan goes on from the state to which its first calls lead.
pub fn calls_begin()
    ensures { CallsBegin CallName }
{}

/// What a plan of the translation leaves is a stepped plan.
pub fn plans_are_stepped()
    ensures { PlansAreStepped CallName }
{}

/// Each stepped plan is what exactly one plan of the translation leaves.
pub fn stepped_has_one_plan()
    ensures { SteppedHasOnePlan CallName }
{}
